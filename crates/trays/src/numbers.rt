// Answers as numbers, for sheets and other languages: the refusal's number and detail first, 0 and 0 for none.
ghost use Rattle.std.specs.Prelude.{◌≡◌};
ghost use Rattle.trays.specs.Told.{verdict, located_from, pair_from, written_from};

use crate::{Fault, Located, Location, Pair, Refusal, TraySize, Written};

impl From<Result<(), Fault>> for Refusal {
    ghost from_gives = { λ answer r. r ≡ verdict answer };

    fn from(answer: Result<(), Fault>) -> Refusal {
        match answer {
            Ok(()) => Refusal {
                number: 0,
                detail: 0,
            },
            Err(fault) => Refusal::from(fault),
        }
    }
}

impl From<Result<u32, Fault>> for Pair {
    ghost from_gives = { λ answer r. r ≡ pair_from answer };

    fn from(answer: Result<u32, Fault>) -> Pair {
        match answer {
            Ok(letters) => Pair {
                number: 0,
                detail: 0,
                letters,
            },
            Err(fault) => {
                let told = Refusal::from(fault);
                Pair {
                    number: told.number,
                    detail: told.detail,
                    letters: 0,
                }
            }
        }
    }
}

impl From<Result<Location, Fault>> for Located {
    ghost from_gives = { λ answer r. r ≡ located_from answer };

    fn from(answer: Result<Location, Fault>) -> Located {
        match answer {
            Ok(place) => Located {
                number: 0,
                detail: 0,
                start: place.start,
                end: place.end,
            },
            Err(fault) => {
                let told = Refusal::from(fault);
                Located {
                    number: told.number,
                    detail: told.detail,
                    start: 0,
                    end: 0,
                }
            }
        }
    }
}

impl From<Result<TraySize, Fault>> for Written {
    ghost from_gives = { λ answer r. r ≡ written_from answer };

    fn from(answer: Result<TraySize, Fault>) -> Written {
        match answer {
            Ok(size) => Written {
                number: 0,
                detail: 0,
                letters: size.letters,
                slips: size.slips,
            },
            Err(fault) => {
                let told = Refusal::from(fault);
                Written {
                    number: told.number,
                    detail: told.detail,
                    letters: 0,
                    slips: 0,
                }
            }
        }
    }
}
