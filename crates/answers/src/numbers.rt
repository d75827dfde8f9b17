// Answers as numbers, for sheets and other languages: the refusal's number and detail first, 0 and 0 for none.
ghost use Rattle.std.specs.Prelude.{◌≡◌};
ghost use Rattle.answers.specs.Told.{composed_from, shortest_from, search_from};

use crate::{ComposeCounts, Composed, FindCounts, Search, Shortest, ShortestOrder};
use trays::{Fault, MAX_SHORTEST, Refusal};

impl From<Result<ComposeCounts, Fault>> for Composed {
    ghost from_gives = { λ answer r. r ≡ composed_from answer };

    fn from(answer: Result<ComposeCounts, Fault>) -> Composed {
        match answer {
            Ok(counts) => Composed {
                number: 0,
                detail: 0,
                slips: counts.slips,
                kept: counts.kept,
                letters: counts.letters,
                saved: counts.saved,
                legend: counts.legend,
                joins: counts.joins,
            },
            Err(fault) => {
                let told = Refusal::from(fault);
                Composed {
                    number: told.number,
                    detail: told.detail,
                    slips: 0,
                    kept: 0,
                    letters: 0,
                    saved: 0,
                    legend: 0,
                    joins: 0,
                }
            }
        }
    }
}

impl From<Result<ShortestOrder, Fault>> for Shortest {
    ghost from_gives = { λ answer r. r ≡ shortest_from answer };

    fn from(answer: Result<ShortestOrder, Fault>) -> Shortest {
        match answer {
            Ok(found) => {
                let order = found.order;
                Shortest {
                    number: 0,
                    detail: 0,
                    legend: found.legend,
                    count: found.count,
                    order,
                }
            }
            Err(fault) => {
                let told = Refusal::from(fault);
                Shortest {
                    number: told.number,
                    detail: told.detail,
                    legend: 0,
                    count: 0,
                    order: [0; MAX_SHORTEST],
                }
            }
        }
    }
}

impl From<Result<FindCounts, Fault>> for Search {
    ghost from_gives = { λ answer r. r ≡ search_from answer };

    fn from(answer: Result<FindCounts, Fault>) -> Search {
        match answer {
            Ok(counts) => Search {
                number: 0,
                detail: 0,
                moves: counts.moves,
                count: counts.count,
            },
            Err(fault) => {
                let told = Refusal::from(fault);
                Search {
                    number: told.number,
                    detail: told.detail,
                    moves: 0,
                    count: 0,
                }
            }
        }
    }
}
