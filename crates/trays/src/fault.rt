// Why a call is refused: a variant for each number of the rules' table. A variant that names a detail has it.
ghost use Rattle.std.specs.Prelude.{◌≡◌};
ghost use Rattle.trays.specs.Told.{told};

use crate::Refusal;

#[derive(Clone, Copy, Debug, PartialEq, Eq)]
pub enum Fault {
    TooManySlips,
    EmptySlip(u32),
    SlipTooLong(u32),
    TooManyLetters,
    LastEndMismatch,
    BadSlipByte(u32),
    WorkAreaTooSmall,
    LegendBufferTooSmall(u32),
    JoinOrPlaceListTooSmall(u32),
    NoSuchSlip(u32),
    SameSlipTwice(u32),
    TextTooLong,
    BadTextByte(u32),
    FoundListTooSmall(u32),
    TrayBuffersTooSmall,
    FileTooLong,
    BadLine(u32),
    WrongSlipNumber(u32),
    WrongLength(u32),
    TooManyKeptSlips,
    LeastOverlapOutOfRange,
    BadSide,
    OtherIndex,
}

// The number of a fault in the rules' table, and its detail, 0 where none is named.
impl From<Fault> for Refusal {
    ghost from_gives = { λ f r. r ≡ told f };

    fn from(fault: Fault) -> Refusal {
        let (number, detail) = match fault {
            Fault::TooManySlips => (1, 0),
            Fault::EmptySlip(slip) => (2, slip),
            Fault::SlipTooLong(slip) => (3, slip),
            Fault::TooManyLetters => (4, 0),
            Fault::LastEndMismatch => (5, 0),
            Fault::BadSlipByte(slip) => (6, slip),
            Fault::WorkAreaTooSmall => (7, 0),
            Fault::LegendBufferTooSmall(letters) => (8, letters),
            Fault::JoinOrPlaceListTooSmall(joins) => (9, joins),
            Fault::NoSuchSlip(slip) => (10, slip),
            Fault::SameSlipTwice(slip) => (11, slip),
            Fault::TextTooLong => (12, 0),
            Fault::BadTextByte(place) => (13, place),
            Fault::FoundListTooSmall(occurrences) => (14, occurrences),
            Fault::TrayBuffersTooSmall => (15, 0),
            Fault::FileTooLong => (16, 0),
            Fault::BadLine(line) => (17, line),
            Fault::WrongSlipNumber(line) => (18, line),
            Fault::WrongLength(line) => (19, line),
            Fault::TooManyKeptSlips => (20, 0),
            Fault::LeastOverlapOutOfRange => (21, 0),
            Fault::BadSide => (22, 0),
            Fault::OtherIndex => (23, 0),
        };
        Refusal { number, detail }
    }
}
