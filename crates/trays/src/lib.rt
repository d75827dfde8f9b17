// Trays: limits, settings, the overlap strings of stops alone, and what calls on a tray answer. The calls stand in tray_check, slips and tray_ask.
#![tactic(auto)]

ghost use Rattle.std.specs.Prelude.{◌≡◌};
ghost use Rattle.trays.specs.Aside.{not_stops};

pub use fault::Fault;
pub use tray::Tray;

mod fault;
mod numbers;
mod tray;

pub const MAX_SLIPS: usize = 200;

pub const MAX_SLIP: usize = 32;

pub const MAX_LETTERS: usize = 2000;

// 12: a text, or a typed beginning, has at most this many letters.
pub const MAX_TEXT: usize = 2000;

// 20: the shortest legend is sought for at most this many kept slips.
pub const MAX_SHORTEST: usize = 10;

// 21: the least overlap is at most this many letters.
pub const MAX_LEAST: u32 = 32;

// The full stop, the lowest of the 27 signs.
pub const STOP: u8 = 46;

// The side of a slip that is marked with none: a blank.
pub const BLANK_SIDE: u8 = 32;

// The side O, the obverse of a coin.
pub const OBVERSE: u8 = 79;

// The side R, the reverse of a coin.
pub const REVERSE: u8 = 82;

// What the person composing sets: an overlap of fewer letters than the least counts as empty, and the slips of the side named take part.
#[derive(Clone, Copy)]
pub struct Settings {
    pub least: u32,
    pub side: u8,
}
// A refusal of the rules' table as numbers, for sheets and other languages: its number and detail, or 0 and 0.
#[derive(Clone, Copy)]
pub struct Refusal {
    pub number: u8,
    pub detail: u32,
}
// The same with the overlap of a pair of slips, 0 letters where it is refused.
#[derive(Clone, Copy)]
pub struct Pair {
    pub number: u8,
    pub detail: u32,
    pub letters: u32,
}
// The same with where a slip starts and ends in the letters of its tray, or a stretch in the index; 0 and 0 where it is refused.
#[derive(Clone, Copy)]
pub struct Located {
    pub number: u8,
    pub detail: u32,
    pub start: u32,
    pub end: u32,
}
// The same with the size of a tray that was written, 0 and 0 where it is refused.
#[derive(Clone, Copy)]
pub struct Written {
    pub number: u8,
    pub detail: u32,
    pub letters: u32,
    pub slips: u32,
}
// Where a slip starts and ends in the letters of its tray, or a stretch in the index.
#[derive(Clone, Copy, Debug, PartialEq, Eq)]
pub struct Span {
    pub start: usize,
    pub end: usize,
}
// The same for callers in other languages.
#[derive(Clone, Copy, Debug, PartialEq, Eq)]
pub struct Location {
    pub start: u32,
    pub end: u32,
}
// How large a tray is that was written: its letters and slips; there is a side for each slip.
#[derive(Clone, Copy, Debug, PartialEq, Eq)]
pub struct TraySize {
    pub letters: u32,
    pub slips: u32,
}

// Whether some letter of a string is no stop, so that it counts as an overlap where it is long enough. It looks from the last letter on; neither end is
// better in itself, but the other one moved code elsewhere (docs/DECISIONS.md, *Code*).
pub fn not_stops(x: &[u8]) -> bool
    ensures { result ≡ not_stops x.now }
{
    x.iter().rev().any(|b| *b != STOP)
}
