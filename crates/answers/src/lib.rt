// What the calls answer, and what they leave in the lent buffers, for every input.
#![tactic(auto)]

use trays::MAX_SHORTEST;

// 12: a text has at most this many letters.
pub use trays::MAX_TEXT;

mod numbers;

// The counts of what was composed: slips, kept slips, kept letters, saved letters, legend letters, joins.
#[derive(Clone, Copy, Debug, PartialEq, Eq)]
pub struct ComposeCounts {
    pub slips: u32,
    pub kept: u32,
    pub letters: u32,
    pub saved: u32,
    pub legend: u32,
    pub joins: u32,
}

// The answer of composing in numbers: number and detail of the refusal, or 0 and 0 and the counts.
#[derive(Clone, Copy)]
pub struct Composed {
    pub number: u8,
    pub detail: u32,
    pub slips: u32,
    pub kept: u32,
    pub letters: u32,
    pub saved: u32,
    pub legend: u32,
    pub joins: u32,
}

// How much the lent lists take: this many joins, and this many records of places.
#[derive(Clone, Copy, Debug, PartialEq, Eq)]
pub struct Room {
    pub joins: usize,
    pub places: usize,
}

// A join: its left slip, its right slip, and how many letters they overlap.
#[derive(Clone, Copy, Debug, PartialEq, Eq)]
pub struct Join {
    pub left: u16,
    pub right: u16,
    pub overlap: u16,
}

// A slip, its place in the legend, whether it was kept, how many letters were compared to find the place, 0 if kept, and its side.
#[derive(Clone, Copy, Debug, PartialEq, Eq)]
pub struct Place {
    pub slip: u16,
    pub place: u16,
    pub kept: bool,
    pub compared: u16,
    pub side: u8,
}

// How many numbers a join has where it is told in numbers.
pub const JOIN_CELLS: usize = 3;

// How many numbers a place has where it is staged, without its slip's number and side.
pub const PLACE_CELLS: usize = 3;

// How many numbers a record of places has where it is told in numbers.
pub const RECORD_CELLS: usize = 5;

// The shortest legend: its letters, how many slips are kept, and their order, 0 past the count.
#[derive(Clone, Copy)]
pub struct ShortestOrder {
    pub legend: u32,
    pub count: u32,
    pub order: [u16; MAX_SHORTEST],
}

// The same in numbers: number and detail of the refusal, or 0 and 0 and the order.
#[derive(Clone, Copy)]
pub struct Shortest {
    pub number: u8,
    pub detail: u32,
    pub legend: u32,
    pub count: u32,
    pub order: [u16; MAX_SHORTEST],
}

// An occurrence: the place of its last letter, from 1, and its slip.
#[derive(Clone, Copy, Debug, PartialEq, Eq)]
pub struct Found {
    pub end: u32,
    pub slip: u16,
}

// What was found in a text: the moves, and how many occurrences there are.
#[derive(Clone, Copy, Debug, PartialEq, Eq)]
pub struct FindCounts {
    pub moves: u32,
    pub count: u32,
}

// The same in numbers: number and detail of the refusal, or 0 and 0 and the counts.
#[derive(Clone, Copy)]
pub struct Search {
    pub number: u8,
    pub detail: u32,
    pub moves: u32,
    pub count: u32,
}
