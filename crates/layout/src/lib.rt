// Where the tables of the automaton and of composing stand in the lent work area, one after another: a base is the base before it and the cells of the
// table there. specs/Layout.antt says what each holds.
#![tactic(auto)]

use answers::{JOIN_CELLS, PLACE_CELLS, RECORD_CELLS};
use trays::{MAX_LETTERS, MAX_SLIPS};

// 7: this many cells are asked for.
pub const WORK_NEED: usize = 32000;

// How many nodes there are at most: the root, and one for each letter.
const MAX_NODES: usize = MAX_LETTERS + 1;

pub const MEMBERS: usize = 0;

pub const ORDER: usize = MEMBERS + MAX_SLIPS;

pub const COMMON: usize = ORDER + MAX_SLIPS;

pub const LEVEL: usize = COMMON + MAX_SLIPS;

// Enough where a slip has at most 40 letters.
const LEVEL_CELLS: usize = 42;

pub const AT: usize = LEVEL + LEVEL_CELLS;

pub const OWN: usize = AT + MAX_LETTERS;

pub const KID: usize = OWN + MAX_NODES;

pub const NEAR: usize = KID + MAX_NODES + 1;

pub const NEAR_NODES: usize = 28;

pub const NEAR_LETTERS: usize = 45;

pub const FIRST_SIGN: u8 = 46;

pub const LAST_SIGN: u8 = 90;

pub const FAIL: usize = NEAR + NEAR_NODES * NEAR_LETTERS;

pub const HEAD: usize = FAIL + MAX_NODES;

pub const TWIN: usize = HEAD + MAX_NODES;

pub const MARK: usize = TWIN + MAX_SLIPS + 1;

pub const KEPT: usize = MARK + MAX_NODES;

pub const STARTS: usize = KEPT + MAX_SLIPS;

pub const STARTS_NEXT: usize = STARTS + MAX_NODES;

pub const ENDS: usize = STARTS_NEXT + MAX_LETTERS;

pub const ENDS_NEXT: usize = ENDS + MAX_NODES;

pub const JOINS: usize = ENDS_NEXT + MAX_LETTERS;

// How many numbers the joins have, at most one join for each slip.
pub const ALL_JOINS: usize = MAX_SLIPS * JOIN_CELLS;

pub const PLACES: usize = JOINS + ALL_JOINS;

// How many numbers the places have, one place for each slip.
pub const ALL_PLACES: usize = MAX_SLIPS * PLACE_CELLS;

pub const OUT: usize = PLACES + ALL_PLACES;

pub const TALLY: usize = OUT + MAX_NODES;

// Where a scan is kept in the work area, after the tables.
pub const SCAN: usize = TALLY + MAX_NODES;

// Where the search for the shortest legend keeps its tables: after KEPT, over tables that it does not fill.
pub const SEEK: usize = STARTS;

// The joins of one side, their slips by the numbers that they have in the whole tray; over SCAN, since composing keeps no scan.
pub const NAMED: usize = SCAN;

// The records of places of one side.
pub const RECORDS: usize = NAMED + ALL_JOINS;

// How many numbers the records have, one record for each slip.
pub const ALL_RECORDS: usize = MAX_SLIPS * RECORD_CELLS;
