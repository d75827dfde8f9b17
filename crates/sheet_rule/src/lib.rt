// How much room the sheets need. What stands on them: specs/Sheets.antt; the functions that write them: sheet_lines.
#![tactic(auto)]

// A sheet of one side has at most this many bytes.
pub const SHEET_ROOM: usize = 7818;

// `compose` prints at most this many: a sheet for each of the three sides.
pub const COMPOSE_ROOM: usize = 3 * SHEET_ROOM;

// `find` lists at most this many occurrences.
pub const MAX_FOUND: usize = 8000;

// A sheet of `find` has at most this many bytes.
pub const FIND_ROOM: usize = 72019;
