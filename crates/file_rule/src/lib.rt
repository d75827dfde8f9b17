// Tray files: limits, and the byte that ends a line. Definitions stand in specs/; functions in file_line, file_check and file_read.
#![tactic(auto)]

pub const MAX_FILE: usize = 16384;

pub const ENDS_NEED: usize = 1700;

pub const LF: u8 = b'\n';

pub const BLANK: u8 = b' ';

// What is wrong with a line: its layout, its slip's number, its length.
#[derive(Clone, Copy, Debug, PartialEq, Eq)]
pub enum LineFault {
    Layout,
    Number,
    Length,
}

// A line: what is wrong with it, if anything is, and where the next line starts.
#[derive(Clone, Copy)]
pub struct Line {
    pub checked: Result<(), LineFault>,
    pub next: usize,
}
// A reader remembers the file and how far it has come.
#[derive(Clone, Copy)]
pub struct Reader<'a> {
    pub file: &'a [u8],
    pub at: usize,
}
