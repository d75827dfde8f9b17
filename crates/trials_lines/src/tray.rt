// Trays of the lines: as they are coded, and as they are lent.
use arrayvec::ArrayVec;
use trays::BLANK_SIDE;

// More letters than a tray, a text or what is typed has in a case, and more slips.
pub const LETTERS: usize = 2300;

pub const SLIPS: usize = 300;

// A tray, with the sides of its slips.
#[derive(Clone, Copy)]
pub struct Tray<'a> {
    pub letters: &'a [u8],
    pub ends: &'a [u16],
    pub sides: &'a [u8],
}

// A tray as a line codes it.
#[derive(Drop)]
pub struct Coded {
    pub letters: ArrayVec<u8, LETTERS>,
    pub ends: ArrayVec<u16, SLIPS>,
    pub sides: ArrayVec<u8, SLIPS>,
}

impl Coded {
    pub fn lent(&self) -> Tray<'_> {
        Tray {
            letters: self.letters.as_slice(),
            ends: self.ends.as_slice(),
            sides: self.sides.as_slice(),
        }
    }
}

// So many blank sides.
pub fn blanks(slips: usize) -> ArrayVec<u8, SLIPS> {
    let mut sides = ArrayVec::from([BLANK_SIDE; SLIPS]);
    sides.truncate(slips);
    sides
}
