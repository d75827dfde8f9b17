// Reading a tray file into lent letters, ends and sides.
use crate::written::{Rooms, show};
use arrayvec::ArrayVec;
use trials_lines::fields::Fields;

// More letters, slips and bytes than a tray file has.
const LETTERS: usize = 16500;

const SLIPS: usize = 1800;

const BYTES: usize = 16600;

pub fn row(mut fields: Fields) {
    let rooms = Rooms {
        letters: fields.number(),
        ends: fields.number(),
        sides: fields.number(),
    };
    let file: ArrayVec<u8, BYTES> = fields.text();
    let file = file.as_slice();
    show::<LETTERS, SLIPS, _>(b"T", rooms, |letters, ends, sides| {
        file_read::read_tray(file, letters, ends, sides)
    });
}
