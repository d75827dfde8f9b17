// The cases of `trials` about the index of a tray: it is built in a lent list, and the slips that start with typed letters are asked for with a list that
// is handed in as the index.
#![tactic(auto)]

use arrayvec::ArrayVec;
use trays::{Located, Refusal};
use trials_lines::fields::Fields;
use trials_lines::room::{CELL_MARK, part};
use trials_lines::sums;
use trials_lines::tray::{LETTERS, SLIPS, Tray};
use trials_lines::writing::{put, put_all, refusal};

// The index in a lent list, and the sum of the whole list.
fn build(tray: Tray, room: u32) {
    let mut index = [CELL_MARK; SLIPS];
    let index = part(&mut index, room);
    let built = tray_index::build_index(tray.letters, tray.ends, tray.sides, index);
    let answer = Refusal::from(built);
    refusal(answer.number, answer.detail);
    put(sums::of(index));
}

// Writes the entries of a list.
fn entries(list: &[u16]) {
    io::write_all(1, b" [");
    put_all(list);
    io::write_all(1, b"]");
}

// The stretch itself, empty where it is refused.
fn stretch(tray: Tray, index: &[u16], typed: &[u8]) {
    let found = tray_index::beginning(tray.letters, tray.ends, tray.sides, index, typed);
    let answer = Refusal::from(found.map(|_| ()));
    refusal(answer.number, answer.detail);
    entries(found.unwrap_or(&[]));
}

// Where the stretch starts and ends.
fn place(tray: Tray, index: &[u16], typed: &[u8]) {
    let answer = tray_index::beginning_place(tray.letters, tray.ends, tray.sides, index, typed);
    let found = Located::from(answer);
    refusal(found.number, found.detail);
    put(found.start);
    put(found.end);
}

fn try_tray(tray: Tray, room: u32, index: &[u16], typed: &[u8]) {
    io::write_all(1, b"I");
    build(tray, room);
    io::write_all(1, b";");
    stretch(tray, index, typed);
    io::write_all(1, b";");
    place(tray, index, typed);
}

// The list of sides comes first, if there is one.
pub fn row(mut fields: Fields, sided: bool) {
    let sides = fields.sides(sided);
    let room = fields.number();
    let typed: ArrayVec<u8, LETTERS> = fields.text();
    let index: ArrayVec<u16, SLIPS> = fields.list();
    let coded = fields.tray(sides);
    try_tray(coded.lent(), room, index.as_slice(), typed.as_slice());
}
