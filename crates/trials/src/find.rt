// Finding a tray's slips in a text: over lent numbers, and over records.
ghost use Rattle.std.specs.Prelude.{◌<◌, ◌^◌};

use crate::rooms::WORK;
use answers::{Found, Search};
use arrayvec::ArrayVec;
use trays::MAX_TEXT;
use trials_lines::fields::Fields;
use trials_lines::room::{CELL_MARK, part};
use trials_lines::tray::{LETTERS, Tray};
use trials_lines::writing::{put, refusal};
use trials_lines::{sums, writing};

// More numbers than a list has in a case.
const LIST: usize = 16100;

// How many numbers are lent where finding is tried over as many records as a text has letters at most, and over two.
const ALL_LIST: u32 = 16000;

const TWO_LIST: u32 = 4;

// What a number of the list, and a record, hold before the call.
const NUMBER_MARK: u32 = 77777777;

const FOUND_MARK: Found = Found {
    end: NUMBER_MARK,
    slip: CELL_MARK,
};

// How many cells and numbers are lent.
#[derive(Clone, Copy)]
struct Rooms {
    work: u32,
    list: u32,
}

// The answer, and the sums of what was lent.
fn answer(a: Search, list: u32, work: &[u16]) {
    refusal(a.number, a.detail);
    put(a.moves);
    put(a.count);
    put(list);
    writing::work(a.number, work);
}

fn try_flat(tray: Tray, text: &[u8], rooms: Rooms) {
    let mut work = [CELL_MARK; WORK];
    let mut list = [NUMBER_MARK; LIST];
    let work = part(&mut work, rooms.work);
    let list = part(&mut list, rooms.list);
    let a = flat_calls::find_flat(tray.letters, tray.ends, text, work, list);
    io::write_all(1, b"F");
    answer(Search::from(a), sums::of(list), work);
}

// Over a list of this many records.
fn try_records<const N: usize>(tray: Tray, text: &[u8], rooms: Rooms)
    requires { N < 2 ^ 32 }
{
    let mut work = [CELL_MARK; WORK];
    let work = part(&mut work, rooms.work);
    let made = trials_records::find(tray.letters, tray.ends, text, work, [FOUND_MARK; N]);
    io::write_all(1, b" R");
    answer(Search::from(made.answer), sums::of(&made.found), work);
}

fn try_text(tray: Tray, text: &[u8], rooms: Rooms) {
    try_flat(tray, text, rooms);
    match rooms.list {
        ALL_LIST => try_records::<MAX_TEXT>(tray, text, rooms),
        TWO_LIST => try_records::<2>(tray, text, rooms),
        _ => {}
    }
}

// All slips are blank.
pub fn row(mut fields: Fields) {
    let rooms = Rooms {
        work: fields.number(),
        list: fields.number(),
    };
    let text: ArrayVec<u8, LETTERS> = fields.text();
    let coded = fields.tray(None);
    try_text(coded.lent(), text.as_slice(), rooms);
}
