// Composing a tray: over lent numbers, over records, and its slips and pairs by themselves.
ghost use Rattle.std.specs.Prelude.{◌<◌, ◌^◌};

use crate::rooms::{LEGEND, Rooms, WORK};
use answers::{Composed, JOIN_CELLS, Join, Place, RECORD_CELLS};
use trays::MAX_SLIPS;
use trials_lines::fields::Fields;
use trials_lines::room::{BYTE_MARK, CELL_MARK, part};
use trials_lines::tray::Tray;
use trials_lines::writing::{bracketed, put, refusal};
use trials_lines::{sums, writing};

// More numbers than joins and places have.
const JOINS: usize = 620;

const PLACES: usize = 210 * RECORD_CELLS;

// How many numbers are lent for lists of as many records as a tray has slips at most, and of two.
const ALL_JOINS: u32 = (MAX_SLIPS * JOIN_CELLS) as u32;

const ALL_PLACES: u32 = (MAX_SLIPS * RECORD_CELLS) as u32;

const TWO_JOINS: u32 = (2 * JOIN_CELLS) as u32;

const TWO_PLACES: u32 = (2 * RECORD_CELLS) as u32;

// What a record holds before the call.
const JOIN_MARK: Join = Join {
    left: CELL_MARK,
    right: CELL_MARK,
    overlap: CELL_MARK,
};

const PLACE_MARK: Place = Place {
    slip: CELL_MARK,
    place: CELL_MARK,
    kept: false,
    compared: CELL_MARK,
    side: BYTE_MARK,
};

// How many numbers are lent for joins and for places.
#[derive(Clone, Copy)]
struct Lists {
    joins: u32,
    places: u32,
}

fn answer(a: Composed) {
    refusal(a.number, a.detail);
    put(a.slips);
    put(a.kept);
    put(a.letters);
    put(a.saved);
    put(a.legend);
    put(a.joins);
}

// The sums of what was lent.
fn lent(number: u8, legend: &[u8], joins: u32, places: u32, work: &[u16]) {
    put(sums::of(legend));
    put(joins);
    put(places);
    writing::work(number, work);
}

fn try_flat(tray: Tray, rooms: Rooms, lists: Lists) {
    let mut work = [CELL_MARK; WORK];
    let mut legend = [BYTE_MARK; LEGEND];
    let mut joins = [CELL_MARK; JOINS];
    let mut places = [CELL_MARK; PLACES];
    let work = part(&mut work, rooms.work);
    let legend = part(&mut legend, rooms.legend);
    let joins = part(&mut joins, lists.joins);
    let places = part(&mut places, lists.places);
    let a = Composed::from(flat_calls::compose_flat(
        tray.letters,
        tray.ends,
        tray.sides,
        rooms.settings,
        work,
        legend,
        joins,
        places,
    ));
    io::write_all(1, b"C");
    answer(a);
    bracketed(part(legend, a.legend));
    lent(a.number, legend, sums::of(joins), sums::of(places), work);
}

// Over lists of this many records.
fn try_records<const N: usize>(tray: Tray, rooms: Rooms)
    requires { N < 2 ^ 32 }
{
    let mut work = [CELL_MARK; WORK];
    let mut legend = [BYTE_MARK; LEGEND];
    let work = part(&mut work, rooms.work);
    let legend = part(&mut legend, rooms.legend);
    let made = trials_records::compose(
        tray.letters,
        tray.ends,
        tray.sides,
        rooms.settings,
        work,
        legend,
        [JOIN_MARK; N],
        [PLACE_MARK; N],
    );
    let a = Composed::from(made.answer);
    io::write_all(1, b" R");
    answer(a);
    lent(
        a.number,
        legend,
        sums::of(&made.joins),
        sums::of(&made.places),
        work,
    );
}

// Over lent numbers, and over records too where there is room for lists of all of them, or of two.
fn try_tray(tray: Tray, rooms: Rooms, lists: Lists) {
    try_flat(tray, rooms, lists);
    match (lists.joins, lists.places) {
        (ALL_JOINS, ALL_PLACES) => try_records::<MAX_SLIPS>(tray, rooms),
        (TWO_JOINS, TWO_PLACES) => try_records::<2>(tray, rooms),
        _ => {}
    }
    trials_ask::pairs::show(tray, rooms.settings.least);
}

// The side named and the list of sides come first, if there are any.
pub fn row(mut fields: Fields, sided: bool) {
    let side = fields.side(sided);
    let sides = fields.sides(sided);
    let rooms = Rooms::of(&mut fields, side);
    let lists = Lists {
        joins: fields.number(),
        places: fields.number(),
    };
    let coded = fields.tray(sides);
    try_tray(coded.lent(), rooms, lists);
}
