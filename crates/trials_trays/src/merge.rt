// Two trays merged into lent letters, ends and sides.
use crate::written::{Rooms, show};
use trials_lines::fields::Fields;
use trials_lines::tray::{SLIPS, Tray};

// More letters than two trays that merge have.
const LETTERS: usize = 2100;

// How many sides are lent where all slips are blank.
const BLANK_ROOM: u32 = 200;

fn try_trays(first: Tray, second: Tray, rooms: Rooms) {
    show::<LETTERS, SLIPS, _>(b"M", rooms, |letters, ends, sides| {
        merge_trays::merge_trays(
            first.letters,
            first.ends,
            first.sides,
            second.letters,
            second.ends,
            second.sides,
            letters,
            ends,
            sides,
        )
    });
}

// The lists of sides of both trays, and how many sides are lent, come first, if there are any.
pub fn row(mut fields: Fields, sided: bool) {
    let sides1 = fields.sides(sided);
    let sides2 = fields.sides(sided);
    let sides_room = if sided { fields.number() } else { BLANK_ROOM };
    let rooms = Rooms {
        letters: fields.number(),
        ends: fields.number(),
        sides: sides_room,
    };
    let first = fields.part(b';').tray(sides1);
    let second = fields.tray(sides2);
    try_trays(first.lent(), second.lent(), rooms);
}
