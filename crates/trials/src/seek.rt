// The shortest legend of a tray.
use crate::rooms::{LEGEND, Rooms, WORK};
use answers::Shortest;
use trials_lines::fields::Fields;
use trials_lines::room::{BYTE_MARK, CELL_MARK, part};
use trials_lines::tray::Tray;
use trials_lines::writing::{bracketed, put, put_all, refusal};
use trials_lines::{sums, writing};

fn answer(a: Shortest) {
    io::write_all(1, b"L");
    refusal(a.number, a.detail);
    put(a.legend);
    put(a.count);
    put_all(&a.order);
}

fn try_tray(tray: Tray, rooms: Rooms) {
    let mut work = [CELL_MARK; WORK];
    let mut legend = [BYTE_MARK; LEGEND];
    let work = part(&mut work, rooms.work);
    let legend = part(&mut legend, rooms.legend);
    let a = Shortest::from(shortest_legend::shortest_legend(
        tray.letters,
        tray.ends,
        tray.sides,
        rooms.settings,
        work,
        legend,
    ));
    answer(a);
    bracketed(part(legend, a.legend));
    put(sums::of(legend));
    writing::work(a.number, work);
}

// The side named and the list of sides come first, if there are any.
pub fn row(mut fields: Fields, sided: bool) {
    let side = fields.side(sided);
    let sides = fields.sides(sided);
    let rooms = Rooms::of(&mut fields, side);
    let coded = fields.tray(sides);
    try_tray(coded.lent(), rooms);
}
