// Asking of a tray: whether it is accepted, one slip, and one pair. Sides are handed in for the pair alone.
use crate::calls;
use trays::Refusal;
use trials_lines::fields::Fields;
use trials_lines::tray::Tray;
use trials_lines::writing::{bracketed, put_all, refusal};

// The least overlap, and the two slips of a pair, of which the left one is asked for by itself too.
#[derive(Clone, Copy)]
struct Asked {
    least: u32,
    left: u32,
    right: u32,
}

fn check(tray: Tray) {
    let checked = tray_check::check_tray(tray.letters, tray.ends);
    let answer = Refusal::from(checked.map(|_| ()));
    refusal(answer.number, answer.detail);
}

fn slip(tray: Tray, i: u32) {
    let (refused, letters) = calls::slip(tray, i);
    put_all(&refused);
    bracketed(letters);
}

fn try_tray(tray: Tray, asked: Asked) {
    io::write_all(1, b"A");
    check(tray);
    io::write_all(1, b";");
    slip(tray, asked.left);
    io::write_all(1, b";");
    put_all(&calls::pair(tray, asked.left, asked.right, asked.least));
}

// The list of sides comes first, if there is one.
pub fn row(mut fields: Fields, sided: bool) {
    let sides = fields.sides(sided);
    let asked = Asked {
        least: fields.number(),
        left: fields.number(),
        right: fields.number(),
    };
    let coded = fields.tray(sides);
    try_tray(coded.lent(), asked);
}

// Writes a byte if a tray of that one letter is accepted.
fn sign(byte: u8) {
    let one = [byte];
    if tray_check::check_tray(&one, &[1]).is_ok() {
        io::write_all(1, &one);
    }
}

// The bytes that are accepted as letters.
pub fn signs() {
    io::write_all(1, b"S [");
    for byte in 0..=255 {
        sign(byte);
    }
    io::write_all(1, b"]");
}
