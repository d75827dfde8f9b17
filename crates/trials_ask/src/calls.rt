// What the calls answer of a slip and of a pair, as numbers.
use trays::{Pair, Refusal};
use trials_lines::tray::Tray;

// Number and detail, and the letters of slip `i`, none where it is refused.
pub fn slip<'a>(tray: Tray<'a>, i: u32) -> ([u32; 2], &'a [u8]) {
    let asked = tray_ask::slip_letters(tray.letters, tray.ends, i);
    let answer = Refusal::from(asked.map(|_| ()));
    (
        [u32::from(answer.number), answer.detail],
        asked.unwrap_or(&[]),
    )
}

// Number and detail, and how many letters slips `i` and `j` overlap.
pub fn pair(tray: Tray, i: u32, j: u32, least: u32) -> [u32; 3] {
    let asked = tray_ask::pair_overlap(tray.letters, tray.ends, tray.sides, i, j, least);
    let found = Pair::from(asked);
    [u32::from(found.number), found.detail, found.letters]
}
