// Every slip of a small tray, and every pair of its slips with their sides and a least overlap; with slip 0 and the one above the count.
use crate::calls;
use trials_lines::sums::{self, Mix};
use trials_lines::tray::Tray;
use trials_lines::writing::put;

// All pairs are asked for of a tray of at most this many slips.
const FEW: usize = 12;

fn pairs(tray: Tray, above: u32, least: u32) -> u32 {
    let mut sum = 0;
    for i in 0..above {
        for j in 0..above {
            sum = sums::go_on(sum, &calls::pair(tray, i, j, least));
        }
    }
    sum
}

fn slip(sum: u32, tray: Tray, i: u32) -> u32 {
    let (refused, letters) = calls::slip(tray, i);
    let size = u32::try_from(letters.len()).unwrap_or(u32::MAX);
    let answered = size.mixed(sums::go_on(sum, &refused));
    sums::go_on(answered, letters)
}

fn slips(tray: Tray, above: u32) -> u32 {
    (0..above).fold(0, |sum, i| slip(sum, tray, i))
}

// Writes the sums for a tray of few slips, and nothing for any other.
pub fn show(tray: Tray, least: u32) {
    if tray.ends.len() <= FEW {
        let above = tray.ends.len() as u32 + 2;
        io::write_all(1, b" P");
        put(pairs(tray, above, least));
        put(slips(tray, above));
    }
}
