// A tray written into lent letters, ends and sides.
ghost use Rattle.std.specs.Prelude.{◌<◌, ◌^◌};

use trays::{Fault, TraySize, Written};
use trials_lines::room::{BYTE_MARK, CELL_MARK, part};
use trials_lines::sums;
use trials_lines::writing::{put, refusal};

// How many letters, ends and sides are lent.
#[derive(Clone, Copy)]
pub struct Rooms {
    pub letters: u32,
    pub ends: u32,
    pub sides: u32,
}

// Lends room for a tray to a call, at most this many letters and slips, and writes its answer, and the sums of what was lent.
pub fn show<const LETTERS: usize, const SLIPS: usize, F>(tag: &[u8], rooms: Rooms, call: F)
where
    F: FnOnce(&mut [u8], &mut [u16], &mut [u8]) -> Result<TraySize, Fault>,
    requires can_call { F.IsAlwaysCallable call }
    requires sizes { (LETTERS < 2 ^ 32) × (SLIPS < 2 ^ 32) }
{
    let mut letters = [BYTE_MARK; LETTERS];
    let mut ends = [CELL_MARK; SLIPS];
    let mut sides = [BYTE_MARK; SLIPS];
    let letters = part(&mut letters, rooms.letters);
    let ends = part(&mut ends, rooms.ends);
    let sides = part(&mut sides, rooms.sides);
    let a = Written::from(call(letters, ends, sides));
    io::write_all(1, tag);
    refusal(a.number, a.detail);
    put(a.letters);
    put(a.slips);
    put(sums::of(letters));
    put(sums::of(ends));
    put(sums::of(sides));
}
