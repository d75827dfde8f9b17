// Slips chosen out of a tray: those of a side; chosen slips written as a tray of their own, and the numbers that they had.
#![tactic(auto)]

ghost use Rattle.std.specs.Prelude.{◌≡◌, ◌≤◌, ◌<◌, length};
ghost use Rattle.words.specs.Lists.{entry};
ghost use Rattle.trays.specs.Limits.{max_slips};
ghost use Rattle.tray_cut.specs.Choosing.{SideSlips, CanWrite, SlipsWritten};

use trays::{MAX_SLIPS, Tray};

// Slips of a tray: how many, and their numbers, 0 past the count.
#[derive(Clone, Copy)]
pub struct Chosen {
    pub count: usize,
    pub slips: [u16; MAX_SLIPS],
}

// The slips of a side, ascending.
pub fn side_slips(sides: &[u8], side: u8) -> Chosen
    requires { length sides.now ≤ max_slips }
    ensures { SideSlips sides.now side result }
{
    let mut slips = [0u16; MAX_SLIPS];
    let mut count: usize = 0;
    for (i, own) in sides.iter().enumerate() {
        if *own == side {
            slips[count] = (i + 1) as u16;
            count += 1;
        }
    }
    Chosen { count, slips }
}

// Writes the slips with these numbers from the start of both buffers, where `here` letters come before them: the letters written.
pub fn write_slips(
    tray: Tray<'_>,
    slips: &[u16],
    here: usize,
    into: &mut [u8],
    bounds: &mut [u16],
) -> usize
    requires { CanWrite tray.letters.now tray.ends.now slips.now here (length into.old) (length bounds.old) }
    ensures { SlipsWritten tray.entry.letters.now tray.entry.ends.now slips.now here into.old into.new
        bounds.old bounds.new result }
{
    let mut at: usize = 0;
    for (i, slip) in slips.iter().enumerate() {
        let part = slips::slip_part(tray, usize::from(*slip));
        at += tables::copy(part, &mut into[at..]);
        bounds[i] = (here + at) as u16;
    }
    at
}

// The number that slip `i` of a tray cut out of another has in that other tray, where `slips` lists these numbers.
pub fn number_of(slips: &[u16], i: usize) -> usize
    requires { (1 ≤ i) × (i ≤ length slips.now) }
    ensures { (result ≡ entry slips.now i) × (result < 65536) }
{
    usize::from(slips[i - 1])
}
