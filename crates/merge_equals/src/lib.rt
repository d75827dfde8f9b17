// Slips of equal side with equal letters, by comparing them.
#![tactic(auto)]

ghost use Rattle.std.specs.Prelude.{◌≡◌, ◌∷◌, ◌≤◌, length, take};
ghost use Rattle.words.specs.Lists.{any};
ghost use Rattle.words.specs.Words as W;
ghost use Rattle.trays.specs.Slips.{slips_of};
ghost use Rattle.merge_rule.specs.Merging.{labelled};
ghost use Rattle.merge_equals.specs.Equals.{is_new, NewSlips};

pub use sided::Sided;
use slips::slip_part;
use trays::MAX_SLIPS;

mod sided;

// The slips of a second tray that equal none before them: how many, the letters that they have together, and their numbers, 0 past the count.
#[derive(Clone, Copy)]
pub struct Fresh {
    pub count: usize,
    pub letters: usize,
    pub slips: [u16; MAX_SLIPS],
}

// Whether two slips are equal: of equal side, and with the same letters.
fn same_slip(side1: u8, letters1: &[u8], side2: u8, letters2: &[u8]) -> bool
    ensures { result ≡ W.same (side1 ∷ letters1.now) (side2 ∷ letters2.now) }
{
    side1 == side2 && letters1 == letters2
}

// Whether one of the first `n` slips of a tray is of this side and has the letters `x`.
fn equal_among(among: Sided<'_>, n: usize, side: u8, x: &[u8]) -> bool
    requires { n ≤ length among.tray.ends.now }
    ensures { result ≡ any (W.same (side ∷ x.now))
        (take n (labelled (slips_of among.entry.tray.letters.now among.entry.tray.ends.now) among.entry.sides.now)) }
{
    for i in 0..n {
        let own = among.sides[i];
        let part = slip_part(among.tray, i + 1);
        if same_slip(side, x, own, part) {
            return true;
        }
    }
    false
}

// Whether slip `slip` of the second tray equals none of the first tray and none before it in its own.
fn is_new(first: Sided<'_>, second: Sided<'_>, slip: usize) -> bool
    requires { (1 ≤ slip) × (slip ≤ length second.tray.ends.now) }
    ensures { result ≡ is_new
        (labelled (slips_of first.entry.tray.letters.now first.entry.tray.ends.now) first.entry.sides.now)
        (labelled (slips_of second.entry.tray.letters.now second.entry.tray.ends.now) second.entry.sides.now)
        slip }
{
    let side = second.sides[slip - 1];
    let x = slip_part(second.tray, slip);
    !equal_among(first, first.tray.ends.len(), side, x) && !equal_among(second, slip - 1, side, x)
}

// The new slips of the second tray.
pub fn new_slips(first: Sided<'_>, second: Sided<'_>) -> Fresh
    ensures { NewSlips first.entry.tray.letters.now first.entry.tray.ends.now first.entry.sides.now
        second.entry.tray.letters.now second.entry.tray.ends.now second.entry.sides.now result }
{
    let mut slips = [0u16; MAX_SLIPS];
    let mut count = 0;
    let mut letters = 0;
    for i in 0..second.tray.ends.len() {
        let slip = i + 1;
        if is_new(first, second, slip) {
            slips[count] = slip as u16;
            count += 1;
            letters += slip_part(second.tray, slip).len();
        }
    }
    Fresh {
        count,
        letters,
        slips,
    }
}
