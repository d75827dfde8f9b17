// Places: for a slip that is laid, where; for one set aside, the lowest place at which it stands in the legend.
#![tactic(auto)]

ghost use Rattle.std.specs.Prelude.{◌≡◌, ◌+◌, ◌*◌, ◌≤◌, ◌<◌, length, set};
ghost use Rattle.trays.specs.Limits.{max_slip, max_letters};
ghost use Rattle.trays.specs.Slips.{slips_of};
ghost use Rattle.greedy.specs.Legends.{lowest, tried};
ghost use Rattle.legend_chains.specs.Pieces.{piece_in, pieces_in};
ghost use Rattle.legend_places.specs.Places.{placed_by, aside_at, aside_by, PlacesAsk, AsideAsk};
ghost use Rattle.legend_places.specs.Steps.OnePlace.{PutPlaceAsks, PlacedOne, AsidePlaceAsks};

use answers::PLACE_CELLS;
use trays::Tray;

// A place in a text, and the letters compared to find it.
#[derive(Clone, Copy)]
struct Trial {
    place: usize,
    compared: usize,
}

// The lowest place, from 1, at which `x` stands in `t`, or one past the letters if it stands nowhere, and the letters compared to find it. At each place at
// which `x` fits they are compared from the last one backwards. The last one, where most trials end, is looked at by itself: its loop is a short one.
fn lowest_place(x: &[u8], t: &[u8]) -> Trial
    requires { (1 ≤ length x.now) × (length x.now ≤ max_slip) × (length t.now ≤ max_letters) }
    ensures { (result.place ≡ lowest 1 x.now t.now) × (result.compared ≡ tried x.now t.now) }
{
    let n = x.len();
    let mut end = n;
    let mut agreed: usize = 0;
    let last = x[n - 1];
    // kept: the clause on `compared` counts each letter looked at (`tried`), and that the last one is looked at by itself is a measured choice.
    let place = 'places: loop {
        if t.len() < end {
            break 'places t.len() + 1;
        }
        if t[end - 1] != last {
            end += 1;
            continue 'places;
        }
        for k in 1..n {
            if t[end - (k + 1)] != x[n - (k + 1)] {
                agreed += k;
                end += 1;
                continue 'places;
            }
        }
        agreed += n;
        break 'places end - n + 1;
    };
    // At each place passed one letter differed.
    let compared = agreed + (end - n);
    Trial { place, compared }
}

// Writes three numbers.
fn put_three(xs: &mut [u16], at: usize, a: usize, b: usize, c: usize)
    requires { (at + 2 < length xs.old) × (a < 65536) × (b < 65536) × (c < 65536) }
    ensures { xs.new ≡ set (set (set xs.old at a) (at + 1) b) (at + 2) c }
{
    xs[at] = a as u16;
    xs[at + 1] = b as u16;
    xs[at + 2] = c as u16;
}

// Writes the place of the `q`-th piece, whose letters go from `here` on, and that its slip is kept. Answers where the next letters go.
fn put_place(tray: Tray<'_>, pieces: &[u16], q: usize, here: usize, places: &mut [u16]) -> usize
    requires { PutPlaceAsks tray.letters.now tray.ends.now pieces.now q here places.old }
    ensures { PlacedOne (slips_of tray.entry.letters.now tray.entry.ends.now) (piece_in pieces.now q) here places.old
        places.new result }
{
    let slip = usize::from(pieces[2 * q]);
    let shared = usize::from(pieces[2 * q + 1]);
    let part = slips::slip_part(tray, slip);
    put_three(places, PLACE_CELLS * (slip - 1), here - shared, 1, 0);
    here + (part.len() - shared)
}

// Writes the places of the first `n` pieces' slips.
pub fn kept_places(tray: Tray<'_>, pieces: &[u16], n: usize, places: &mut [u16])
    requires { PlacesAsk tray.letters.now tray.ends.now pieces.now n places.old }
    ensures { places.new
        ≡ placed_by (slips_of tray.entry.letters.now tray.entry.ends.now) places.old 1 (pieces_in pieces.now 0 n) }
{
    let mut here: usize = 1;
    for q in 0..n {
        here = put_place(tray, pieces, q, here, places);
    }
}

// Writes the place of slip `i + 1` in the legend, unless it is marked as kept.
fn aside_place(tray: Tray<'_>, legend: &[u8], i: usize, places: &mut [u16])
    requires { AsidePlaceAsks tray.letters.now tray.ends.now legend.now i places.old }
    ensures { places.new
        ≡ aside_at (slips_of tray.entry.letters.now tray.entry.ends.now) legend.now places.old i }
{
    if places[PLACE_CELLS * i + 1] != 0 {
        return;
    }
    let part = slips::slip_part(tray, i + 1);
    let trial = lowest_place(part, legend);
    put_three(places, PLACE_CELLS * i, trial.place, 0, trial.compared);
}

// Writes the places of the slips that are not marked as kept.
pub fn aside_places(tray: Tray<'_>, legend: &[u8], places: &mut [u16])
    requires { AsideAsk tray.letters.now tray.ends.now legend.now places.old }
    ensures { places.new
        ≡ aside_by (slips_of tray.entry.letters.now tray.entry.ends.now) legend.now places.old (length tray.entry.ends.now) }
{
    for i in 0..tray.ends.len() {
        aside_place(tray, legend, i, places);
    }
}
