// What composing counts before it writes: kept letters, saved letters, and the letters that the legend needs.
#![tactic(auto)]

ghost use Rattle.std.specs.Prelude.{◌≡◌, ◌+◌, ◌*◌, ◌≤◌, length, take};
ghost use Rattle.trays.specs.Limits.{max_slips};
ghost use Rattle.trays.specs.Slips.{slips_of, total};
ghost use Rattle.answers.specs.Composing.{join_cells};
ghost use Rattle.legend_counts.specs.Steps.Counting.{thirds, KeptReal, CountAsks, LetterCountsAre};

use answers::JOIN_CELLS;
use layout::{ALL_JOINS, JOINS, KEPT};
use trays::{MAX_SLIPS, Tray};

// Kept letters, saved letters, and the letters that the legend needs.
#[derive(Clone, Copy)]
pub struct LetterCounts {
    pub letters: usize,
    pub saved: usize,
    pub need: usize,
}

// The letters of the first `k` slips of `kept`, counted together.
fn kept_letters(tray: Tray<'_>, kept: &[u16], k: usize) -> usize
    requires { KeptReal tray.letters.now tray.ends.now kept.now k }
    ensures { result ≡ total (slips_of tray.entry.letters.now tray.entry.ends.now) (take k kept.now) }
{
    let mut sum = 0;
    for slip in &kept[..k] {
        sum += slips::slip_part(tray, usize::from(*slip)).len();
    }
    sum
}

// The overlaps of the first `n` joins, summed.
fn saved_letters(joins: &[u16], n: usize) -> usize
    requires { (n ≤ max_slips) × (join_cells * n ≤ length joins.now) }
    ensures { result ≡ thirds joins.now n }
{
    let mut sum = 0;
    for i in 0..n {
        sum += usize::from(joins[JOIN_CELLS * i + 2]);
    }
    sum
}

// What is counted before anything is written.
pub fn count_letters(tray: Tray<'_>, work: &[u16], k: usize, joins: usize) -> LetterCounts
    requires { CountAsks tray.letters.now tray.ends.now work.now k joins }
    ensures { LetterCountsAre tray.entry.letters.now tray.entry.ends.now work.now k joins result }
{
    let all = kept_letters(tray, &work[KEPT..KEPT + MAX_SLIPS], k);
    let saved = saved_letters(&work[JOINS..JOINS + ALL_JOINS], joins);
    LetterCounts {
        letters: all,
        saved,
        need: all - saved,
    }
}
