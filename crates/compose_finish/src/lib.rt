// The last step of composing: 8, 9, or the legend and the places are written; and the answer.
#![tactic(auto)]

ghost use Rattle.std.specs.Prelude.{◌≡◌, Ok};
ghost use Rattle.answers.specs.Told.{composed_from};
ghost use Rattle.compose_finish.specs.Steps.Finishing.{SomeJoined, FinishedAs, OutcomeAsks, outcome_by};

use answers::{ComposeCounts, Room};
use legend_counts::LetterCounts;
use trays::{Fault, Tray};

// The counts of a tray that is composed.
fn outcome(slips: usize, kept: usize, counts: LetterCounts, joins: usize) -> ComposeCounts
    requires { OutcomeAsks slips kept counts joins }
    ensures { composed_from (Ok result) ≡ outcome_by slips kept counts joins }
{
    ComposeCounts {
        slips: slips as u32,
        kept: kept as u32,
        letters: counts.letters as u32,
        saved: counts.saved as u32,
        legend: counts.need as u32,
        joins: joins as u32,
    }
}

// Behind the walk: 8 and 9 are decided before anything is written, then the legend and the places are.
pub fn finish(
    tray: Tray<'_>,
    work: &mut [u16],
    legend: &mut [u8],
    left: &[u16],
    right: &[u16],
    overs: &[u16],
    k: usize,
    joins: usize,
    room: Room,
) -> Result<ComposeCounts, Fault>
    requires { SomeJoined tray.letters.now tray.ends.now work.old k joins left.now right.now overs.now }
    ensures { FinishedAs tray.entry.letters.now tray.entry.ends.now work.old work.new
        legend.old legend.new k joins left.now right.now overs.now room.joins room.places (composed_from result) }
{
    let counts = legend_counts::count_letters(tray, work, k, joins);
    let need = counts.need;
    if legend.len() < need {
        return Err(Fault::LegendBufferTooSmall(need as u32));
    }
    if room.joins < joins || room.places < tray.ends.len() {
        return Err(Fault::JoinOrPlaceListTooSmall(joins as u32));
    }
    let pieces = legend_write::pieces_of(work, left, right, overs, k, joins);
    legend_write::write_out(tray, work, legend, &pieces, k, need);
    Ok(outcome(tray.ends.len(), k, counts, joins))
}
