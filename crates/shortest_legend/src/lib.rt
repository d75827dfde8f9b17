// The shortest legend of a side with at most ten kept slips.
#![tactic(auto)]

ghost use Rattle.answers.specs.Shortest.{ShortestSays};
ghost use Rattle.answers.specs.Told.{shortest_from};

use answers::ShortestOrder;
use layout::WORK_NEED;
use trays::{Fault, Settings};

// The shortest legend of the side that the settings name of any tray, or the refusal.
pub fn shortest_legend(
    letters: &[u8],
    ends: &[u16],
    sides: &[u8],
    settings: Settings,
    work: &mut [u16],
    legend: &mut [u8],
) -> Result<ShortestOrder, Fault>
    ensures { ShortestSays settings letters.now ends.now sides.now work.old work.new
        legend.old legend.new (shortest_from result) }
{
    let tray = tray_check::check_sided_tray(letters, ends, sides, settings.least, settings.side)?;
    if work.len() < WORK_NEED {
        return Err(Fault::WorkAreaTooSmall);
    }
    shortest_side::seek_side(tray, sides, settings, work, legend)
}
