// One side of a tray, composed. Its slips are cut out as a tray of their own, that tray is composed, and the joins and places that are staged for it are told
// by the numbers that its slips have in the whole tray.
#![tactic(auto)]

ghost use Rattle.std.specs.Prelude.{◌≤◌, length};
ghost use Rattle.trays.specs.Limits.{work_need};
ghost use Rattle.trays.specs.Slips.{slips_of, only};
ghost use Rattle.greedy.specs.Composing.{whole, sided};
ghost use Rattle.answers.specs.Told.{composed_from};
ghost use Rattle.compose_finish.specs.Steps.Finishing.{Finished};
ghost use Rattle.answers.specs.Steps.Sides.{SideAsks};
ghost use Rattle.tray_cut.specs.Choosing.{CanCut};
ghost use Rattle.compose_side.specs.Steps.Sides as S;

use answers::{ComposeCounts, Room};
use layout::WORK_NEED;
use trays::{Fault, MAX_LETTERS, MAX_SLIPS, Settings, Tray};

// The slips with these numbers of a tray, composed as a tray of their own.
fn compose_cut(
    tray: Tray<'_>,
    slips: &[u16],
    settings: Settings,
    work: &mut [u16],
    legend: &mut [u8],
    room: Room,
) -> Result<ComposeCounts, Fault>
    requires le_least { 1 ≤ settings.least }
    requires can_cut { CanCut tray.letters.now tray.ends.now slips.now }
    requires work_need_in_bounds { work_need ≤ length work.old }
    ensures { Finished (whole settings (only (slips_of tray.entry.letters.now tray.entry.ends.now) slips.now)) work.old
        work.new legend.old legend.new room.joins room.places (composed_from result) }
{
    let mut text = [0u8; MAX_LETTERS];
    let mut bounds = [0u16; MAX_SLIPS];
    let n = tray_cut::write_slips(tray, slips, 0, &mut text, &mut bounds);
    let cut = Tray {
        letters: &text[..n],
        ends: &bounds[..slips.len()],
    };
    compose_core::compose_accepted(cut, settings, work, legend, room)
}

// The side that the settings name of a tray, composed in a work area that is large enough. Where it is refused, no join and no record is told.
fn compose_side(
    tray: Tray<'_>,
    sides: &[u8],
    settings: Settings,
    work: &mut [u16],
    legend: &mut [u8],
    room: Room,
) -> Result<ComposeCounts, Fault>
    requires le_least { 1 ≤ settings.least }
    requires side_asks { SideAsks tray.letters.now tray.ends.now sides.now work.old }
    ensures { S.SideFinished (sided settings sides.now (slips_of tray.entry.letters.now tray.entry.ends.now)) settings.side
        work.old work.new legend.old legend.new room.joins room.places (composed_from result) }
{
    let side = settings.side;
    let own = tray_cut::side_slips(sides, side);
    let slips = own.slips;
    let slips = &slips[..own.count];
    let counts = compose_cut(tray, slips, settings, work, legend, room)?;
    compose_names::name_joins(work, slips, counts.joins as usize);
    compose_names::make_records(work, slips, side, counts.slips as usize);
    Ok(counts)
}

// Composes the side that the settings name of any tray, or refuses it: the legend into its buffer, joins and records of places as numbers into the work
// area, as many as there is room for.
pub fn compose_staged(
    letters: &[u8],
    ends: &[u16],
    sides: &[u8],
    settings: Settings,
    work: &mut [u16],
    legend: &mut [u8],
    room: Room,
) -> Result<ComposeCounts, Fault>
    ensures { S.Staged settings letters.now ends.now sides.now work.old work.new
        legend.old legend.new room.joins room.places (composed_from result) }
{
    let tray = tray_check::check_sided_tray(letters, ends, sides, settings.least, settings.side)?;
    if work.len() < WORK_NEED {
        return Err(Fault::WorkAreaTooSmall);
    }
    compose_side(tray, sides, settings, work, legend, room)
}
