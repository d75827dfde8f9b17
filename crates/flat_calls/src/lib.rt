// Composing and finding over slices of numbers: `JOIN_CELLS` numbers a join, `RECORD_CELLS` a record of places, two an occurrence.
#![tactic(auto)]

ghost use Rattle.answers.specs.Flat.{ComposeFlat};
ghost use Rattle.std.specs.Prelude.{◌+◌, ◌<◌};
ghost use Rattle.answers.specs.Told.{composed_from, search_from};
ghost use Rattle.answers.specs.Finding as F;
ghost use Rattle.flat_calls.specs.Steps.Occurrences as N;

use answers::{ComposeCounts, FindCounts, JOIN_CELLS, RECORD_CELLS, Room};
use layout::{NAMED, RECORDS};
use trays::{Fault, Settings, Tray};

// Composes the side that the settings name of any tray, or refuses it. A join is three numbers (left slip, right slip, overlap), a record of places five (the
// slip, its place, 1 if it is kept, the letters compared to find the place, and the side).
pub fn compose_flat(
    letters: &[u8],
    ends: &[u16],
    sides: &[u8],
    settings: Settings,
    work: &mut [u16],
    legend: &mut [u8],
    joins: &mut [u16],
    places: &mut [u16],
) -> Result<ComposeCounts, Fault>
    ensures { ComposeFlat settings letters.now ends.now sides.now work.old work.new
        legend.old legend.new joins.old joins.new places.old places.new (composed_from result) }
{
    let room = Room {
        joins: joins.len() / JOIN_CELLS,
        places: places.len() / RECORD_CELLS,
    };
    let counts = compose_side::compose_staged(letters, ends, sides, settings, work, legend, room)?;
    tables::copy_cells(work, NAMED, JOIN_CELLS * counts.joins as usize, joins);
    tables::copy_cells(work, RECORDS, RECORD_CELLS * counts.slips as usize, places);
    Ok(counts)
}

// The first `count` occurrences, two numbers each, stored from the start of the list.
fn scan_flat(tray: Tray<'_>, text: &[u8], work: &mut [u16], found: &mut [u32], count: usize)
    requires { N.CanFlat tray.letters.now tray.ends.now text.now count work.old found.old }
    ensures { N.NumbersStored tray.entry.letters.now tray.entry.ends.now text.now count work.old work.new
        found.old found.new }
{
    for i in 0..count {
        let next = find_core::next_found(tray, text, work, i);
        let at = 2 * i;
        found[at] = next.end;
        found[at + 1] = u32::from(next.slip);
    }
}

// Finds every slip in a text: occurrences go into a lent list of numbers, two for each, end place and slip.
pub fn find_flat(
    letters: &[u8],
    ends: &[u16],
    text: &[u8],
    work: &mut [u16],
    found: &mut [u32],
) -> Result<FindCounts, Fault>
    ensures { F.FindFlat letters.now ends.now text.now work.old work.new
        found.old found.new (search_from result) }
{
    let tray = find_core::check_find(letters, ends, text, work.len())?;
    let counts = find_core::begin(tray, text, work, found.len() / 2)?;
    scan_flat(tray, text, work, found, counts.count as usize);
    Ok(counts)
}
