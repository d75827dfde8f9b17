// Composing, with joins and records of places as structs in lent lists.
#![tactic(auto)]

ghost use Rattle.answers.specs.Records.{ComposeSays};
ghost use Rattle.answers.specs.Told.{composed_from};

use answers::{ComposeCounts, Join, Place, Room};
use trays::{Fault, Settings};

// Composes the side that the settings name of any tray, or refuses it: the legend into its buffer, the joins in the order made and the records of places in
// slip order into their lists.
pub fn compose_tray(
    letters: &[u8],
    ends: &[u16],
    sides: &[u8],
    settings: Settings,
    work: &mut [u16],
    legend: &mut [u8],
    joins: &mut [Join],
    places: &mut [Place],
) -> Result<ComposeCounts, Fault>
    ensures { ComposeSays settings letters.now ends.now sides.now work.old work.new
        legend.old legend.new joins.old joins.new places.old places.new (composed_from result) }
{
    let room = Room {
        joins: joins.len(),
        places: places.len(),
    };
    let work = &mut *work;
    let counts = compose_side::compose_staged(letters, ends, sides, settings, work, legend, room)?;
    compose_store::store_joins(work, joins, counts.joins as usize);
    compose_store::store_places(work, places, counts.slips as usize);
    Ok(counts)
}
