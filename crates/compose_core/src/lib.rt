// Composing an accepted tray, over number slices: the walk over the automaton, the legend, joins and places.
#![tactic(auto)]

ghost use Rattle.std.specs.Prelude.{◌≤◌};
ghost use Rattle.trays.specs.Slips.{slips_of};
ghost use Rattle.greedy.specs.Composing.{whole};
ghost use Rattle.trie_build.specs.Steps.Built.{Buildable};
ghost use Rattle.answers.specs.Told.{composed_from};
ghost use Rattle.compose_finish.specs.Steps.Finishing.{Finished};

use answers::{ComposeCounts, Room};
use trays::{Fault, MAX_SLIPS, Settings, Tray};
use walk_offer::Marks;

// An accepted tray, composed in a work area that is large enough: the automaton, the lists at its nodes, the walk, and what comes after it.
pub fn compose_accepted(
    tray: Tray<'_>,
    settings: Settings,
    work: &mut [u16],
    legend: &mut [u8],
    room: Room,
) -> Result<ComposeCounts, Fault>
    requires le_least { 1 ≤ settings.least }
    requires buildable { Buildable tray.letters.now tray.ends.now work.old }
    ensures { Finished (whole settings (slips_of tray.entry.letters.now tray.entry.ends.now)) work.old work.new
        legend.old legend.new room.joins room.places (composed_from result) }
{
    let least = settings.least as usize;
    let n = tray.ends.len();
    let nodes = trie_build::build(tray, work);
    let k = kept_lists::fill_lists(tray, work, n, nodes);
    let mut marks = Marks {
        left: [0; MAX_SLIPS],
        right: [0; MAX_SLIPS],
        overs: [0; MAX_SLIPS],
        first: [0; MAX_SLIPS],
        last: [0; MAX_SLIPS],
    };
    let joins = walk::walk(tray, work, n, k, nodes, least, &mut marks);
    compose_finish::finish(
        tray,
        work,
        legend,
        &marks.left,
        &marks.right,
        &marks.overs,
        k,
        joins,
        room,
    )
}
