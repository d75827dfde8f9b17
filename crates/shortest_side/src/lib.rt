// The shortest legend of one side of a tray. Its slips are cut out as a tray of their own, that tray's order is sought, and told by the numbers that the slips
// have in the whole tray.
#![tactic(auto)]

ghost use Rattle.std.specs.Prelude.{◌≡◌, map, ◌≤◌, length, take};
ghost use Rattle.words.specs.Lists.{entry};
ghost use Rattle.trays.specs.Limits.{work_need};
ghost use Rattle.trays.specs.Slips.{slips_of, only};
ghost use Rattle.greedy.specs.Composing.{whole, sided};
ghost use Rattle.answers.specs.Told.{shortest_from};
ghost use Rattle.answers.specs.Steps.Sides.{SideAsks};
ghost use Rattle.tray_cut.specs.Choosing.{CanCut};
ghost use Rattle.shortest_core.specs.Steps.Seeking.{ten_of, Finished};
ghost use Rattle.shortest_side.specs.Steps.Sides as S;

use answers::ShortestOrder;
use trays::{Fault, MAX_LETTERS, MAX_SHORTEST, MAX_SLIPS, Settings, Tray};

// The shortest legend of the slips with these numbers of an accepted tray, as of a tray of their own.
fn seek_cut(
    tray: Tray<'_>,
    slips: &[u16],
    settings: Settings,
    work: &mut [u16],
    legend: &mut [u8],
) -> Result<ShortestOrder, Fault>
    requires can_cut { CanCut tray.letters.now tray.ends.now slips.now }
    requires work_need_in_bounds { work_need ≤ length work.old }
    ensures { Finished (whole settings (only (slips_of tray.entry.letters.now tray.entry.ends.now) slips.now)) work.old
        work.new legend.old legend.new (shortest_from result) }
{
    let mut text = [0u8; MAX_LETTERS];
    let mut bounds = [0u16; MAX_SLIPS];
    let n = tray_cut::write_slips(tray, slips, 0, &mut text, &mut bounds);
    let cut = Tray {
        letters: &text[..n],
        ends: &bounds[..slips.len()],
    };
    shortest_core::seek(cut, settings, work, legend)
}

// The first `count` slips of an order, by their numbers in `slips`; 0 past these.
fn name_order(slips: &[u16], order: &[u16], count: usize) -> [u16; MAX_SHORTEST]
    requires { S.OrderAsks slips.now order.now count }
    ensures { result ≡ ten_of (map (entry slips.now) (take count order.now)) }
{
    let mut named = [0u16; MAX_SHORTEST];
    for i in 0..count {
        let slip = usize::from(order[i]);
        let number = tray_cut::number_of(slips, slip);
        named[i] = number as u16;
    }
    named
}

// The shortest legend of the side that the settings name of a tray, in a work area that is large enough.
pub fn seek_side(
    tray: Tray<'_>,
    sides: &[u8],
    settings: Settings,
    work: &mut [u16],
    legend: &mut [u8],
) -> Result<ShortestOrder, Fault>
    requires { SideAsks tray.letters.now tray.ends.now sides.now work.old }
    ensures { Finished (sided settings sides.now (slips_of tray.entry.letters.now tray.entry.ends.now)) work.old
        work.new legend.old legend.new (shortest_from result) }
{
    let own = tray_cut::side_slips(sides, settings.side);
    let slips = own.slips;
    let slips = &slips[..own.count];
    let found = seek_cut(tray, slips, settings, work, legend)?;
    let order = found.order;
    let named = name_order(slips, &order, found.count as usize);
    Ok(ShortestOrder {
        legend: found.legend,
        count: found.count,
        order: named,
    })
}
