// The shortest legend of an accepted tray with at most ten kept slips.
#![tactic(auto)]

ghost use Rattle.trays.specs.Slips.{slips_of};
ghost use Rattle.greedy.specs.Composing.{whole};
ghost use Rattle.trie_build.specs.Steps.Built.{Buildable};
ghost use Rattle.answers.specs.Told.{shortest_from};
ghost use Rattle.shortest_core.specs.Steps.Seeking as S;

use answers::ShortestOrder;
use layout::{KEPT, SEEK};
use shortest_groups::{GROUP_CELLS, PAIR_CELLS};
use trays::{Fault, MAX_SHORTEST, Settings, Tray};

// How many cells the search takes.
const CELLS: usize = PAIR_CELLS + GROUP_CELLS;

// The pieces of the most slips that are ordered, two numbers each.
const PIECES: usize = 2 * MAX_SHORTEST;

// The first `k` cells of KEPT.
fn kept_numbers(work: &[u16], k: usize) -> [u16; MAX_SHORTEST]
    requires { S.KeptAsks work.now k }
    ensures { S.KeptCopied work.now k result }
{
    let mut kept = [0u16; MAX_SHORTEST];
    tables::copy_cells(work, KEPT, k, &mut kept);
    kept
}

// The slips at these places among the kept.
fn name_places(kept: &[u16], places: &[u16], k: usize) -> [u16; MAX_SHORTEST]
    requires { S.NamingAsks kept.now places.now k }
    ensures { S.Named kept.now places.now k result }
{
    let mut order = [0u16; MAX_SHORTEST];
    for i in 0..k {
        let place = usize::from(places[i]);
        order[i] = kept[place];
    }
    order
}

// The first of the shortest orders of the first `k` slips of `kept`.
fn seek_order(
    tray: Tray<'_>,
    kept: &[u16],
    k: usize,
    least: usize,
    table: &mut [u16],
) -> [u16; MAX_SHORTEST]
    requires { S.SeekAsks tray.letters.now tray.ends.now kept.now k table.old }
    ensures { S.Sought least tray.entry.letters.now tray.entry.ends.now kept.now k table.old table.new result }
{
    shortest_pairs::fill_pairs(tray, kept, k, least, table);
    let places = shortest_groups::best_order(table, k);
    name_places(kept, &places, k)
}

// 8, or the legend of this order, laid as one chain, is written.
fn write_order(
    tray: Tray<'_>,
    settings: Settings,
    legend: &mut [u8],
    order: [u16; MAX_SHORTEST],
    k: usize,
) -> Result<ShortestOrder, Fault>
    requires { S.OrderSought settings tray.letters.now tray.ends.now order k }
    ensures { S.Written (whole settings (slips_of tray.entry.letters.now tray.entry.ends.now)) legend.old legend.new (shortest_from result) }
{
    let mut pieces = [0u16; PIECES];
    let least = settings.least as usize;
    let need = legend_order::order_pieces(tray, &order, k, least, &mut pieces);
    if legend.len() < need {
        return Err(Fault::LegendBufferTooSmall(need as u32));
    }
    legend_lay::lay(tray, &pieces, 0, k, legend);
    Ok(ShortestOrder {
        legend: need as u32,
        count: k as u32,
        order,
    })
}

// The shortest legend of an accepted tray, in a work area that is large enough; or 20, or 8.
pub fn seek(
    tray: Tray<'_>,
    settings: Settings,
    work: &mut [u16],
    legend: &mut [u8],
) -> Result<ShortestOrder, Fault>
    requires { Buildable tray.letters.now tray.ends.now work.old }
    ensures { S.Finished (whole settings (slips_of tray.entry.letters.now tray.entry.ends.now)) work.old work.new
        legend.old legend.new (shortest_from result) }
{
    let n = tray.ends.len();
    let nodes = trie_build::build(tray, work);
    let k = kept_slips::tell_kept(tray, work, n, nodes);
    if MAX_SHORTEST < k {
        return Err(Fault::TooManyKeptSlips);
    }
    let kept = kept_numbers(work, k);
    let least = settings.least as usize;
    let order = seek_order(tray, &kept, k, least, &mut work[SEEK..SEEK + CELLS]);
    write_order(tray, settings, legend, order, k)
}
