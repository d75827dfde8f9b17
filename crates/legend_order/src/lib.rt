// Slips laid as one chain in a given order: its pieces, and how many letters its legend has.
#![tactic(auto)]

ghost use Rattle.legend_order.specs.Arranging.{OrderAsks, Arranged};
ghost use Rattle.legend_order.specs.Steps.OneSlip.{SlipAsks, Shared, AddAsks, Added};

use trays::Tray;

// How many letters the `m`-th slip shares with the one before it; the first shares none.
fn shared_before(tray: Tray<'_>, order: &[u16], m: usize, least: usize) -> usize
    requires { SlipAsks tray.letters.now tray.ends.now order.now m }
    ensures { Shared least tray.entry.letters.now tray.entry.ends.now order.now m result }
{
    if m == 0 {
        return 0;
    }
    let left = usize::from(order[m - 1]);
    let right = usize::from(order[m]);
    slips::slip_overlap(tray, left, right, least)
}

// Writes the piece of the `m`-th slip. Answers how many letters it adds.
fn add_slip(tray: Tray<'_>, order: &[u16], m: usize, least: usize, pieces: &mut [u16]) -> usize
    requires { AddAsks tray.letters.now tray.ends.now order.now m pieces.old }
    ensures { Added least tray.entry.letters.now tray.entry.ends.now order.now m pieces.old pieces.new result }
{
    let slip = usize::from(order[m]);
    let shared = shared_before(tray, order, m, least);
    legend_chains::put_piece(pieces, m, slip, shared);
    let part = slips::slip_part(tray, slip);
    part.len() - shared
}

// Writes the pieces of the first `k` slips of `order`. Answers how many letters their legend has.
pub fn order_pieces(
    tray: Tray<'_>,
    order: &[u16],
    k: usize,
    least: usize,
    pieces: &mut [u16],
) -> usize
    requires { OrderAsks tray.letters.now tray.ends.now order.now k pieces.old }
    ensures { Arranged least tray.entry.letters.now tray.entry.ends.now order.now k pieces.old pieces.new result }
{
    let mut need: usize = 0;
    for m in 0..k {
        need += add_slip(tray, order, m, least, pieces);
    }
    need
}
