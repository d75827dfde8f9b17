// The table of pairs, for the search of the shortest legend: how many letters each of the kept slips shares with each laid after it.
#![tactic(auto)]

ghost use Rattle.std.specs.Prelude.{◌+◌};
ghost use Rattle.shortest_pairs.specs.Pairs.{PairsAsk, PairsAre};
ghost use Rattle.shortest_pairs.specs.Steps.Pairing.{RowAsks, PairedTo};

use shortest_groups::PAIR_CELLS;
use trays::{MAX_SHORTEST, Tray};

// Fills the row of place `a`.
fn fill_row(tray: Tray<'_>, kept: &[u16], k: usize, a: usize, least: usize, table: &mut [u16])
    requires { RowAsks least tray.letters.now tray.ends.now kept.now k a table.old }
    ensures { PairedTo least tray.entry.letters.now tray.entry.ends.now kept.now k (a + 1) 0 table.old
        table.new }
{
    let left = usize::from(kept[a]);
    for (b, slip) in kept[..k].iter().enumerate() {
        let right = usize::from(*slip);
        let shared = slips::slip_overlap(tray, left, right, least);
        tables::put(table, 0, MAX_SHORTEST * a + b, shared);
    }
}

// Fills the table for the first `k` slips of `kept`.
pub fn fill_pairs(tray: Tray<'_>, kept: &[u16], k: usize, least: usize, table: &mut [u16])
    requires { PairsAsk tray.letters.now tray.ends.now kept.now k table.old }
    ensures { PairsAre least tray.entry.letters.now tray.entry.ends.now kept.now k table.old table.new }
{
    tables::clear(table, 0, PAIR_CELLS);
    for a in 0..k {
        fill_row(tray, kept, k, a, least, table);
    }
}
