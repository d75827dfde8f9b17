// The members of each node: for each node the lowest member whose letters it is, and for each member the next of the same letters.
#![tactic(auto)]

ghost use Rattle.std.specs.Prelude.{◌+◌};
ghost use Rattle.trays.specs.Slips.{slip, slips_of};
ghost use Rattle.matching.specs.Steps.Nodes.{IsNode};
ghost use Rattle.layout.specs.Tables.{members};
ghost use Rattle.layout.specs.Numbered.{patterns_in, Automaton};
ghost use Rattle.trie_heads.specs.Steps.Heads as N;

use trays::Tray;

// The node of all letters of member `i`: that of its last letter.
pub fn node_of(tray: Tray<'_>, work: &[u16], n: usize, nodes: usize, i: usize) -> usize
    requires { N.Among tray.letters.now tray.ends.now n nodes work.now i }
    ensures { IsNode (patterns_in tray.entry.letters.now tray.entry.ends.now n work.now) result
        (slip (slips_of tray.entry.letters.now tray.entry.ends.now) i) }
{
    tables::at(work, layout::AT, slips::slip_span(tray.ends, i).end - 1)
}

// Puts `i` before the list of node `u`: the heads of the lists stand at `heads`, and what comes after `i` goes to place `p` of `nexts`.
pub fn push(work: &mut [u16], heads: usize, u: usize, nexts: usize, p: usize, i: usize)
    requires { N.CanPush work.old heads u nexts p i }
    ensures { N.Pushed work.old heads u nexts p i work.new }
{
    let first = tables::at(work, heads, u);
    tables::put(work, nexts, p, first);
    tables::put(work, heads, u, i);
}

// Fills HEAD and TWIN: from the last member on, each goes before those of its node, so that these ascend.
pub fn fill_heads(tray: Tray<'_>, work: &mut [u16], n: usize, nodes: usize)
    requires { Automaton tray.letters.now tray.ends.now n nodes work.old }
    ensures { N.HeadsFilled tray.entry.letters.now tray.entry.ends.now n nodes work.old work.new }
{
    tables::clear(work, layout::HEAD, nodes + 1);
    for j in (0..n).rev() {
        let i = tables::at(work, layout::MEMBERS, j);
        let v = node_of(tray, work, n, nodes, i);
        push(work, layout::HEAD, v, layout::TWIN, i, i);
    }
}
