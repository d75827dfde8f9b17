// The step and failure links of the prefix automaton, in tables of the lent work area.
// A tray has `letters` and `ends`; its `n` members stand in the work area, and the nodes of their beginnings have the numbers up to `nodes`.
#![tactic(auto)]

ghost use Rattle.layout.specs.Numbered.{patterns_in, Numbered};
ghost use Rattle.trie_children.specs.Children as C;
ghost use Rattle.trie_links.specs.Links as L;

use trays::Tray;

// The node of a state that one letter leads to, and the drops on the way.
#[derive(Clone, Copy)]
pub struct StepEnd {
    pub state: usize,
    pub drops: usize,
}

// One letter read in the state of node `v`: the state drops along its failure links until the letter extends it or it is empty.
// kept: the links stand in the table, so there is no range to go over
pub fn step(tray: Tray<'_>, work: &[u16], n: usize, nodes: usize, v: usize, c: u8) -> StepEnd
    requires { L.CanStep tray.letters.now tray.ends.now n nodes work.now v }
    ensures { L.StepIs (patterns_in tray.entry.letters.now tray.entry.ends.now n work.now) v c result.state result.drops }
{
    let mut state = v;
    let mut drops = 0;
    loop {
        let u = trie_children::child(tray, work, n, nodes, state, c);
        if u != 0 || state == 0 {
            return StepEnd { state: u, drops };
        }
        state = tables::at(work, layout::FAIL, state);
        drops += 1;
    }
}

// The failure link of node `v`, where those of lower nodes are known: one step on its letter from its parent's link.
fn failure(tray: Tray<'_>, work: &[u16], n: usize, nodes: usize, v: usize) -> usize
    requires { L.CanLink tray.letters.now tray.ends.now n nodes work.now v }
    ensures { L.LinkIs (patterns_in tray.entry.letters.now tray.entry.ends.now n work.now) v result }
{
    let above = trie_children::parent(work, v);
    if above == 0 {
        return 0;
    }
    let from = tables::at(work, layout::FAIL, above);
    let c = trie_children::letter(tray.letters, work, v);
    step(tray, work, n, nodes, from, c).state
}

// Fills FAIL, node by node: a node's parent and its link have lower numbers.
fn fill_fails(tray: Tray<'_>, work: &mut [u16], n: usize, nodes: usize)
    requires { C.Near tray.letters.now tray.ends.now n nodes work.old }
    ensures { L.FailsFilled tray.entry.letters.now tray.entry.ends.now n nodes work.old work.new }
{
    for v in 1..=nodes {
        let link = failure(tray, work, n, nodes, v);
        tables::put(work, layout::FAIL, v, link);
    }
}

// Fills KID, NEAR and FAIL.
pub fn fill_links(tray: Tray<'_>, work: &mut [u16], n: usize, nodes: usize)
    requires { Numbered tray.letters.now tray.ends.now n nodes work.old }
    ensures { L.LinksFilled tray.entry.letters.now tray.entry.ends.now n nodes work.old work.new }
{
    trie_children::fill_kids(tray, work, n, nodes);
    trie_children::fill_near(tray, work, n, nodes);
    fill_fails(tray, work, n, nodes);
}
