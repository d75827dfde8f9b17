// Output links and tallies of the automaton, in tables of the lent work area: for each node, where along its failure path the next member's whole
// string stands, and how many members end its string.
#![tactic(auto)]

ghost use Rattle.std.specs.Prelude.{◌≡◌, length};
ghost use Rattle.trays.specs.Slips.{slips_of};
ghost use Rattle.matching.specs.Steps.Nodes.{string};
ghost use Rattle.layout.specs.Tables.{members, owners};
ghost use Rattle.layout.specs.Numbered.{patterns_in, Headed};
ghost use Rattle.trie_outputs.specs.Steps.Outputs as O;

use trays::Tray;

// How many members have all letters of node `v`.
// kept: their list is linked through TWIN, so there is no range to go over
fn owners_of(tray: Tray<'_>, work: &[u16], n: usize, nodes: usize, v: usize) -> usize
    requires { O.Owning tray.letters.now tray.ends.now n nodes work.now v }
    ensures { result ≡ length (owners (slips_of tray.entry.letters.now tray.entry.ends.now) (members work.now n)
        (string (patterns_in tray.entry.letters.now tray.entry.ends.now n work.now) v)) }
{
    let mut i = tables::at(work, layout::HEAD, v);
    let mut k = 0;
    while i != 0 {
        i = tables::at(work, layout::TWIN, i);
        k += 1;
    }
    k
}

// The output link of node `v`, where those of lower nodes are known: its failure link if that is a member's whole string, else the
// output link of that.
fn output(tray: Tray<'_>, work: &[u16], n: usize, nodes: usize, v: usize) -> usize
    requires { O.Telling tray.letters.now tray.ends.now n nodes work.now v }
    ensures { O.OutOf (slips_of tray.entry.letters.now tray.entry.ends.now) (members work.now n) v result }
{
    let link = tables::at(work, layout::FAIL, v);
    if link == 0 || tables::at(work, layout::HEAD, link) != 0 {
        return link;
    }
    tables::at(work, layout::OUT, link)
}

// The tally of node `v`, where those of lower nodes are known: the members that have all its letters, and the tally of its failure link.
fn tally(tray: Tray<'_>, work: &[u16], n: usize, nodes: usize, v: usize) -> usize
    requires { O.Telling tray.letters.now tray.ends.now n nodes work.now v }
    ensures { O.Tallied (slips_of tray.entry.letters.now tray.entry.ends.now) (members work.now n) v result }
{
    let link = tables::at(work, layout::FAIL, v);
    owners_of(tray, work, n, nodes, v) + tables::at(work, layout::TALLY, link)
}

// Fills OUT and TALLY, node by node: a node's failure link has a lower number. Nothing ends the empty string.
pub fn fill_outputs(tray: Tray<'_>, work: &mut [u16], n: usize, nodes: usize)
    requires { Headed tray.letters.now tray.ends.now n nodes work.old }
    ensures { O.OutputsFilled tray.entry.letters.now tray.entry.ends.now n nodes work.old work.new }
{
    tables::put(work, layout::TALLY, 0, 0);
    for v in 1..=nodes {
        let out = output(tray, work, n, nodes, v);
        let tally = tally(tray, work, n, nodes, v);
        tables::put(work, layout::OUT, v, out);
        tables::put(work, layout::TALLY, v, tally);
    }
}
