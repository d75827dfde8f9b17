// The nodes of the prefix automaton, numbered by length, then byte order, from the sorted order of the members.
// The letters of the tray are lent for the contracts alone: what two members have in common stands in COMMON.
#![tactic(auto)]

ghost use Rattle.std.specs.Prelude.{◌+◌};
ghost use Rattle.trie_nodes.specs.Numbering.{Sorted, NodesFilled};
ghost use Rattle.trie_nodes.specs.Steps.Stages.{LevelNext, AtStage, Letterable, Lettered};

use trays::Tray;

// Numbers letter `c` of the member of rank `r`, which stands at `place`. Its node is the last one numbered, or a new one where the
// member has no more than `c` letters in common with the one before.
fn number_letter(work: &mut [u16], c: usize, r: usize, place: usize, nodes: usize) -> usize
    requires { Letterable work.old r place nodes }
    ensures { Lettered work.old c r place nodes result work.new }
{
    let common = tables::at(work, layout::COMMON, r);
    if common <= c {
        tables::put(work, layout::OWN, nodes + 1, place);
        tables::put(work, layout::AT, place, nodes + 1);
        return nodes + 1;
    }
    tables::put(work, layout::AT, place, nodes);
    nodes
}

// Numbers the nodes of `c` + 1 letters after the shorter ones, of which there are `nodes`, in the order of the members; those that are too short have none.
fn number_level(tray: Tray<'_>, work: &mut [u16], n: usize, c: usize, nodes: usize) -> usize
    requires { LevelNext tray.letters.now tray.ends.now n c nodes work.old }
    ensures { AtStage tray.entry.letters.now tray.entry.ends.now n (c + 1) 0 work.old result work.new }
{
    let mut k = nodes;
    for r in 0..n {
        let slip = tables::at(work, layout::ORDER, r);
        let span = slips::slip_span(tray.ends, slip);
        let place = span.start + c;
        if place < span.end {
            k = number_letter(work, c, r, place, k);
        }
    }
    tables::put(work, layout::LEVEL, c + 2, k + 1);
    k
}

// Numbers all nodes, level by level, and answers how many have a letter. Fills LEVEL, AT and OWN from ORDER and COMMON.
pub fn number_nodes(tray: Tray<'_>, work: &mut [u16], n: usize) -> usize
    requires { Sorted tray.letters.now tray.ends.now n work.old }
    ensures { NodesFilled tray.entry.letters.now tray.entry.ends.now n work.old result work.new }
{
    tables::put(work, layout::LEVEL, 1, 1);
    let mut nodes = 0;
    for c in 0..trays::MAX_SLIP {
        nodes = number_level(tray, work, n, c, nodes);
    }
    nodes
}
