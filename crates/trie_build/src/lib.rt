// The automaton of all slips of an accepted tray, built in the lent work area.
#![tactic(auto)]

ghost use Rattle.trie_build.specs.Steps.Built.{Buildable, SortedAll, Built};

use layout::{COMMON, MEMBERS, ORDER};
use trays::Tray;

// All slips as members, in the order of their letters.
fn sort_slips(tray: Tray<'_>, work: &mut [u16])
    requires { Buildable tray.letters.now tray.ends.now work.old }
    ensures { SortedAll tray.entry.letters.now tray.entry.ends.now work.old work.new }
{
    let n = tray.ends.len();
    trie_order::fill_members(work, MEMBERS, n);
    trie_order::fill_members(work, ORDER, n);
    trie_order::sort_table(tray, work, ORDER, n);
    trie_order::fill_common(tray, work, ORDER, COMMON, n);
}

// The nodes of their letters, with children and failure links. Answers how many nodes have a letter.
pub fn build(tray: Tray<'_>, work: &mut [u16]) -> usize
    requires { Buildable tray.letters.now tray.ends.now work.old }
    ensures { Built tray.entry.letters.now tray.entry.ends.now work.old result work.new }
{
    sort_slips(tray, work);
    let n = tray.ends.len();
    let nodes = trie_nodes::number_nodes(tray, work, n);
    trie_links::fill_links(tray, work, n, nodes);
    nodes
}
