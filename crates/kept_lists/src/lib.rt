// The tables read off the automaton for composing: the kept members, and for each node those of them that begin with it and those that properly
// end with it.
#![tactic(auto)]

ghost use Rattle.std.specs.Prelude.{◌≡◌, ◌+◌, ℕ};
ghost use Rattle.layout.specs.Numbered.{Automaton};
ghost use Rattle.kept_slips.specs.Steps.Kept as K;
ghost use Rattle.kept_lists.specs.Steps.KeptLists as O;

use trays::Tray;

// Puts the `j`-th kept member into the lists of the nodes that it begins with: letter by letter, before the higher ones.
fn add_starts(tray: Tray<'_>, work: &mut [u16], n: usize, k: usize, nodes: usize, j: usize)
    requires { O.Listing O.beginnings tray.letters.now tray.ends.now n k nodes work.old (j + 1) }
    ensures { O.ListedTo O.beginnings tray.entry.letters.now tray.entry.ends.now n k nodes work.old j work.new }
{
    let i = tables::at(work, layout::KEPT, j);
    let span = slips::slip_span(tray.ends, i);
    for p in span.start..span.end {
        let u = tables::at(work, layout::AT, p);
        trie_heads::push(work, layout::STARTS, u, layout::STARTS_NEXT, p, i);
    }
}

// Puts the `j`-th kept member into the lists of the nodes that it properly ends with. These are on the failure path of its node, and each is
// shorter than the one before: lengths go from the longest down.
fn add_ends(tray: Tray<'_>, work: &mut [u16], n: usize, k: usize, nodes: usize, j: usize)
    requires { O.Listing O.endings tray.letters.now tray.ends.now n k nodes work.old (j + 1) }
    ensures { O.ListedTo O.endings tray.entry.letters.now tray.entry.ends.now n k nodes work.old j work.new }
{
    let i = tables::at(work, layout::KEPT, j);
    let span = slips::slip_span(tray.ends, i);
    let whole = tables::at(work, layout::AT, span.end - 1);
    let mut u = tables::at(work, layout::FAIL, whole);
    for d in (1..span.end - span.start).rev() {
        if u == 0 {
            break;
        }
        if u < tables::at(work, layout::LEVEL, d) {
            continue;
        }
        trie_heads::push(work, layout::ENDS, u, layout::ENDS_NEXT, span.end - d, i);
        u = tables::at(work, layout::FAIL, u);
    }
}

// Fills the lists of one kind, whose heads stand at `heads`: `add` puts the `j`-th of the `k` kept members into them, from the last on, so that each
// list ascends.
fn fill_kind<F: Fn(&mut [u16], usize)>(
    tray: Tray<'_>,
    work: &mut [u16],
    n: usize,
    k: usize,
    nodes: usize,
    heads: usize,
    add: F,
)
    ghost affix: { O.Affix }
    requires found { K.KeptFound tray.letters.now tray.ends.now n k nodes work.old }
    requires table { heads ≡ O.heads affix }
    requires can { (w : _) (j : ℕ) → O.Listing affix tray.letters.now tray.ends.now n k nodes w.now (j + 1) → F.pre add w j }
    requires adds { (w : _) (j : ℕ) (r : _) (w' : _) → O.Listing affix tray.letters.now tray.ends.now n k nodes w.now (j + 1) → F.post add w j r w' →
        O.ListedTo affix tray.letters.now tray.ends.now n k nodes w.now j w'.now }
    ensures { O.AffixFilled affix tray.entry.letters.now tray.entry.ends.now n k nodes work.old work.new }
{
    tables::clear(work, heads, nodes + 1);
    for j in (0..k).rev() {
        add(work, j);
    }
}

// Fills all of them. Answers how many members are kept.
pub fn fill_lists(tray: Tray<'_>, work: &mut [u16], n: usize, nodes: usize) -> usize
    requires { Automaton tray.letters.now tray.ends.now n nodes work.old }
    ensures { O.ListsFilled tray.entry.letters.now tray.entry.ends.now n nodes work.old result work.new }
{
    let k = kept_slips::tell_kept(tray, work, n, nodes);
    fill_kind(
        tray,
        work,
        n,
        k,
        nodes,
        layout::STARTS,
        |work, j| add_starts(tray, work, n, k, nodes, j),
    );
    fill_kind(
        tray,
        work,
        n,
        k,
        nodes,
        layout::ENDS,
        |work, j| add_ends(tray, work, n, k, nodes, j),
    );
    k
}
