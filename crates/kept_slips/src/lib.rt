// Which members are kept, read off the automaton: a member is set aside where its node has a child, or is a failure link, or is that of a lower member.
#![tactic(auto)]

ghost use Rattle.std.specs.Prelude.{◌≡◌};
ghost use Rattle.trays.specs.Slips.{slips_of};
ghost use Rattle.trays.specs.Aside.{is_aside};
ghost use Rattle.layout.specs.Tables.{members};
ghost use Rattle.layout.specs.Numbered.{Automaton, Headed};
ghost use Rattle.kept_slips.specs.Steps.Kept as K;

use trays::Tray;

// Fills MARK.
fn fill_marks(tray: Tray<'_>, work: &mut [u16], n: usize, nodes: usize)
    requires { Headed tray.letters.now tray.ends.now n nodes work.old }
    ensures { K.MarksFilled tray.entry.letters.now tray.entry.ends.now n nodes work.old work.new }
{
    tables::clear(work, layout::MARK, nodes + 1);
    for v in 1..=nodes {
        let u = tables::at(work, layout::FAIL, v);
        tables::put(work, layout::MARK, u, 1);
    }
}

// Whether member `i` is set aside: its node has a child, or is a failure link, or is that of a lower member.
fn is_aside(tray: Tray<'_>, work: &[u16], n: usize, nodes: usize, i: usize) -> bool
    requires { K.Judged tray.letters.now tray.ends.now n nodes work.now i }
    ensures { result ≡ is_aside (slips_of tray.entry.letters.now tray.entry.ends.now) (members work.now n) i }
{
    let f = trie_heads::node_of(tray, work, n, nodes, i);
    tables::at(work, layout::KID, f) < tables::at(work, layout::KID, f + 1)
        || tables::at(work, layout::MARK, f) == 1
        || tables::at(work, layout::HEAD, f) != i
}

// Fills KEPT with the members that are not set aside. Answers how many there are.
fn fill_kept(tray: Tray<'_>, work: &mut [u16], n: usize, nodes: usize) -> usize
    requires { K.Marked tray.letters.now tray.ends.now n nodes work.old }
    ensures { K.KeptFilled tray.entry.letters.now tray.entry.ends.now n nodes work.old result work.new }
{
    let mut k: usize = 0;
    for j in 0..n {
        let i = tables::at(work, layout::MEMBERS, j);
        if is_aside(tray, work, n, nodes, i) {
            continue;
        }
        tables::put(work, layout::KEPT, k, i);
        k += 1;
    }
    k
}

// All of it, from the automaton alone: HEAD and TWIN, MARK, KEPT. Answers how many members are kept.
pub fn tell_kept(tray: Tray<'_>, work: &mut [u16], n: usize, nodes: usize) -> usize
    requires { Automaton tray.letters.now tray.ends.now n nodes work.old }
    ensures { K.KeptTold tray.entry.letters.now tray.entry.ends.now n nodes work.old result work.new }
{
    trie_heads::fill_heads(tray, work, n, nodes);
    fill_marks(tray, work, n, nodes);
    fill_kept(tray, work, n, nodes)
}
