// Parents and children of the nodes of the prefix automaton, in tables of the lent work area.
// A tray has `letters` and `ends`; its `n` members stand in the work area, and the nodes of their beginnings have the numbers up to `nodes`.
#![tactic(auto)]

ghost use Rattle.std.specs.Prelude.{◌≡◌, ◌&&◌, ℕ, ◌+◌, ◌*◌, ◌-◌, ◌≤◌, ◌<◌, leb, ltb};
ghost use Rattle.layout.specs.Layout.{near_nodes, near_letters, first_sign};
ghost use Rattle.layout.specs.Tables.{Child};
ghost use Rattle.layout.specs.Numbered.{patterns_in, Numbered, Branched};
ghost use Rattle.trie_children.specs.Children as C;

use trays::Tray;

// The node of the string of node `u` without its last letter: it stands one letter before, wherever node `u` stands.
pub fn parent(work: &[u16], u: usize) -> usize
    requires { C.ParentCells work.now u }
    ensures { result ≡ C.parent_of work.now u }
{
    let longer = tables::at(work, layout::LEVEL, 2);
    if u < longer {
        return 0;
    }
    let place = tables::at(work, layout::OWN, u);
    tables::at(work, layout::AT, place - 1)
}

// The last letter of the string of node `u`.
pub fn letter(letters: &[u8], work: &[u16], u: usize) -> u8
    requires { C.Lettered letters.now work.now u }
    ensures { result ≡ C.letter_of letters.now work.now u }
{
    let place = tables::at(work, layout::OWN, u);
    letters[place]
}

// Whether `u` is a node whose parent has a lower number than `v`.
fn hangs_below(work: &[u16], nodes: usize, u: usize, v: usize) -> bool
    requires { u ≤ nodes → C.ParentCells work.now u }
    ensures { result ≡ leb u nodes && ltb (C.parent_of work.now u) v }
{
    u <= nodes && parent(work, u) < v
}

// Fills KID: parents ascend with their children, so the children of `v` begin at the first node whose parent is not below `v`.
// kept: the search for it goes on from where the last one stopped, so that all nodes are passed once
pub fn fill_kids(tray: Tray<'_>, work: &mut [u16], n: usize, nodes: usize)
    requires { Numbered tray.letters.now tray.ends.now n nodes work.old }
    ensures { C.KidsFilled tray.entry.letters.now tray.entry.ends.now n nodes work.old work.new }
{
    let mut u = 1;
    for v in 0..nodes + 2 {
        while hangs_below(work, nodes, u, v) {
            u += 1;
        }
        tables::put(work, layout::KID, v, u);
    }
}

// The node of the string of node `v` with the letter `c`, or 0 if that is no node. Children ascend by their letters.
// kept: 0 is the root, which is no child; the tables hold it for none, and `Child` says so
fn scan_child(tray: Tray<'_>, work: &[u16], n: usize, nodes: usize, v: usize, c: u8) -> usize
    requires branched { Branched tray.letters.now tray.ends.now n nodes work.now }
    requires v_le_nodes { v ≤ nodes }
    ensures { Child (patterns_in tray.entry.letters.now tray.entry.ends.now n work.now) v c result }
{
    let start = tables::at(work, layout::KID, v);
    let end = tables::at(work, layout::KID, v + 1);
    for u in start..end {
        let b = letter(tray.letters, work, u);
        if b == c {
            return u;
        }
        if c < b {
            return 0;
        }
    }
    0
}

// The cell of NEAR for node `v` and the letter `c`.
fn near_cell(v: usize, c: u8) -> usize
    requires v_lt_near_nodes { v < near_nodes }
    requires first_sign_le_c { first_sign ≤ c }
    ensures { result ≡ near_letters * v + (c - first_sign) }
{
    let sign = c - layout::FIRST_SIGN;
    layout::NEAR_LETTERS * v + usize::from(sign)
}

// The row of NEAR for node `v`, filled by scans.
fn fill_row(tray: Tray<'_>, work: &mut [u16], n: usize, nodes: usize, v: usize)
    requires { C.CanFill tray.letters.now tray.ends.now n nodes work.old v }
    ensures { C.RowFilled tray.entry.letters.now tray.entry.ends.now n nodes v work.old work.new }
{
    for c in layout::FIRST_SIGN..=layout::LAST_SIGN {
        let u = scan_child(tray, work, n, nodes, v, c);
        tables::put(work, layout::NEAR, near_cell(v, c), u);
    }
}

// Fills NEAR, for the root and the nodes next to it: most steps look at these.
pub fn fill_near(tray: Tray<'_>, work: &mut [u16], n: usize, nodes: usize)
    requires { Branched tray.letters.now tray.ends.now n nodes work.old }
    ensures { C.NearFilled tray.entry.letters.now tray.entry.ends.now n nodes work.old work.new }
{
    for v in 0..layout::NEAR_NODES.min(nodes + 1) {
        fill_row(tray, work, n, nodes, v);
    }
}

// The child of node `v` by the letter `c`, or 0 if there is none: looked up near the root, found by a scan elsewhere.
pub fn child(tray: Tray<'_>, work: &[u16], n: usize, nodes: usize, v: usize, c: u8) -> usize
    requires { C.CanLook tray.letters.now tray.ends.now n nodes work.now v }
    ensures { Child (patterns_in tray.entry.letters.now tray.entry.ends.now n work.now) v c result }
{
    if v < layout::NEAR_NODES && (layout::FIRST_SIGN..=layout::LAST_SIGN).contains(&c) {
        return tables::at(work, layout::NEAR, near_cell(v, c));
    }
    scan_child(tray, work, n, nodes, v, c)
}
