// The walk of the rules over the tables of the automaton in the lent work area: it makes the joins.
#![tactic(auto)]

ghost use Rattle.std.specs.Prelude.{◌≤◌};
ghost use Rattle.greedy.specs.Steps.Scans as S;
ghost use Rattle.layout.specs.Staging.{joins_in};
ghost use Rattle.walk_offer.specs.Steps.Runs as R;
ghost use Rattle.walk_offer.specs.Steps.Offers as O;
ghost use Rattle.walk.specs.Steps.Walking as W;

use trays::{MAX_SLIP, Tray};
use walk_offer::Marks;

// Visits node `v`, of `d` letters: each slip that begins with it is offered to those that properly end with it. These are passed for good once
// they have a right neighbour.
fn visit(
    work: &mut [u16],
    ends: &[u16],
    d: usize,
    v: usize,
    count: usize,
    marks: &mut Marks,
) -> usize
    requires { W.Visits ends.now work.old d v count marks.old }
    ensures { O.JoinsMade work.old
        (S.scan (R.enders_at work.old ends.now d v) d (R.starters_at work.old ends.now d v)
        (joins_in work.old count))
        work.new marks.new result }
{
    let mut made = count;
    let mut l = tables::at(work, layout::ENDS, v);
    let mut r = tables::at(work, layout::STARTS, v);
    // kept: the slips are linked through STARTS_NEXT, so there is no range to go over
    while r != 0 {
        l = walk_offer::next_free(work, ends, &marks.right, d, l);
        made = walk_offer::offer(work, ends, d, r, l, made, marks);
        r = walk_offer::next_starter(work, ends, d, r);
    }
    made
}

// Of the nodes of `d` letters, which are enough, up to `end`, the first that counts: the first of all or the second. They stand in byte order and the stop
// is the lowest sign, so only the first can be of stops alone.
fn first_counted(
    tray: Tray<'_>,
    work: &[u16],
    n: usize,
    nodes: usize,
    d: usize,
    end: usize,
) -> usize
    requires { W.RowEnds tray.letters.now tray.ends.now n nodes work.now d end }
    ensures { W.CountedFrom tray.entry.letters.now tray.entry.ends.now n work.now d end result }
{
    let v = tables::at(work, layout::LEVEL, d);
    if end <= v {
        return v;
    }
    let after = tables::at(work, layout::OWN, v) + 1;
    if trays::not_stops(&tray.letters[after - d..after]) {
        v
    } else {
        v + 1
    }
}

// Visits the nodes of `d` letters that count, in byte order.
fn walk_row(
    tray: Tray<'_>,
    work: &mut [u16],
    n: usize,
    k: usize,
    nodes: usize,
    d: usize,
    count: usize,
    marks: &mut Marks,
) -> usize
    requires { W.RowAsks tray.letters.now tray.ends.now n k nodes work.old d count marks.old }
    ensures { O.JoinsMade work.old (W.row_walked tray.entry.letters.now tray.entry.ends.now n k work.old d count)
        work.new marks.new result }
{
    let mut made = count;
    let end = tables::at(work, layout::LEVEL, d + 1);
    for v in first_counted(tray, work, n, nodes, d, end)..end {
        made = visit(work, tray.ends, d, v, made, marks);
    }
    made
}

// The walk: the nodes of ever fewer letters, down to the least overlap. Answers how many joins it has made.
pub fn walk(
    tray: Tray<'_>,
    work: &mut [u16],
    n: usize,
    k: usize,
    nodes: usize,
    least: usize,
    marks: &mut Marks,
) -> usize
    requires le_least { 1 ≤ least }
    requires walkable { W.Walkable tray.letters.now tray.ends.now n k nodes work.old }
    requires fresh { W.Fresh marks.old }
    ensures { W.Walked least tray.entry.letters.now tray.entry.ends.now k
        work.old work.new marks.new result }
{
    walk_offer::own_marks(&mut marks.first);
    walk_offer::own_marks(&mut marks.last);
    let mut made: usize = 0;
    for d in (least..=MAX_SLIP).rev() {
        made = walk_row(tray, work, n, k, nodes, d, made, marks);
    }
    made
}
