// One slip of a visit of the walk: the slips at a node, which of them wait, and the join that is made.
#![tactic(auto)]

ghost use Rattle.std.specs.Prelude.{◌≡◌, ◌∷◌, ◌++◌, [], ◌-◌, ◌≤◌, ◌<◌, length, set};
ghost use Rattle.words.specs.Lists.{up_from};
ghost use Rattle.trays.specs.Limits.{max_slips};
ghost use Rattle.greedy.specs.Joins.{join};
ghost use Rattle.greedy.specs.Steps.Scans as S;
ghost use Rattle.layout.specs.Staging.{joins_in};
ghost use Rattle.walk_offer.specs.Steps.Runs as R;
ghost use Rattle.walk_offer.specs.Steps.Offers as O;

use answers::JOIN_CELLS;
use trays::MAX_SLIPS;

// Neighbours, overlaps and the two ends of each chain, in lists of marks: the mark of slip i is the one at i - 1, and 0 means none.
#[derive(Drop)]
pub struct Marks {
    pub left: [u16; MAX_SLIPS],
    pub right: [u16; MAX_SLIPS],
    pub overs: [u16; MAX_SLIPS],
    pub first: [u16; MAX_SLIPS],
    pub last: [u16; MAX_SLIPS],
}

// The mark of slip `i`.
fn mark_of(marks: &[u16], i: usize) -> usize
    requires { (1 ≤ i) × (i ≤ length marks.now) }
    ensures { (result ≡ R.mark marks.now i) × (result < 65536) }
{
    usize::from(marks[i - 1])
}

// Makes `x` the mark of slip `i`.
fn set_mark(marks: &mut [u16], i: usize, x: usize)
    requires { (1 ≤ i) × (i ≤ length marks.old) × (x < 65536) }
    ensures { marks.new ≡ set marks.old (i - 1) x }
{
    marks[i - 1] = x as u16;
}

// Makes each slip its own mark: the end of a chain of one.
pub fn own_marks(marks: &mut [u16])
    requires { length marks.old ≡ max_slips }
    ensures { marks.new ≡ up_from 1 max_slips }
{
    for (i, mark) in marks.iter_mut().enumerate() {
        *mark = (i + 1) as u16;
    }
}

// The slip after `r` among those that begin with a node of `d` letters, 0 for none.
// kept: beside `next_ender`, since each is one line, and one function for both would take the table and the place, which is `tables::at`
pub fn next_starter(work: &[u16], ends: &[u16], d: usize, r: usize) -> usize
    requires sized { O.Sized ends.now work.now d }
    requires real { R.Real ends.now d r }
    ensures { result ≡ R.next_starter work.now ends.now d r }
{
    tables::at(
        work,
        layout::STARTS_NEXT,
        slips::slip_span(ends, r).start + d - 1,
    )
}

// The slip after `l` among those that properly end with a node of `d` letters, 0 for none.
fn next_ender(work: &[u16], ends: &[u16], d: usize, l: usize) -> usize
    requires sized { O.Sized ends.now work.now d }
    requires real { R.Real ends.now d l }
    ensures { result ≡ R.next_ender work.now ends.now d l }
{
    tables::at(work, layout::ENDS_NEXT, slips::slip_span(ends, l).end - d)
}

// The first slip without a right neighbour from `from` on among those that properly end with a node of `d` letters, 0 for none.
// kept: the slips are linked through ENDS_NEXT, which holds 0 for none, and what is found goes back into a walk along it: no range, no Option
pub fn next_free(work: &[u16], ends: &[u16], right: &[u16], d: usize, from: usize) -> usize
    requires { O.Searches ends.now work.now d right.now from }
    ensures { O.FoundPartner ends.now work.now d right.now from result }
{
    let mut l = from;
    while l != 0 {
        if mark_of(right, l) == 0 {
            return l;
        }
        l = next_ender(work, ends, d, l);
    }
    0
}

// The lowest waiting slip, `l`; if that one is `m`, the second lowest. 0 for none.
fn partner(work: &[u16], ends: &[u16], right: &[u16], d: usize, l: usize, m: usize) -> usize
    requires { O.Chooses ends.now work.now d right.now l m }
    ensures { result ≡ O.partner_in right.now (R.enders_from work.now ends.now d l) m }
{
    if l == m {
        next_free(work, ends, right, d, next_ender(work, ends, d, l))
    } else {
        l
    }
}

// Writes the join of `l` and `r` after the first `count`. Answers how many there are then.
fn put_join(work: &mut [u16], count: usize, l: usize, r: usize, d: usize) -> usize
    requires { O.CanJoin work.old count l r d }
    ensures { O.JoinPut work.old count l r d work.new result }
{
    tables::put(work, layout::JOINS, JOIN_CELLS * count, l);
    tables::put(work, layout::JOINS, JOIN_CELLS * count + 1, r);
    tables::put(work, layout::JOINS, JOIN_CELLS * count + 2, d);
    count + 1
}

// The chain that ends in `l` and the chain that `r` begins become one: its ends are marked at each other.
fn join_ends(first: &mut [u16], last: &mut [u16], l: usize, r: usize)
    requires { O.EndsFit first.old last.old l r }
    ensures { O.EndsJoined first.old last.old l r first.new last.new }
{
    let begin = mark_of(first, l);
    let end = mark_of(last, r);
    set_mark(last, begin, end);
    set_mark(first, end, begin);
}

// Joins `r` to the right of `l` by `d` letters. Answers how many joins there are then.
fn make_join(
    work: &mut [u16],
    count: usize,
    l: usize,
    r: usize,
    d: usize,
    marks: &mut Marks,
) -> usize
    requires { O.Joinable work.old count l r d marks.old }
    ensures { O.JoinsMade work.old (joins_in work.old count ++ (join l r d ∷ []))
        work.new marks.new result }
{
    let made = put_join(work, count, l, r, d);
    set_mark(&mut marks.left, r, l);
    set_mark(&mut marks.right, l, r);
    set_mark(&mut marks.overs, l, d);
    join_ends(&mut marks.first, &mut marks.last, l, r);
    made
}

// One slip of a visit: `r`, if it has no left neighbour, is joined to the right of the lowest waiting slip, which is `l`; if that one is the last of
// the chain that `r` begins, of the second lowest; if there is none, it is not joined. Answers how many joins there are then.
pub fn offer(
    work: &mut [u16],
    ends: &[u16],
    d: usize,
    r: usize,
    l: usize,
    count: usize,
    marks: &mut Marks,
) -> usize
    requires { O.Offers ends.now work.old d r l count marks.old }
    ensures { O.JoinsMade work.old
        (S.offer (R.enders_from work.old ends.now d l) d r (joins_in work.old count))
        work.new marks.new result }
{
    if mark_of(&marks.left, r) != 0 {
        return count;
    }
    let chain_end = mark_of(&marks.last, r);
    let best = partner(work, ends, &marks.right, d, l, chain_end);
    if best == 0 {
        return count;
    }
    make_join(work, count, best, r, d, marks)
}
