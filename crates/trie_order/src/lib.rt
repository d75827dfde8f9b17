// The members of a tray in the order of their letters, in a table of the work area.
#![tactic(auto)]

ghost use Rattle.std.specs.Prelude.{◌≡◌, ◌≤◌, ◌<◌, ◌+◌, length};
ghost use Rattle.std.specs.Cmp.Lexicographic.{slice_cmp};
ghost use Rattle.std.specs.Ordering.{nat_cmp};
ghost use Rattle.words.specs.Lists.{in_order, up_from};
ghost use Rattle.trays.specs.Slips.{slip, slips_of};
ghost use Rattle.trays.specs.Faults.{tray_fault};
ghost use Rattle.trays.specs.Limits.{max_slips};
ghost use Rattle.tables.specs.Tables.{table, Filled};
ghost use Rattle.trie_order.specs.Order as O;
ghost use Rattle.trie_order.specs.Steps.Steps.{insert_first, Insertable};

use std::cmp::Ordering;
use trays::Tray;

// A place in the order for typed letters: where the slips that start with them begin, where these end, or where
// the slip of a number that has just these letters stands.
#[derive(Clone, Copy)]
pub enum Bound {
    Lower,
    Upper,
    Number(usize),
}

// How many letters of two strings are compared at once, where both have as many. Where these agree the library compares the rest, in groups. Most strings
// differ before, and there one letter after the other, from the first on, is quicker.
const FIRST_LETTERS: usize = 8;

// The order of two strings, a prefix before its longer words.
#[inline(always)]
fn order(a: &[u8], b: &[u8]) -> Ordering
    ensures { result ≡ slice_cmp nat_cmp a.now b.now }
{
    let shorter = a.len().min(b.len());
    if FIRST_LETTERS <= shorter && b.starts_with(&a[..FIRST_LETTERS]) {
        return a[FIRST_LETTERS..].cmp(&b[FIRST_LETTERS..]);
    }
    for n in 0..shorter {
        if a[n] != b[n] {
            return a[n].cmp(&b[n]);
        }
    }
    a.len().cmp(&b.len())
}

// Whether slip `number` with the letters `slip` stands below a bound of the typed letters.
#[inline(always)]
fn below(slip: &[u8], number: usize, typed: &[u8], bound: Bound) -> bool
    ensures { result ≡ O.below bound typed.now slip.now number }
{
    match order(slip, typed) {
        Ordering::Less => true,
        Ordering::Equal => match bound {
            Bound::Lower => false,
            Bound::Upper => true,
            Bound::Number(k) => number < k,
        },
        Ordering::Greater => matches!(bound, Bound::Upper) && slip.starts_with(typed),
    }
}

// Whether a member of the tray stands below a bound of the typed letters.
#[inline(always)]
pub fn member_below(tray: Tray<'_>, member: usize, typed: &[u8], bound: Bound) -> bool
    requires { ((tray_fault tray.letters.now tray.ends.now).number ≡ 0) × (1 ≤ member) × (member ≤ length tray.ends.now) }
    ensures { result ≡ O.below bound typed.now (slip (slips_of tray.entry.letters.now tray.entry.ends.now) member) member }
{
    below(slips::slip_part(tray, member), member, typed, bound)
}

// How many members of an order stand below a bound of the typed letters: a binary search.
// kept: `partition_point` would ask its test of any number, and `member_below` may be asked of numbers of slips alone
#[inline(always)]
pub fn rank(tray: Tray<'_>, order: &[u16], typed: &[u8], bound: Bound) -> usize
    requires { O.Rankable tray.letters.now tray.ends.now order.now typed.now bound }
    ensures { result ≡ O.rank_of (slips_of tray.entry.letters.now tray.entry.ends.now) order.now typed.now bound }
{
    let mut low = 0;
    let mut high = order.len();
    while low < high {
        let middle = low + (high - low) / 2;
        if member_below(tray, usize::from(order[middle]), typed, bound) {
            low = middle + 1;
        } else {
            high = middle;
        }
    }
    low
}

// Puts the first member into its place among the others, which are in order: behind those that stand below it.
fn insert_first(tray: Tray<'_>, cells: &mut [u16])
    requires { Insertable tray.letters.now tray.ends.now cells.old }
    ensures { cells.new ≡ insert_first (O.precedes (slips_of tray.entry.letters.now tray.entry.ends.now)) cells.old }
{
    let member = usize::from(cells[0]);
    let typed = slips::slip_part(tray, member);
    let k = rank(tray, &cells[1..], typed, Bound::Number(member));
    cells[..=k].rotate_left(1);
}

// Puts the members in order: from the last on, each goes into its place among those after it.
// kept: a sort of the library's would compare any two numbers, and letters may be asked of numbers of slips alone
fn sort(tray: Tray<'_>, cells: &mut [u16])
    requires { O.Sortable tray.letters.now tray.ends.now cells.old }
    ensures { cells.new ≡ in_order (O.precedes (slips_of tray.entry.letters.now tray.entry.ends.now)) cells.old }
{
    for m in (0..cells.len()).rev() {
        insert_first(tray, &mut cells[m..]);
    }
}

// The same for the table of `n` members at `base` of the work area.
pub fn sort_table(tray: Tray<'_>, work: &mut [u16], base: usize, n: usize)
    requires { O.Sortable tray.letters.now tray.ends.now (table work.old base n) × (base + n ≤ length work.old) }
    ensures { Filled base n (in_order (O.precedes (slips_of tray.entry.letters.now tray.entry.ends.now)) (table work.old base n))
        work.old work.new }
{
    sort(tray, &mut work[base..base + n]);
}

// The length of the common prefix of a member and the one before it in an order; 0 for the first.
fn common_at(tray: Tray<'_>, order: &[u16], i: usize) -> usize
    requires { O.Members tray.letters.now tray.ends.now order.now × (i < length order.now) }
    ensures { O.CommonAt (slips_of tray.entry.letters.now tray.entry.ends.now) order.now i result }
{
    if i == 0 {
        return 0;
    }
    let before = slips::slip_part(tray, usize::from(order[i - 1]));
    let here = slips::slip_part(tray, usize::from(order[i]));
    words::common(before, here)
}

// Fills the table at `common` from the order of `n` members at `order`.
pub fn fill_common(tray: Tray<'_>, work: &mut [u16], order: usize, common: usize, n: usize)
    requires { O.Members tray.letters.now tray.ends.now (table work.old order n) × (order + n ≤ common) × (common + n ≤ length work.old) }
    ensures { Filled common n (O.commons (slips_of tray.entry.letters.now tray.entry.ends.now) 0 (table work.old order n))
        work.old work.new }
{
    for i in 0..n {
        let x = common_at(tray, &work[order..order + n], i);
        tables::put(work, common, i, x);
    }
}

// Fills the table at `base` with the numbers 1, 2, .. of `n` slips: all are members.
pub fn fill_members(work: &mut [u16], base: usize, n: usize)
    requires { (base + n ≤ length work.old) × (n ≤ max_slips) }
    ensures { Filled base n (up_from 1 n) work.old work.new }
{
    for i in 0..n {
        tables::put(work, base, i, i + 1);
    }
}
