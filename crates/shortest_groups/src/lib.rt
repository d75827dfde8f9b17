// The search for the best order of at most ten places. Groups of places already laid are marks in one number: place `a` is in the group `g` where the
// bit of `1 << a` is set. For each group and each place of it, laid last, the table says the most that can be saved by laying the others after it.
#![tactic(auto)]

ghost use Rattle.std.specs.Prelude.{◌≡◌, suc, ◌+◌, ◌^◌, ◌≤◌, ◌<◌, eqb, not, replicate};
ghost use Rattle.std.specs.Int.Count.{ones};
ghost use Rattle.words.specs.Lists.{up_from, over};
ghost use Rattle.trays.specs.Limits.{max_shortest};
ghost use Rattle.shortest.specs.Steps.Choosing.{choose};
ghost use Rattle.shortest_groups.specs.Groups.{pairs_of, Paired, Ordered};
ghost use Rattle.shortest_groups.specs.Steps.Marks.{bit};
ghost use Rattle.shortest_groups.specs.Steps.NextPlace.{value_of, place_of, Seeking, StepAsks, BestAsks};
ghost use Rattle.shortest_groups.specs.Steps.Working.{Begun, Filling, Ready, Stored, Storing};

use tables::{at, put};
use trays::MAX_SHORTEST;

// How many places there are at most, and how many cells a row of either table has.
const PLACES: usize = MAX_SHORTEST;

// The start, after which the first place is laid, has the number after the last place.
const START: usize = PLACES;

// The table of pairs: a row for each place and one for the start.
const PAIRS: usize = 0;

// How many cells it has.
pub const PAIR_CELLS: usize = (PLACES + 1) * PLACES;

// The table of groups after it: a row for each group.
const GROUPS: usize = PAIRS + PAIR_CELLS;

// How many cells it has: with ten places there are 1,024 groups.
pub const GROUP_CELLS: usize = PLACES * 1024;

// Whether place `a` is in the group `g`.
fn holds(g: usize, a: usize) -> bool
    requires { a < max_shortest }
    ensures { result ≡ not (eqb (bit g a) 0) }
{
    (g >> a) & 1 != 0
}

// The group of place `a` alone. The groups of the first `a` places are the numbers below it.
fn alone(a: usize) -> usize
    requires { a ≤ max_shortest }
    ensures { (result ≡ 2 ^ a) × (result ≤ 2 ^ max_shortest) }
{
    1 << a
}

// The group `g` with place `a`, which is not in it.
fn marked(g: usize, a: usize) -> usize
    requires { (g < 2 ^ max_shortest) × (a < max_shortest) × (bit g a ≡ 0) }
    ensures { (result ≡ g + 2 ^ a) × (result < 2 ^ max_shortest) }
{
    g + alone(a)
}

// How many places the group `g` has.
fn marks(g: usize) -> usize
    requires { g < 2 ^ max_shortest }
    ensures { result ≡ ones g }
{
    g.count_ones() as usize
}

// A place laid next, and the most that is saved from it on.
#[derive(Clone, Copy)]
struct Choice {
    place: usize,
    saved: usize,
}

// Tries place `j` next, after `a`. It is taken if it is not in the group and saves more than the places before it: of several the lowest stays.
fn step(table: &[u16], g: usize, a: usize, j: usize, found: Option<Choice>) -> Option<Choice>
    requires { StepAsks table.now g a j (value_of found) (place_of found) }
    ensures { Seeking table.now g a (suc j) (value_of result) (place_of result) }
{
    if holds(g, j) {
        return found;
    }
    let group = marked(g, j);
    let here = at(table, PAIRS, PLACES * a + j);
    let behind = at(table, GROUPS, PLACES * group + j);
    let saved = here + behind;
    match found {
        Some(choice) if saved <= choice.saved => found,
        _ => Some(Choice { place: j, saved }),
    }
}

// The place that is best laid next, where those of the group `g` are laid and `a` was the last of them; none where all are laid.
fn best(table: &[u16], k: usize, g: usize, a: usize) -> Option<Choice>
    requires { BestAsks table.now k g a }
    ensures { Seeking table.now g a k (value_of result) (place_of result) }
{
    let mut found = None;
    for j in 0..k {
        found = step(table, g, a, j, found);
    }
    found
}

// Fills the cell of the group `g` and place `a`, if `a` is in `g`. Where all places are laid nothing more is saved.
fn store(table: &mut [u16], k: usize, g: usize, a: usize)
    requires { Ready table.old k g × (a < k) }
    ensures { Stored table.old k g a table.new }
{
    if !holds(g, a) {
        return;
    }
    let saved = match best(table, k, g, a) {
        Some(choice) => choice.saved,
        None => 0,
    };
    put(table, GROUPS, PLACES * g + a, saved);
}

// Fills the row of the group `g`.
fn fill_group(table: &mut [u16], k: usize, g: usize)
    requires { Ready table.old k g }
    ensures { Storing table.old k g k table.new }
{
    for a in 0..k {
        store(table, k, g, a);
    }
}

// The same if `g` has `n` places; nothing otherwise.
fn try_group(table: &mut [u16], k: usize, n: usize, g: usize)
    requires { Begun table.old k n g × (g < 2 ^ k) }
    ensures { Filling table.old k n (suc g) table.new }
{
    if marks(g) == n {
        fill_group(table, k, g);
    }
}

// Fills the rows of all groups of `n` places.
fn fill_count(table: &mut [u16], k: usize, n: usize)
    requires { Begun table.old k n 0 }
    ensures { Filling table.old k n (2 ^ k) table.new }
{
    for g in 0..alone(k) {
        try_group(table, k, n, g);
    }
}

// Fills the table of groups: a row is worked out from those of the groups of one place more, so the groups that leave fewest places come first.
fn fill_groups(table: &mut [u16], k: usize)
    requires { Paired table.old k }
    ensures { Filling table.old k 0 0 table.new }
{
    for n in (1..=k).rev() {
        fill_count(table, k, n);
    }
}

// Reads the order forward, from the start and the group of no place.
fn read_order(table: &[u16], k: usize) -> [u16; MAX_SHORTEST]
    requires { Begun table.now k 0 0 }
    ensures { result ≡ over (choose (pairs_of table.now) k max_shortest (up_from 0 k)) (replicate max_shortest 0) }
{
    let mut order = [0u16; MAX_SHORTEST];
    let mut g: usize = 0;
    let mut a: usize = START;
    for i in 0..k {
        a = best(table, k, g, a).unwrap().place;
        order[i] = a as u16;
        g = marked(g, a);
    }
    order
}

// The order of the first `k` places that saves most; of several the one that is smallest as a list. The table of pairs is given, that of groups is filled.
pub fn best_order(table: &mut [u16], k: usize) -> [u16; MAX_SHORTEST]
    requires { Paired table.old k }
    ensures { Ordered table.old k table.new result }
{
    fill_groups(table, k);
    read_order(table, k)
}
