// Joins and records of places as structs: taken from where composing stages them in the work area, and stored into lent lists.
#![tactic(auto)]

ghost use Rattle.std.specs.Prelude.{◌≡◌, ◌≤◌, ◌<◌, ◌+◌, ◌-◌, ◌*◌, length};
ghost use Rattle.words.specs.Lists.{over};
ghost use Rattle.store_loops.specs.Firsts.{firsts};
ghost use Rattle.layout.specs.Layout as L;
ghost use Rattle.answers.specs.Composing.{join_cells, record_cells};
ghost use Rattle.compose_store.specs.Steps.Made as M;

use answers::{JOIN_CELLS, Join, Place, RECORD_CELLS};
use layout::{NAMED, RECORDS};

// Join i of those staged in the work area.
fn join_at(work: &[u16], i: usize) -> Join
    requires { join_cells * (i + 1) ≤ length work.now - L.NAMED }
    ensures { result ≡ M.join_at work.now i }
{
    let at = JOIN_CELLS * i;
    Join {
        left: work[NAMED + at],
        right: work[NAMED + (at + 1)],
        overlap: work[NAMED + (at + 2)],
    }
}

// Record i of those staged in the work area.
fn place_at(work: &[u16], i: usize) -> Place
    requires { (record_cells * (i + 1) ≤ length work.now - L.RECORDS) × M.SideFits work.now i }
    ensures { result ≡ M.place_at work.now i }
{
    let at = RECORD_CELLS * i;
    let kept = work[RECORDS + (at + 2)];
    let side = work[RECORDS + (at + 4)];
    Place {
        slip: work[RECORDS + at],
        place: work[RECORDS + (at + 1)],
        kept: kept == 1,
        compared: work[RECORDS + (at + 3)],
        side: side as u8,
    }
}

// The first `count` staged joins, stored from the start of the list.
pub fn store_joins(work: &[u16], joins: &mut [Join], count: usize)
    requires { (count ≤ length joins.old) × (join_cells * count ≤ length work.now - L.NAMED) }
    ensures { joins.new ≡ over (firsts (M.join_at work.now) count) joins.old }
{
    for (i, join) in joins[..count].iter_mut().enumerate() {
        *join = join_at(work, i);
    }
}

// The first `count` staged records, stored from the start of the list.
pub fn store_places(work: &[u16], places: &mut [Place], count: usize)
    requires { (count ≤ length places.old) × ((record_cells * count ≤ length work.now - L.RECORDS) × M.SidesFit work.now count) }
    ensures { places.new ≡ over (firsts (M.place_at work.now) count) places.old }
{
    for (i, place) in places[..count].iter_mut().enumerate() {
        *place = place_at(work, i);
    }
}
