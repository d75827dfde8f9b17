// Joins and records of places of a tray that was cut out of another, told by the numbers that its slips have in that other tray. Composing stages both by
// the numbers of the cut tray; `slips` lists the other numbers, that of slip 1 first.
#![tactic(auto)]

ghost use Rattle.std.specs.Prelude.{[], ◌∷◌, ◌*◌};
ghost use Rattle.answers.specs.Composing.{join_cells, record_cells};
ghost use Rattle.layout.specs.Layout as L;
ghost use Rattle.compose_names.specs.Steps.Naming as N;

use answers::{JOIN_CELLS, PLACE_CELLS, RECORD_CELLS};
use layout::{JOINS, NAMED, PLACES, RECORDS};
use tables::{at, put};

// Puts three numbers after the first `n` cells of the table at `base`.
fn put_three(work: &mut [u16], base: usize, n: usize, a: usize, b: usize, c: usize)
    requires { N.RowAsks base n (a ∷ (b ∷ (c ∷ []))) work.old }
    ensures { N.RowPut base n (a ∷ (b ∷ (c ∷ []))) work.old work.new }
{
    put(work, base, n, a);
    put(work, base, n + 1, b);
    put(work, base, n + 2, c);
}

// Puts join `i` of those staged into the table NAMED, its slips by their numbers in `slips`.
fn name_join(work: &mut [u16], slips: &[u16], i: usize)
    requires { N.JoinAsks work.old slips.now i }
    ensures { N.RowPut L.NAMED (join_cells * i) (N.named_in work.old slips.now i) work.old
        work.new }
{
    let row = JOIN_CELLS * i;
    let left = at(work, JOINS, row);
    let right = at(work, JOINS, row + 1);
    let overlap = at(work, JOINS, row + 2);
    let left_number = tray_cut::number_of(slips, left);
    let right_number = tray_cut::number_of(slips, right);
    put_three(work, NAMED, row, left_number, right_number, overlap);
}

// Puts the first `count` staged joins into the table NAMED, their slips by their numbers in `slips`.
pub fn name_joins(work: &mut [u16], slips: &[u16], count: usize)
    requires { N.NamesAsk work.old slips.now count }
    ensures { N.JoinsNamed slips.now count work.old work.new }
{
    for i in 0..count {
        name_join(work, slips, i);
    }
}

// Puts the record of slip `i + 1` into the table RECORDS: its number in `slips`, its place as staged, and its side.
fn make_record(work: &mut [u16], slips: &[u16], side: u8, i: usize)
    requires { N.RecordAsks work.old slips.now i }
    ensures { N.RowPut L.RECORDS (record_cells * i) (N.record_in work.old slips.now side i) work.old
        work.new }
{
    let from = PLACE_CELLS * i;
    let place = at(work, PLACES, from);
    let kept = at(work, PLACES, from + 1);
    let compared = at(work, PLACES, from + 2);
    let slip = i + 1;
    let number = tray_cut::number_of(slips, slip);
    let row = RECORD_CELLS * i;
    put(work, RECORDS, row, number);
    put_three(work, RECORDS, row + 1, place, kept, compared);
    put(work, RECORDS, row + 1 + PLACE_CELLS, side as usize);
}

// Puts the records of the first `count` slips, all of one side, into the table RECORDS.
pub fn make_records(work: &mut [u16], slips: &[u16], side: u8, count: usize)
    requires { N.RecordsAsk work.old slips.now count }
    ensures { N.RecordsMade slips.now side count work.old work.new }
{
    for i in 0..count {
        make_record(work, slips, side, i);
    }
}
