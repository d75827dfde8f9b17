// Lines and whole sheets, written into a lent buffer.
#![tactic(auto)]

ghost use Rattle.std.specs.Prelude.{◌≡◌, ◌+◌, ◌*◌, ◌^◌, ◌≤◌, ◌<◌, length};
ghost use Rattle.trays.specs.Faults.{refusal};
ghost use Rattle.trays.specs.Told.{told};
ghost use Rattle.sheet_rule.specs.Sheets as S;
ghost use Rattle.sheet_columns.specs.Steps.Wrote.{Room, Writes};
ghost use Rattle.sheet_rule.specs.Lent as L;
ghost use Rattle.sheet_lines.specs.Steps.Lines as P;

use answers::{Composed, JOIN_CELLS, RECORD_CELLS};
use file_rule::{BLANK, LF};
use sheet_columns::Sheet;
use trays::{BLANK_SIDE, Fault, Refusal};

// Columns of a slip's number or length, of a count of slips, and of a refusal's number.
const SLIP_WIDTH: usize = 4;

// Columns of a count of letters, and of a place in a legend.
const SUM_WIDTH: usize = 5;

// Columns of the letters, moves and end places of `find`.
const PLACE_WIDTH: usize = 4;

// Columns of the occurrences of `find`.
const COUNT_WIDTH: usize = 6;

// Columns of a refusal's detail.
const DETAIL_WIDTH: usize = 6;

// Three numbers, each in `width` columns.
fn put_three(sheet: &mut Sheet, width: usize, a: usize, b: usize, c: usize)
    requires { (1 ≤ width) × (a < 10 ^ width) × (b < 10 ^ width) × (c < 10 ^ width) × Room (width + (width + width)) sheet.old }
    ensures { Writes (width + (width + width)) (P.three_columns width a b c) sheet.old sheet.new }
{
    sheet.number(width, a);
    sheet.number(width, b);
    sheet.number(width, c);
}

// The end of a header: for O and R a blank and the letter, then LF.
fn put_end(sheet: &mut Sheet, side: u8)
    requires { Room P.end_room sheet.old }
    ensures { P.Ended side sheet.old sheet.new }
{
    if side != BLANK_SIDE {
        sheet.byte(BLANK);
        sheet.byte(side);
    }
    sheet.byte(LF);
}

// The header of a side's sheet.
fn tray_line(sheet: &mut Sheet, side: u8, c: Composed)
    requires { P.HeaderFits c × Room S.side_size sheet.old }
    ensures { P.Headed side c sheet.old sheet.new }
{
    let letters = c.letters as usize;
    let saved = c.saved as usize;
    let legend = c.legend as usize;
    sheet.text(b"TRAY");
    sheet.number(SLIP_WIDTH, c.slips as usize);
    sheet.number(SLIP_WIDTH, c.kept as usize);
    put_three(sheet, SUM_WIDTH, letters, saved, legend);
    put_end(sheet, side);
}

fn slip_line(sheet: &mut Sheet, slip: usize, letters: usize, place: usize, mark: usize)
    requires { (slip < 10 ^ 4) × (letters < 10 ^ 4) × (place < 10 ^ 5) × Room S.slip_size sheet.old }
    ensures { Writes S.slip_size (S.slip_line slip letters place (S.sign_of mark)) sheet.old sheet.new }
{
    sheet.number(SLIP_WIDTH, slip);
    sheet.number(SLIP_WIDTH, letters);
    sheet.number(SUM_WIDTH, place);
    sheet.byte(BLANK);
    sheet.byte(sheet_columns::sign(mark));
    sheet.byte(LF);
}

// A line for each of `n` records of places, from `RECORD_CELLS` numbers a record: slip, place, 1 if it is kept. The ends tell how long a slip is.
fn slip_lines(sheet: &mut Sheet, ends: &[u16], records: &[u16], n: usize)
    requires { P.SlipsFit ends.now records.now n × Room (S.slip_size * n) sheet.old }
    ensures { Writes (S.slip_size * n) (S.lines (S.slip_line_at ends.now records.now) n) sheet.old sheet.new }
{
    for i in 0..n {
        let k = RECORD_CELLS * i;
        let slip = usize::from(records[k]);
        let place = usize::from(records[k + 1]);
        let mark = usize::from(records[k + 2]);
        let span = slips::slip_span(ends, slip);
        slip_line(sheet, slip, span.end - span.start, place, mark);
    }
}

// The line of a join: three numbers in 4 columns each.
fn join_line(sheet: &mut Sheet, left: usize, right: usize, shared: usize)
    requires { (left < 10 ^ 4) × (right < 10 ^ 4) × (shared < 10 ^ 4) × Room S.join_size sheet.old }
    ensures { Writes S.join_size (S.join_line left right shared) sheet.old sheet.new }
{
    put_three(sheet, SLIP_WIDTH, left, right, shared);
    sheet.byte(LF);
}

// A line for each of `n` joins, from `JOIN_CELLS` numbers a join: left slip, right slip, overlap.
fn join_lines(sheet: &mut Sheet, joins: &[u16], n: usize)
    requires { P.JoinsFit joins.now n × Room (S.join_size * n) sheet.old }
    ensures { Writes (S.join_size * n) (S.lines (S.join_line_at joins.now) n) sheet.old sheet.new }
{
    for i in 0..n {
        let k = JOIN_CELLS * i;
        let left = usize::from(joins[k]);
        let right = usize::from(joins[k + 1]);
        let shared = usize::from(joins[k + 2]);
        join_line(sheet, left, right, shared);
    }
}

// The sheet of one side, from the numbers of the answer, the ends of the whole tray, joins, records of places and the legend. Answers how many bytes it has.
pub fn compose_lines(
    side: u8,
    c: Composed,
    ends: &[u16],
    joins: &[u16],
    records: &[u16],
    legend: &[u8],
    out: &mut [u8],
) -> usize
    requires { P.ComposeAsks c ends.now joins.now records.now legend.now (length out.old) }
    ensures { L.Printed (S.compose_lines side c ends.now joins.now records.now legend.now)
        out.old out.new result }
{
    let mut sheet = Sheet { out, at: 0 };
    tray_line(&mut sheet, side, c);
    slip_lines(&mut sheet, ends, records, c.slips as usize);
    join_lines(&mut sheet, joins, c.joins as usize);
    sheet.text(legend);
    sheet.byte(LF);
    sheet.at
}

// The header of a `find` sheet.
fn find_line(sheet: &mut Sheet, letters: usize, moves: usize, count: usize)
    requires { (letters < 10 ^ S.place_width) × (moves < 10 ^ S.place_width) × (count < 10 ^ S.count_width) × Room S.find_size sheet.old }
    ensures { Writes S.find_size (S.find_line letters moves count) sheet.old sheet.new }
{
    sheet.text(b"FIND");
    sheet.number(PLACE_WIDTH, letters);
    sheet.number(PLACE_WIDTH, moves);
    sheet.number(COUNT_WIDTH, count);
    sheet.byte(LF);
}

fn found_line(sheet: &mut Sheet, end: usize, found: usize)
    requires { (end < 10 ^ S.place_width) × (found < 10 ^ 4) × Room S.found_size sheet.old }
    ensures { Writes S.found_size (S.found_line end found) sheet.old sheet.new }
{
    sheet.number(PLACE_WIDTH, end);
    sheet.number(SLIP_WIDTH, found);
    sheet.byte(LF);
}

// A line for each of `count` occurrences, from two numbers an occurrence: end place, slip.
fn found_lines(sheet: &mut Sheet, found: &[u32], count: usize)
    requires { P.FoundFit found.now count × Room (S.found_size * count) sheet.old }
    ensures { Writes (S.found_size * count) (S.lines (S.found_line_at found.now) count) sheet.old sheet.new }
{
    for i in 0..count {
        let k = 2 * i;
        found_line(sheet, found[k] as usize, found[k + 1] as usize);
    }
}

// The sheet of `find`, from the numbers of letters, moves and occurrences. Answers how many bytes it has.
pub fn find_lines(
    letters: usize,
    moves: usize,
    count: usize,
    found: &[u32],
    out: &mut [u8],
) -> usize
    requires { P.FindAsks letters moves count found.now (length out.old) }
    ensures { L.Printed (S.find_lines letters moves count found.now) out.old out.new result }
{
    let mut sheet = Sheet { out, at: 0 };
    find_line(&mut sheet, letters, moves, count);
    found_lines(&mut sheet, found, count);
    sheet.at
}

// The line of a refusal by its number and detail. Answers how many bytes it has.
pub fn refused_line(number: u8, detail: u32, out: &mut [u8]) -> usize
    requires { (detail < 10 ^ S.detail_width) × (S.refused_size ≤ length out.old) }
    ensures { L.Printed (S.refused_line (refusal number detail)) out.old out.new result }
{
    let mut sheet = Sheet { out, at: 0 };
    sheet.text(b"REFUSED");
    sheet.number(SLIP_WIDTH, usize::from(number));
    sheet.number(DETAIL_WIDTH, detail as usize);
    sheet.byte(LF);
    sheet.at
}

// The line of a fault, as a refusal.
pub fn fault_line(fault: Fault, out: &mut [u8]) -> usize
    requires { ((told fault).detail < 10 ^ S.detail_width) × (S.refused_size ≤ length out.old) }
    ensures { L.Printed (S.refused_line (told fault)) out.old out.new result }
{
    let told = Refusal::from(fault);
    refused_line(told.number, told.detail, out)
}
