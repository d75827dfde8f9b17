// From the letters, ends and sides of a tray to its sheets, one for each side that has slips.
#![tactic(auto)]

ghost use Rattle.std.specs.Prelude.{◌≡◌, ◌+◌, ◌≤◌, length};
ghost use Rattle.trays.specs.Limits.{max_slips};
ghost use Rattle.sheet_rule.specs.Sheets.{sheet_room};
ghost use Rattle.sheet_rule.specs.Sides.{is_shown};
ghost use Rattle.sheet_rule.specs.Lent.{TrayRoom};
ghost use Rattle.sheet_of_tray.specs.Steps.Lent.{SideRoom, SideSheetSays, SheetAdded, TraySheetsSays};

use answers::{Composed, JOIN_CELLS, RECORD_CELLS, Room};
use layout::{NAMED, RECORDS};
use sheet_rule::SHEET_ROOM;
use trays::{BLANK_SIDE, MAX_SLIPS, OBVERSE, REVERSE, Settings};

// This many joins and records of places are taken: no accepted tray has more.
const ROWS: usize = MAX_SLIPS;

// The sheet of one side of an accepted tray, composed with a least overlap of 1. Answers how many bytes it has.
fn side_sheet(
    letters: &[u8],
    ends: &[u16],
    sides: &[u8],
    side: u8,
    work: &mut [u16],
    legend: &mut [u8],
    out: &mut [u8],
) -> usize
    requires side_room { SideRoom letters.now ends.now sides.now side work.old legend.old }
    requires sheet_room_in_bounds { sheet_room ≤ length out.old }
    ensures { SideSheetSays letters.now ends.now sides.now side work.old work.new
        legend.old legend.new out.old out.new result }
{
    let settings = Settings { least: 1, side };
    let room = Room {
        joins: ROWS,
        places: ROWS,
    };
    let staged = compose_side::compose_staged(letters, ends, sides, settings, work, legend, room);
    let c = Composed::from(staged);
    let joins = JOIN_CELLS * c.joins as usize;
    let records = RECORD_CELLS * c.slips as usize;
    let text = c.legend as usize;
    sheet_lines::compose_lines(
        side,
        c,
        ends,
        &work[NAMED..NAMED + joins],
        &work[RECORDS..RECORDS + records],
        &legend[..text],
        out,
    )
}

// Whether a side has a sheet: it has slips, or it is the blank one and the tray is empty.
fn is_shown(sides: &[u8], side: u8) -> bool
    requires { length sides.now ≤ max_slips }
    ensures { result ≡ is_shown sides.now side }
{
    let own = tray_cut::side_slips(sides, side);
    if own.count != 0 {
        return true;
    }
    if side != BLANK_SIDE {
        return false;
    }
    sides.len() == 0
}

// Writes the sheet of one side of an accepted tray, if it has one, after the first `at` bytes. Answers where the next byte goes.
fn add_sheet(
    letters: &[u8],
    ends: &[u16],
    sides: &[u8],
    side: u8,
    work: &mut [u16],
    legend: &mut [u8],
    out: &mut [u8],
    at: usize,
) -> usize
    requires side_room { SideRoom letters.now ends.now sides.now side work.old legend.old }
    requires sheet_room_in_bounds { at + sheet_room ≤ length out.old }
    ensures { SheetAdded letters.now ends.now sides.now side work.old work.new
        legend.old legend.new out.old out.new at result }
{
    let shown = is_shown(sides, side);
    if shown {
        let end = at + SHEET_ROOM;
        let n = side_sheet(letters, ends, sides, side, work, legend, &mut out[at..end]);
        return at + n;
    }
    at
}

// The sheets of a tray, or the line of its refusal alone: tray and sides are judged before the first sheet. Answers how many bytes were written.
pub fn tray_sheets(
    letters: &[u8],
    ends: &[u16],
    sides: &[u8],
    work: &mut [u16],
    legend: &mut [u8],
    out: &mut [u8],
) -> usize
    requires { TrayRoom work.old legend.old out.old }
    ensures { TraySheetsSays letters.now ends.now sides.now work.old work.new
        legend.old legend.new out.old out.new result }
{
    if let Err(fault) = tray_check::check_sided_tray(letters, ends, sides, 1, BLANK_SIDE) {
        return sheet_lines::fault_line(fault, out);
    }
    let first = add_sheet(letters, ends, sides, BLANK_SIDE, work, legend, out, 0);
    let second = add_sheet(letters, ends, sides, OBVERSE, work, legend, out, first);
    add_sheet(letters, ends, sides, REVERSE, work, legend, out, second)
}
