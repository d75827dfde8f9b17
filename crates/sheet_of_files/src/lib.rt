// From the bytes of a program's files to the whole sheet that it prints.
#![tactic(auto)]

ghost use Rattle.sheet_rule.specs.Lent.{ComposeRoom, FindRoom, ComposeSheetSays, FindSheetSays};

use sheet_rule::MAX_FOUND;

// How many numbers the occurrences that `find` lists have, two each.
pub const LISTED: usize = 2 * MAX_FOUND;

// The sheets that `compose` prints for a tray file. Letters, ends, sides, work area and legend are lent for the work.
pub fn compose_sheet(
    file: &[u8],
    letters: &mut [u8],
    ends: &mut [u16],
    sides: &mut [u8],
    work: &mut [u16],
    legend: &mut [u8],
    out: &mut [u8],
) -> usize
    requires { ComposeRoom letters.old ends.old sides.old work.old legend.old out.old }
    ensures { ComposeSheetSays file.now letters.old letters.new ends.old ends.new
        sides.old sides.new work.old work.new legend.old legend.new
        out.old out.new result }
{
    let read = match file_read::read_tray(file, letters, ends, sides) {
        Ok(size) => size,
        Err(refused) => return sheet_lines::fault_line(refused, out),
    };
    let n = read.letters as usize;
    let k = read.slips as usize;
    sheet_of_tray::tray_sheets(&letters[..n], &ends[..k], &sides[..k], work, legend, out)
}

// The sheet that `find` prints for a tray file and a text file. Letters, ends, sides, work area and occurrences are lent for the work; the sides are read
// and left, since finding takes none. The text is folded where it stands.
pub fn find_sheet(
    tray: &[u8],
    text: &mut [u8],
    letters: &mut [u8],
    ends: &mut [u16],
    sides: &mut [u8],
    work: &mut [u16],
    found: &mut [u32],
    out: &mut [u8],
) -> usize
    requires { FindRoom letters.old ends.old sides.old work.old found.old out.old }
    ensures { FindSheetSays tray.now text.old text.new letters.old letters.new
        ends.old ends.new sides.old sides.new work.old work.new
        found.old found.new out.old out.new result }
{
    let read = match file_read::read_tray(tray, letters, ends, sides) {
        Ok(size) => size,
        Err(fault) => return sheet_lines::fault_line(fault, out),
    };
    let n = read.letters as usize;
    let k = read.slips as usize;
    let m = sheet_of_text::file_text(text);
    sheet_of_text::text_sheet(
        &letters[..n],
        &ends[..k],
        &text[..m],
        work,
        &mut found[..LISTED],
        out,
    )
}
