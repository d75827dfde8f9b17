// From a tray and a text to their sheet, and the text in the bytes of a text file.
#![tactic(auto)]

ghost use Rattle.sheet_of_text.specs.Steps.Lent.{TextRoom, TextSheetSays, Trimmed, Filed};

use file_rule::LF;

// The length of the text in a text file: one final LF is not counted.
fn text_length(text: &[u8]) -> usize
    ensures { Trimmed text.now result }
{
    let n = text.len();
    if n == 0 {
        return 0;
    }
    let last = n - 1;
    if text[last] == LF {
        return last;
    }
    n
}

// The text in a text file is folded where it stands. Answers its length.
pub fn file_text(text: &mut [u8]) -> usize
    ensures { Filed text.old text.new result }
{
    let n = text_length(text);
    fold_letters::fold_in_place(&mut text[..n]);
    n
}

// The sheet of a tray and a text, or the line of its refusal. Answers how many bytes it has.
pub fn text_sheet(
    letters: &[u8],
    ends: &[u16],
    text: &[u8],
    work: &mut [u16],
    found: &mut [u32],
    out: &mut [u8],
) -> usize
    requires { TextRoom work.old found.old out.old }
    ensures { TextSheetSays letters.now ends.now text.now work.old work.new
        found.old found.new out.old out.new result }
{
    let counts = match flat_calls::find_flat(letters, ends, text, work, found) {
        Ok(counts) => counts,
        Err(fault) => return sheet_lines::fault_line(fault, out),
    };
    let moves = counts.moves as usize;
    let count = counts.count as usize;
    let numbers = 2 * count;
    sheet_lines::find_lines(text.len(), moves, count, &found[..numbers], out)
}
