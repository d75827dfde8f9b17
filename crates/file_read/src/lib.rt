// A tray file is read: it is checked before it is copied, and its letters are folded in the copy. Sides are copied as they stand.
#![tactic(auto)]

ghost use Rattle.std.specs.Prelude.{◌≡◌, Ok};
ghost use Rattle.trays.specs.Told.{verdict, written_from};
ghost use Rattle.file_rule.specs.Faults as F;
ghost use Rattle.file_rule.specs.Answers.{ReadSays};
ghost use Rattle.file_read.specs.Steps.Copying.{Lent, Copied};

use file_line::{LETTERS_COLUMN, SIDE_COLUMN};
use file_rule::{ENDS_NEED, MAX_FILE};
use trays::{Fault, TraySize};

// Place A: refusals 15 to 19 of a file, where this many letters, ends and sides are lent. As many sides are asked for as ends.
fn check_file(file: &[u8], letters: usize, ends: usize, sides: usize) -> Result<(), Fault>
    ensures { verdict result ≡ F.read_fault file.now letters ends sides }
{
    if letters < MAX_FILE || ends < ENDS_NEED || sides < ENDS_NEED {
        return Err(Fault::TrayBuffersTooSmall);
    }
    if MAX_FILE < file.len() {
        return Err(Fault::FileTooLong);
    }
    file_check::check_lines(file)
}

// The letters, ends and sides of a file without a fault.
fn copy_file(file: &[u8], letters: &mut [u8], ends: &mut [u16], sides: &mut [u8]) -> TraySize
    requires { Lent file.now letters.old ends.old sides.old }
    ensures { Copied file.now letters.old letters.new ends.old ends.new
        sides.old sides.new (written_from (Ok result)) }
{
    let mut at: usize = 0;
    let mut count: usize = 0;
    let mut slips: usize = 0;
    // kept: each line says where the next one starts, so there is no range to go over
    while at < file.len() {
        let next = file_line::line_end(file, at);
        // a good line has its letters after the side, and an LF after them
        let start = at + LETTERS_COLUMN;
        let end = next - 1;
        fold_letters::file_letters(&file[start..end], &mut letters[count..]);
        count += end - start;
        ends[slips] = count as u16;
        sides[slips] = file[at + SIDE_COLUMN];
        slips += 1;
        at = next;
    }
    TraySize {
        letters: count as u32,
        slips: slips as u32,
    }
}

// Reads a tray file into lent letters, ends and sides. Nothing is written before every line is checked.
pub fn read_tray(
    file: &[u8],
    letters: &mut [u8],
    ends: &mut [u16],
    sides: &mut [u8],
) -> Result<TraySize, Fault>
    ensures { ReadSays file.now letters.old letters.new ends.old ends.new
        sides.old sides.new (written_from result) }
{
    check_file(file, letters.len(), ends.len(), sides.len())?;
    Ok(copy_file(file, letters, ends, sides))
}
