// The parser of a tray file's lines.
#![tactic(auto)]

ghost use Rattle.std.specs.Prelude.{◌≡◌, ◌==◌, not, ◌+◌, ◌≤◌, length, drop, position};
ghost use Rattle.file_rule.specs.Lines as L;
ghost use Rattle.file_rule.specs.Faults as F;
ghost use Rattle.file_line.specs.Steps.Parsed.{IsLine, fault_number, plus_one};

use file_rule::{BLANK, LF, Line, LineFault};

// Where the side and the letters of a line start, counted from 0: columns 9 and 10.
pub const SIDE_COLUMN: usize = 8;

pub const LETTERS_COLUMN: usize = 9;

// The number that digits write; none if one of the bytes is no digit.
fn number(digits: &[u8]) -> Option<usize>
    requires { length digits.now ≤ 4 }
    ensures { plus_one result ≡ L.number 0 digits.now }
{
    let mut v: usize = 0;
    for d in digits {
        if !d.is_ascii_digit() {
            return None;
        }
        v = 10 * v + usize::from(*d - b'0');
    }
    Some(v)
}

// Where the first column stands that is not blank.
fn typed_from(columns: &[u8]) -> Option<usize>
    ensures { result ≡ position (λ c. not (c == L.blank)) columns.now }
{
    columns.iter().position(|c| *c != BLANK)
}

// The number that columns hold, right-justified and without leading zeros.
fn field(columns: &[u8]) -> Option<usize>
    requires { length columns.now ≤ 4 }
    ensures { plus_one result ≡ L.field columns.now }
{
    let start = typed_from(columns)?;
    let digits = &columns[start..];
    if digits.len() > 1 && digits[0] == b'0' {
        return None;
    }
    number(digits)
}

// Refusals 17, 18, 19 of a line, with its LF, as line k.
fn check_line(line: &[u8], k: usize) -> Result<(), LineFault>
    ensures { fault_number result ≡ (F.line_fault k line.now).number }
{
    let n = line.len();
    if n < 10 || line[n - 1] != LF || !tray_check::is_side(line[SIDE_COLUMN]) {
        return Err(LineFault::Layout);
    }
    let (Some(slip), Some(stated)) = (field(&line[..4]), field(&line[4..8])) else {
        return Err(LineFault::Layout);
    };
    if slip != k {
        return Err(LineFault::Number);
    }
    if stated != n - 10 {
        return Err(LineFault::Length);
    }
    Ok(())
}

// Where the first LF of a text stands.
fn lf_at(text: &[u8]) -> Option<usize>
    ensures { result ≡ position (λ b. b == L.lf) text.now }
{
    text.iter().position(|b| *b == LF)
}

// How long the first line of a text is: with its LF, or up to the text's end.
fn line_length(text: &[u8]) -> usize
    ensures { result ≡ length (L.first_line text.now) }
{
    match lf_at(text) {
        Some(i) => i + 1,
        None => text.len(),
    }
}

// Where the line that starts at a place ends: after its LF, or where the file ends.
pub fn line_end(file: &[u8], at: usize) -> usize
    ensures { result ≡ at + length (L.first_line (drop at file.now)) }
{
    match file.get(at..) {
        Some(rest) => at + line_length(rest),
        None => at,
    }
}

// The line parser: line k, which starts at a place of the file. Behind the file's end the line is empty.
pub fn line_at(file: &[u8], at: usize, k: usize) -> Line
    ensures { IsLine file.now at k result }
{
    if file.len() <= at {
        return Line {
            checked: Err(LineFault::Layout),
            next: at,
        };
    }
    let next = line_end(file, at);
    let checked = check_line(&file[at..next], k);
    Line { checked, next }
}
