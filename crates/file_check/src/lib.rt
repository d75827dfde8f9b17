// A reader goes through a tray file line after line, and the first bad line is found.
#![tactic(auto)]

ghost use Rattle.std.specs.Prelude.{◌≡◌, ◌≤◌, length};
ghost use Rattle.trays.specs.Limits.{max_file};
ghost use Rattle.trays.specs.Told.{told, verdict};
ghost use Rattle.file_check.specs.Readers.{refused_line};
ghost use Rattle.file_rule.specs.Lines as L;
ghost use Rattle.file_rule.specs.Faults as F;
ghost use Rattle.file_check.specs.Readers.{Handed};

use file_rule::{Line, LineFault, Reader};
use trays::Fault;

// The line at which a reader stands, as line k. The reader moves past it, past a bad line too.
fn next<'s, 'a>(r: &'s mut Reader<'a>, k: usize) -> Line
    ensures { Handed r.old r.new k result }
{
    let line = file_line::line_at(r.file, r.at, k);
    r.at = line.next;
    line
}

// What is wrong with line k, as the refusal of a file.
fn refused_line(fault: LineFault, k: u32) -> Fault
    ensures { told result ≡ refused_line fault k }
{
    match fault {
        LineFault::Layout => Fault::BadLine(k),
        LineFault::Number => Fault::WrongSlipNumber(k),
        LineFault::Length => Fault::WrongLength(k),
    }
}

// Refusals 17, 18, 19 of the first bad line: one reader goes through the file.
pub fn check_lines(file: &[u8]) -> Result<(), Fault>
    requires { length file.now ≤ max_file }
    ensures { verdict result ≡ F.lines_fault 1 (L.lines_of file.now) }
{
    let mut reader = Reader { file, at: 0 };
    let mut k: usize = 1;
    // kept: each line says where the next one starts, so there is no range to go over
    while reader.at < file.len() {
        let line = next(&mut reader, k);
        if let Err(fault) = line.checked {
            return Err(refused_line(fault, k as u32));
        }
        k += 1;
    }
    Ok(())
}
