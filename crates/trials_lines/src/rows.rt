// The lines of a program's input.
ghost use Rattle.std.specs.Prelude.{◌<◌, ◌^◌};

use std::io::Read;

// Calls `row` with each line, without its line feed.
fn each<F: Fn(&[u8])>(text: &[u8], row: F)
    requires { F.IsAlwaysCallable row }
{
    for line in text.split_inclusive(|b| *b == b'\n') {
        row(line.strip_suffix(b"\n").unwrap_or(line));
    }
}

// The same for the first `ROOM` bytes that a reader gives.
pub fn each_read<const ROOM: usize, R: Read, F: Fn(&[u8])>(reader: &mut R, row: F)
    requires can_call { F.IsAlwaysCallable row }
    requires size { ROOM < 2 ^ 32 }
{
    let mut buf = [0; ROOM];
    let n = input::count_of(input::read_all(reader, &mut buf));
    each(&buf[..n], row);
}
