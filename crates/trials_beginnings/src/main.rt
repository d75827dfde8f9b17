// Reads cases of the index of beginnings from standard input, a line each, and writes what the calls answer, as `trials` does for the other calls. Fields are
// separated by one blank; the first byte of a line is its tag:
//     - heading                                 copied
//     I ENTRIES TYPED INDEX LETTERS END END ..  the index, with this many entries lent; of the list INDEX the slips that start with typed letters
//     i LIST ENTRIES TYPED ..                   the same for a tray with this list of sides; for I all slips are blank
// Letters, typed letters and sides are coded: 12A is twelve times A, _ a blank, %0A the byte 10, and a comma an end. 12x3 among the ends is the twelve
// ends 3, 6, .. 36. INDEX is a list of numbers with commas between them.
// What was lent is filled with marks before a call, and its sum after it is written.
#![tactic(auto)]

use trials_lines::fields::Fields;
use trials_lines::rows;

// At most this many bytes are read.
const ROOM: usize = 262144;

fn row(line: &[u8]) {
    let (tag, fields) = Fields::of(line);
    match tag {
        b'I' | b'i' => trials_index::row(fields, tag.is_ascii_lowercase()),
        b'-' => {
            io::write_all(1, line);
        }
        _ => {
            io::write_all(1, b"?");
        }
    }
    io::write_all(1, b"\n");
}

fn main(rt: HostRuntime) {
    rows::each_read::<ROOM, _, _>(&mut rt.stdin(), row);
}
