// Reads cases from standard input, a line each, and writes what the calls answer. Fields are separated by one blank; the first byte of a line is its tag:
//     - heading                                            copied
//     C LEAST WORK LEGEND JOINS PLACES LETTERS END END ..  composing, with a least overlap and so much lent
//     L LEAST WORK LEGEND LETTERS END END ..               the shortest legend, with a least overlap and so much lent
//     F WORK LIST TEXT LETTERS END END ..                  finding, with so much lent
//     A LEAST LEFT RIGHT LETTERS END END ..                the check of a tray, one slip, one pair with a least overlap
//     T LETTERS ENDS SIDES FILE                            reading a tray file, with so much lent
//     M LETTERS ENDS LETTERS END ..;LETTERS END ..         two trays merged, with so much lent, and 200 sides
//     S                                                    the bytes that are letters
// In these all slips are blank, and the blank side is named. With other sides the tag is a small letter, and the sides come first:
//     c SIDE LIST LEAST WORK ..                            composing: the side named, and the list of sides
//     l SIDE LIST LEAST WORK ..                            the shortest legend: the same
//     a LIST LEAST LEFT ..                                 one pair: the list of sides
//     m LIST LIST SIDES LETTERS ENDS ..                    two trays: both lists, and how many sides are lent
// Letters, texts, files and sides are coded: 12A is twelve times A, _ a blank, %0A the byte 10, and a comma an end. 12x3 among the ends is the twelve
// ends 3, 6, .. 36.
// What was lent is filled with marks before a call, and its sum after it is written.
#![tactic(auto)]

use trials_lines::fields::Fields;
use trials_lines::rows;

mod compose;
mod find;
mod rooms;
mod seek;

// At most this many bytes are read.
const ROOM: usize = 3407872;

fn row(line: &[u8]) {
    let (tag, fields) = Fields::of(line);
    let sided = tag.is_ascii_lowercase();
    match tag {
        b'C' | b'c' => compose::row(fields, sided),
        b'L' | b'l' => seek::row(fields, sided),
        b'F' => find::row(fields),
        b'A' | b'a' => trials_ask::ask::row(fields, sided),
        b'T' => trials_trays::read::row(fields),
        b'M' | b'm' => trials_trays::merge::row(fields, sided),
        b'S' => trials_ask::ask::signs(),
        b'-' => {
            io::write_all(1, line);
        }
        _ => {
            io::write_all(1, b"?");
        }
    }
    io::write_all(1, b"\n");
}

fn main(rt: HostRuntime) {
    rows::each_read::<ROOM, _, _>(&mut rt.stdin(), row);
}
