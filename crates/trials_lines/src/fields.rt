// The fields of a line: numbers, coded bytes, lists of numbers, and trays.
ghost use Rattle.std.specs.Prelude.{◌≡◌, ◌<◌, ◌≤◌, ◌-◌, length, MatchOption};

use crate::codes::{Code, Codes, Entries, Run};
use crate::tray::{Coded, SLIPS, blanks};
use arrayvec::ArrayVec;
use trays::BLANK_SIDE;

// What is left of a line.
#[derive(Clone, Copy)]
pub struct Fields<'a> {
    pub(crate) rest: &'a [u8],
}

impl<'a> Fields<'a> {
    // The tag of a line, a blank if it is empty, and the fields behind it.
    pub fn of(line: &'a [u8]) -> (u8, Fields<'a>) {
        let mut fields = Fields { rest: line };
        let tag = fields.byte();
        fields.byte();
        (tag, fields)
    }

    // The next byte, a blank after the end.
    pub(crate) fn byte(&mut self) -> u8
        ensures { length self.new.rest.now ≡ length self.old.rest.now - 1 }
    {
        let Some((first, rest)) = self.rest.split_first() else {
            return b' ';
        };
        self.rest = rest;
        *first
    }

    // The decimal number that stands next, if there is one. One that is too large counts as the largest.
    pub(crate) fn decimal(&mut self) -> Option<u32>
        ensures { MatchOption result (self.new.rest.now ≡ self.old.rest.now) (λ _. length self.new.rest.now < length self.old.rest.now) }
    {
        let mut value: Option<u32> = None;
        // kept: how many digits there are is not known before they are read
        while let [digit @ b'0'..=b'9', rest @ ..] = self.rest {
            let before = value.unwrap_or(0);
            value = Some(
                before
                    .saturating_mul(10)
                    .saturating_add(u32::from(*digit - b'0')),
            );
            self.rest = rest;
        }
        value
    }

    // The byte that two hexadecimal digits stand for.
    pub(crate) fn hex_byte(&mut self) -> u8
        ensures { length self.new.rest.now ≤ length self.old.rest.now }
    {
        let high = hex(self.byte());
        16 * high + hex(self.byte())
    }

    // The part before a byte, or all that is left if there is none.
    pub fn part(&mut self, stop: u8) -> Fields<'a> {
        let rest = self.rest;
        let n = rest.iter().position(|b| *b == stop).unwrap_or(rest.len());
        self.rest = &rest[n..];
        self.byte();
        Fields { rest: &rest[..n] }
    }

    // The number of the next field, 0 if there is none.
    pub fn number(&mut self) -> u32 {
        let number = self.decimal().unwrap_or(0);
        self.byte();
        number
    }

    // The bytes that the next field codes, as far as there is room. There is none for ends.
    pub fn text<const N: usize>(&mut self) -> ArrayVec<u8, N> {
        let mut letters = ArrayVec::new();
        let mut ends: ArrayVec<u16, 0> = ArrayVec::new();
        decode(self.part(b' '), &mut letters, &mut ends);
        letters
    }

    // The side that the next field codes, 0 if there is none. A line without sides names the blank side.
    pub fn side(&mut self, sided: bool) -> u8 {
        if !sided {
            return BLANK_SIDE;
        }
        let side: ArrayVec<u8, 1> = self.text();
        side.as_slice().first().copied().unwrap_or(0)
    }

    // The sides that the next field lists, if the line lists sides.
    pub fn sides(&mut self, sided: bool) -> Option<ArrayVec<u8, SLIPS>> {
        sided.then(|| self.text())
    }

    // The numbers that the next field lists, a comma between each two, as far as there is room.
    pub fn list<const N: usize>(&mut self) -> ArrayVec<u16, N> {
        let mut list = ArrayVec::new();
        rise_each(self.part(b' '), &mut list);
        list
    }

    // The tray that the rest of the line codes: its letters, and its ends. Without a list of sides all its slips are blank.
    pub fn tray(mut self, sides: Option<ArrayVec<u8, SLIPS>>) -> Coded {
        let mut letters = ArrayVec::new();
        let mut ends = ArrayVec::new();
        decode(self.part(b' '), &mut letters, &mut ends);
        rise_each(self, &mut ends);
        let sides = sides.unwrap_or_else(|| blanks(ends.len()));
        Coded {
            letters,
            ends,
            sides,
        }
    }
}

// What a hexadecimal digit stands for, 0 for any other byte.
fn hex(byte: u8) -> u8
    ensures { result < 16 }
{
    match byte {
        b'0'..=b'9' => byte - b'0',
        b'A'..=b'F' => byte - b'A' + 10,
        _ => 0,
    }
}

// Puts a value at the end of a list so many times, as far as there is room.
fn fill<T: Copy + Drop, const N: usize>(list: &mut ArrayVec<T, N>, times: u32, x: T) {
    for _ in 0..times {
        if list.try_push(x).is_err() {
            break;
        }
    }
}

// Puts the ends of a run at the end of a list, as far as there is room: each is higher by the step.
fn rise<const N: usize>(ends: &mut ArrayVec<u16, N>, run: Run) {
    let mut end = run.step;
    for _ in 0..run.times {
        if ends.try_push(end).is_err() {
            break;
        }
        end = end.wrapping_add(run.step);
    }
}

// The ends that the fields list.
fn rise_each<const N: usize>(fields: Fields, ends: &mut ArrayVec<u16, N>) {
    for run in Entries(fields) {
        rise(ends, run);
    }
}

// The letters and the ends that a field codes.
fn decode<const L: usize, const E: usize>(
    field: Fields,
    letters: &mut ArrayVec<u8, L>,
    ends: &mut ArrayVec<u16, E>,
) {
    for code in Codes(field) {
        match code {
            Code::Letters(times, letter) => fill(letters, times, letter),
            Code::Ends(times) => {
                let end = u16::try_from(letters.len()).unwrap_or(u16::MAX);
                fill(ends, times, end);
            }
        }
    }
}
