// The codes of a field, and the entries of a list of numbers, one after another.
ghost use Rattle.std.specs.Prelude.{length};
ghost use Rattle.std.specs.Iterator.{at_most};

use crate::fields::Fields;

// How many times a letter stands, or an end.
#[derive(Clone, Copy)]
pub(crate) enum Code {
    Letters(u32, u8),
    Ends(u32),
}

// The codes that are left of a field: each is a count or none, and a comma, a byte in hexadecimal digits, or a sign.
#[derive(Clone, Copy)]
pub(crate) struct Codes<'a>(pub(crate) Fields<'a>);

impl<'a> Iterator for Codes<'a> {
    type Item = Code;

    ghost remaining = { λ s. at_most (length s.0.rest.now) };

    fn next(&mut self) -> Option<Code> {
        let codes = &mut self.0;
        if codes.rest.is_empty() {
            return None;
        }
        let times = codes.decimal().unwrap_or(1);
        Some(match codes.byte() {
            b',' => Code::Ends(times),
            b'%' => Code::Letters(times, codes.hex_byte()),
            b'_' => Code::Letters(times, b' '),
            sign => Code::Letters(times, sign),
        })
    }
}

// So many numbers, the first as large as the step from each to the next.
#[derive(Clone, Copy)]
pub(crate) struct Run {
    pub(crate) times: u32,
    pub(crate) step: u16,
}

// The entries that are left of a list of numbers: 3, which is 1x3, or 12x3.
#[derive(Clone, Copy)]
pub(crate) struct Entries<'a>(pub(crate) Fields<'a>);

impl<'a> Iterator for Entries<'a> {
    type Item = Run;

    ghost remaining = { λ s. at_most (length s.0.rest.now) };

    fn next(&mut self) -> Option<Run> {
        let entries = &mut self.0;
        if entries.rest.is_empty() {
            return None;
        }
        let first = entries.decimal().unwrap_or(0);
        let (times, step) = if entries.byte() == b'x' {
            let step = entries.decimal().unwrap_or(0);
            entries.byte();
            (first, step)
        } else {
            (1, first)
        };
        Some(Run {
            times,
            step: u16::try_from(step).unwrap_or(u16::MAX),
        })
    }
}
