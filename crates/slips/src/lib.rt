// Where a slip stands in the letters of its tray, that stretch itself, and the overlap of two slips, by comparing their letters.
#![tactic(auto)]

ghost use Rattle.std.specs.Prelude.{◌≡◌, ◌≤◌, ◌<◌, length};
ghost use Rattle.words.specs.Words.{overlap_for};
ghost use Rattle.trays.specs.Slips as S;
ghost use Rattle.trays.specs.Aside.{counted};
ghost use Rattle.slips.specs.Pairs.{TwoSlips, Overlap};

use trays::{Span, Tray, not_stops};

// Where slip `slip` starts and ends in the letters of its tray.
pub fn slip_span(ends: &[u16], slip: usize) -> Span
    requires { (1 ≤ slip) × (slip ≤ length ends.now) }
    ensures { result ≡ S.span_of ends.now slip }
{
    let start = if slip == 1 {
        0
    } else {
        usize::from(ends[slip - 2])
    };
    Span {
        start,
        end: usize::from(ends[slip - 1]),
    }
}

// The letters of a slip, as that stretch of its tray.
pub fn slip_part<'a>(tray: Tray<'a>, slip: usize) -> &'a [u8]
    requires { (1 ≤ slip) × (slip ≤ length tray.ends.now) }
    ensures { result.now ≡ S.slip (S.slips_of tray.entry.letters.now tray.entry.ends.now) slip }
{
    let span = slip_span(tray.ends, slip);
    &tray.letters[span.start..span.end]
}

// The overlap of two strings, 0 where it does not count: a shorter one is a prefix of it, and does not count either.
fn counted_overlap(a: &[u8], b: &[u8], least: usize) -> usize
    ensures { result ≡ overlap_for (counted least) a.now b.now }
{
    let n = words::overlap(a, b);
    if n < least || !not_stops(&b[..n]) {
        return 0;
    }
    n
}

// The same of two slips, which may be one.
pub fn slip_overlap(tray: Tray<'_>, left: usize, right: usize, least: usize) -> usize
    requires { TwoSlips tray.letters.now tray.ends.now left right }
    ensures { Overlap least tray.entry.letters.now tray.entry.ends.now left right result }
{
    counted_overlap(slip_part(tray, left), slip_part(tray, right), least)
}
