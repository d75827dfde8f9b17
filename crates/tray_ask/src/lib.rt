// Requests on a tray: one slip's letters, the overlap of a pair. One slip's letters are asked for without sides.
#![tactic(auto)]

ghost use Rattle.std.specs.Prelude.{◌≡◌, eqb, IfOk};
ghost use Rattle.trays.specs.Slips.{span_of};
ghost use Rattle.trays.specs.Faults as F;
ghost use Rattle.trays.specs.Sides as B;
ghost use Rattle.trays.specs.Answers.{Stretch, located_of, pair_of};
ghost use Rattle.trays.specs.Told.{verdict, IsTray, HandedOut, located_from, pair_from};
ghost use Rattle.tray_ask.specs.Steps.Sides.{TwoSides};

use slips::slip_span;
use tray_check::{check_sided_tray, check_tray};
use trays::{BLANK_SIDE, Fault, Location, Span, Tray};

// Refusal 10.
fn check_request(ends: &[u16], slip: u32) -> Result<(), Fault>
    ensures { verdict result ≡ F.slip_row ends.now slip }
{
    if slip == 0 || ends.len() < slip as usize {
        return Err(Fault::NoSuchSlip(slip));
    }
    Ok(())
}

// Refusals 1 to 6 and 10, for one slip number.
fn check_slip<'a>(letters: &'a [u8], ends: &'a [u16], slip: u32) -> Result<Tray<'a>, Fault>
    ensures fault { verdict result ≡ F.slip_fault letters.now ends.now slip }
    ensures tray { IsTray letters.entry ends.entry result }
{
    let tray = check_tray(letters, ends)?;
    check_request(ends, slip)?;
    Ok(tray)
}

// Where one slip starts and ends in the letters of its tray.
fn asked_span(letters: &[u8], ends: &[u16], slip: u32) -> Result<Span, Fault>
    ensures fault { verdict result ≡ F.slip_fault letters.now ends.now slip }
    ensures span { IfOk result (λ span. span ≡ span_of ends.now slip) }
{
    check_slip(letters, ends, slip)?;
    Ok(slip_span(ends, slip as usize))
}

// The letters of one slip, as that stretch of the lent tray.
pub fn slip_letters<'a>(letters: &'a [u8], ends: &[u16], slip: u32) -> Result<&'a [u8], Fault>
    ensures { HandedOut (Stretch letters.now ends.now slip letters.entry.ref_ptr) letters.entry.ref_ptr result }
{
    let span = asked_span(letters, ends, slip)?;
    Ok(&letters[span.start..span.end])
}

// Where that stretch starts and ends, as numbers of 32 bits.
pub fn slip_place(letters: &[u8], ends: &[u16], slip: u32) -> Result<Location, Fault>
    ensures { located_from result ≡ located_of letters.now ends.now slip }
{
    let place = asked_span(letters, ends, slip)?;
    Ok(Location {
        start: place.start as u32,
        end: place.end as u32,
    })
}

// Refusals 21, 1 to 6, 22, 10 and 11, for a pair of slip numbers. No side is named, so the check of the sides is handed a blank.
fn check_pair<'a>(
    letters: &'a [u8],
    ends: &'a [u16],
    sides: &[u8],
    left: u32,
    right: u32,
    least: u32,
) -> Result<Tray<'a>, Fault>
    ensures fault { verdict result ≡ B.pair_fault least letters.now ends.now sides.now left right }
    ensures tray { IsTray letters.entry ends.entry result }
{
    let tray = check_sided_tray(letters, ends, sides, least, BLANK_SIDE)?;
    check_request(ends, left)?;
    check_request(ends, right)?;
    if left == right {
        return Err(Fault::SameSlipTwice(left));
    }
    Ok(tray)
}

// Whether two slips are of one side.
fn same_side(sides: &[u8], left: usize, right: usize) -> bool
    requires { TwoSides sides.now left right }
    ensures { result ≡ eqb (B.side_of sides.now left) (B.side_of sides.now right) }
{
    sides[left - 1] == sides[right - 1]
}

// The overlap of a pair of slips, by comparing their letters; 0 if it has fewer letters than the least, or the slips are of different sides.
pub fn pair_overlap(
    letters: &[u8],
    ends: &[u16],
    sides: &[u8],
    left: u32,
    right: u32,
    least: u32,
) -> Result<u32, Fault>
    ensures { pair_from result ≡ pair_of least letters.now ends.now sides.now left right }
{
    let tray = check_pair(letters, ends, sides, left, right, least)?;
    let left = left as usize;
    let right = right as usize;
    if same_side(sides, left, right) {
        let shared = slips::slip_overlap(tray, left, right, least as usize);
        return Ok(shared as u32);
    }
    Ok(0)
}
