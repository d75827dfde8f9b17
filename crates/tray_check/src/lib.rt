// The check of settings, tray, sides and text: refusals 21, 1 to 6, 22, 12 and 13, for any settings, letters, ends, sides and text.
#![tactic(auto)]

ghost use Rattle.std.specs.Prelude.{◌≡◌, ◌≤◌, length};
ghost use Rattle.std.specs.List.{list_all};
ghost use Rattle.words.specs.Lists.{last_or};
ghost use Rattle.trays.specs.Limits.{max_slips};
ghost use Rattle.trays.specs.Slips as S;
ghost use Rattle.trays.specs.Faults as F;
ghost use Rattle.trays.specs.Sides as B;
ghost use Rattle.trays.specs.Told.{verdict, place_of, IsTray};
ghost use Rattle.tray_check.specs.Steps.Checks as K;

use trays::{
    BLANK_SIDE, Fault, MAX_LEAST, MAX_LETTERS, MAX_SLIP, MAX_SLIPS, MAX_TEXT, OBVERSE, REVERSE,
    STOP, Tray,
};

// Whether a byte is one of the 27 signs.
pub fn is_letter(b: u8) -> bool
    ensures { result ≡ S.is_letter b }
{
    matches!(b, STOP | b'A'..=b'Z')
}

// The index of the first byte outside the signs.
pub fn first_bad(s: &[u8]) -> Option<usize>
    ensures { place_of result ≡ F.bad_place 1 s.now }
{
    s.iter().position(|b| !is_letter(*b))
}

// Refusals 2 and 3, in one pass over the ends: the first slip without letters, else the first one that is too long.
fn check_ends(ends: &[u16]) -> Result<(), Fault>
    requires { length ends.now ≤ max_slips }
    ensures { verdict result ≡ K.ends_fault ends.now }
{
    let mut here = 0;
    let mut long = None;
    for (i, end) in ends.iter().enumerate() {
        let slip = i as u32 + 1;
        let end = usize::from(*end);
        if end <= here {
            return Err(Fault::EmptySlip(slip));
        }
        let too_long = here + MAX_SLIP < end;
        long = long.or(too_long.then_some(slip));
        here = end;
    }
    match long {
        Some(slip) => Err(Fault::SlipTooLong(slip)),
        None => Ok(()),
    }
}

// The last end, 0 if there is none.
fn last_end(ends: &[u16]) -> usize
    ensures { result ≡ last_or 0 ends.now }
{
    match ends.last() {
        Some(end) => usize::from(*end),
        None => 0,
    }
}

// The slip that holds a place of the letters, counted from 1: the first whose end is not below it; 0 for none.
fn slip_holding(ends: &[u16], place: usize) -> u32
    requires { length ends.now ≤ max_slips }
    ensures { result ≡ K.slip_holding 1 place ends.now }
{
    match ends.iter().position(|end| place <= usize::from(*end)) {
        Some(i) => i as u32 + 1,
        None => 0,
    }
}

// Refusals 1 to 6, for any letters and any ends.
fn check_rows(letters: &[u8], ends: &[u16]) -> Result<(), Fault>
    ensures { verdict result ≡ F.tray_fault letters.now ends.now }
{
    if MAX_SLIPS < ends.len() {
        return Err(Fault::TooManySlips);
    }
    check_ends(ends)?;
    if MAX_LETTERS < letters.len() {
        return Err(Fault::TooManyLetters);
    }
    if last_end(ends) != letters.len() {
        return Err(Fault::LastEndMismatch);
    }
    match first_bad(letters) {
        Some(i) => Err(Fault::BadSlipByte(slip_holding(ends, i + 1))),
        None => Ok(()),
    }
}

// The tray of these letters and ends, if none of refusals 1 to 6 speaks.
pub fn check_tray<'a>(letters: &'a [u8], ends: &'a [u16]) -> Result<Tray<'a>, Fault>
    ensures fault { verdict result ≡ F.tray_fault letters.now ends.now }
    ensures tray { IsTray letters.entry ends.entry result }
{
    check_rows(letters, ends)?;
    Ok(Tray { letters, ends })
}

// Refusal 21, then 1 to 6: the settings are checked before the tray.
pub fn check_set_tray<'a>(letters: &'a [u8], ends: &'a [u16], least: u32) -> Result<Tray<'a>, Fault>
    ensures fault { verdict result ≡ F.set_fault least letters.now ends.now }
    ensures tray { IsTray letters.entry ends.entry result }
{
    if least == 0 || MAX_LEAST < least {
        return Err(Fault::LeastOverlapOutOfRange);
    }
    check_tray(letters, ends)
}

// Whether a byte is one of the three sides.
pub fn is_side(b: u8) -> bool
    ensures { result ≡ B.is_side b }
{
    matches!(b, BLANK_SIDE | OBVERSE | REVERSE)
}

// Whether each of the bytes is one of the three sides.
fn all_sides(sides: &[u8]) -> bool
    ensures { result ≡ list_all B.is_side sides.now }
{
    sides.iter().all(|b| is_side(*b))
}

// Refusal 22, for any ends, any sides and any side named: the list of sides, then the side named.
pub fn check_sides(ends: &[u16], sides: &[u8], side: u8) -> Result<(), Fault>
    ensures { verdict result ≡ B.side_fault ends.now sides.now side }
{
    if sides.len() == ends.len() && all_sides(sides) && is_side(side) {
        return Ok(());
    }
    Err(Fault::BadSide)
}

// Refusals 1 to 6, then 22, where no side is named: the check of the sides is handed a blank, which is never refused.
pub fn check_tray_sides<'a>(
    letters: &'a [u8],
    ends: &'a [u16],
    sides: &[u8],
) -> Result<Tray<'a>, Fault>
    ensures fault { verdict result ≡ B.sided_tray_fault letters.now ends.now sides.now }
    ensures tray { IsTray letters.entry ends.entry result }
{
    let tray = check_tray(letters, ends)?;
    check_sides(ends, sides, BLANK_SIDE)?;
    Ok(tray)
}

// Refusal 21, then 1 to 6, then 22: the sides are checked after the tray.
pub fn check_sided_tray<'a>(
    letters: &'a [u8],
    ends: &'a [u16],
    sides: &[u8],
    least: u32,
    side: u8,
) -> Result<Tray<'a>, Fault>
    ensures fault { verdict result ≡ B.sided_fault least side letters.now ends.now sides.now }
    ensures tray { IsTray letters.entry ends.entry result }
{
    let tray = check_set_tray(letters, ends, least)?;
    check_sides(ends, sides, side)?;
    Ok(tray)
}

// Refusals 12 and 13, for the letters of a text or a typed beginning.
pub fn check_text(text: &[u8]) -> Result<(), Fault>
    ensures { verdict result ≡ F.first_row (F.text_rows text.now) }
{
    if MAX_TEXT < text.len() {
        return Err(Fault::TextTooLong);
    }
    match first_bad(text) {
        Some(i) => Err(Fault::BadTextByte(i as u32 + 1)),
        None => Ok(()),
    }
}
