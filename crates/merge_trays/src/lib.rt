// Two trays merged into a lent third, each with its sides. The new slips are told before a buffer is touched, since what refuses the outcome depends on them.
#![tactic(auto)]

ghost use Rattle.std.specs.Prelude.{◌≡◌, length, Ok};
ghost use Rattle.words.specs.Lists.{over};
ghost use Rattle.trays.specs.Told.{verdict, written_from};
ghost use Rattle.merge_rule.specs.Merging.{MergeSays};
ghost use Rattle.merge_trays.specs.Steps.Merging.{lent_fault, one_fault, both_fault, size_fault, Room, IsSided, AreSided, SizesSay};
ghost use Rattle.merge_trays.specs.Steps.Merging.{CanMerge, LettersWritten, CanWriteSides, sides_merged};

use merge_equals::{Fresh, Sided, new_slips};
use trays::{Fault, MAX_LETTERS, MAX_SLIPS, Tray, TraySize};

// Refusal 15: this many letters, ends and sides are lent, and any tray must have room in them.
fn check_lent(letters: usize, ends: usize, sides: usize) -> Result<(), Fault>
    ensures { verdict result ≡ lent_fault letters ends sides }
{
    if letters < MAX_LETTERS || ends < MAX_SLIPS || sides < MAX_SLIPS {
        return Err(Fault::TrayBuffersTooSmall);
    }
    Ok(())
}

// Refusals 1 to 6 and 22 of one tray. Answers the tray with its sides.
fn check_one<'a>(letters: &'a [u8], ends: &'a [u16], sides: &'a [u8]) -> Result<Sided<'a>, Fault>
    ensures fault { verdict result ≡ one_fault letters.now ends.now sides.now }
    ensures sided { IsSided letters.now ends.now sides.now result }
{
    let tray = tray_check::check_tray_sides(letters, ends, sides)?;
    Ok(Sided { tray, sides })
}

// Refusals 1 to 6 and 22 of the first tray, then of the second. Answers both.
fn check_both<'a>(
    letters1: &'a [u8],
    ends1: &'a [u16],
    sides1: &'a [u8],
    letters2: &'a [u8],
    ends2: &'a [u16],
    sides2: &'a [u8],
) -> Result<(Sided<'a>, Sided<'a>), Fault>
    ensures fault { verdict result ≡ both_fault letters1.now ends1.now sides1.now letters2.now ends2.now sides2.now }
    ensures sided { AreSided letters1.now ends1.now sides1.now letters2.now ends2.now sides2.now result }
{
    let first = check_one(letters1, ends1, sides1)?;
    let second = check_one(letters2, ends2, sides2)?;
    Ok((first, second))
}

// Refusals 1 and 4 of an outcome with this many letters and slips: of two accepted trays no other row of the outcome can speak.
fn check_size(letters: usize, slips: usize) -> Result<(), Fault>
    ensures { verdict result ≡ size_fault letters slips }
{
    if MAX_SLIPS < slips {
        return Err(Fault::TooManySlips);
    }
    if MAX_LETTERS < letters {
        return Err(Fault::TooManyLetters);
    }
    Ok(())
}

// Writes the letters and ends of the first tray, and after them those of the new slips of the second.
fn write_merged(
    first: Tray<'_>,
    second: Tray<'_>,
    new: Fresh,
    letters: &mut [u8],
    ends: &mut [u16],
) -> TraySize
    requires { CanMerge first.letters.now first.ends.now second.letters.now second.ends.now new
        (length letters.old) (length ends.old) }
    ensures { LettersWritten first.entry.letters.now first.entry.ends.now second.entry.letters.now second.entry.ends.now new
        letters.old letters.new ends.old ends.new (written_from (Ok result)) }
{
    let here = tables::copy(first.letters, letters);
    let count = first.ends.len();
    tables::copy_cells(first.ends, 0, count, ends);
    let slips = &new.slips[..new.count];
    tray_cut::write_slips(
        second,
        slips,
        here,
        &mut letters[here..],
        &mut ends[count..],
    );
    TraySize {
        letters: (here + new.letters) as u32,
        slips: (count + new.count) as u32,
    }
}

// Writes the sides of the first tray, and after them those of the new slips of the second.
fn write_sides(first: Sided<'_>, second: Sided<'_>, new: Fresh, sides: &mut [u8])
    requires { CanWriteSides first.sides.now second.sides.now new (length sides.old) }
    ensures { sides.new ≡ over (sides_merged first.entry.sides.now second.entry.sides.now new) sides.old }
{
    let here = tables::copy(first.sides, sides);
    for (i, slip) in new.slips[..new.count].iter().enumerate() {
        let slip = usize::from(*slip);
        sides[here + i] = second.sides[slip - 1];
    }
}

// Merges two trays that are accepted, where room for any tray is lent: 1 and 4 alone can refuse it.
fn merge_sided(
    first: Sided<'_>,
    second: Sided<'_>,
    letters: &mut [u8],
    ends: &mut [u16],
    sides: &mut [u8],
) -> Result<TraySize, Fault>
    requires { Room (length letters.old) (length ends.old) (length sides.old) }
    ensures { SizesSay first.entry.tray.letters.now first.entry.tray.ends.now first.entry.sides.now
        second.entry.tray.letters.now second.entry.tray.ends.now second.entry.sides.now
        letters.old letters.new ends.old ends.new sides.old sides.new (written_from result) }
{
    let new = new_slips(first, second);
    check_size(
        first.tray.letters.len() + new.letters,
        first.tray.ends.len() + new.count,
    )?;
    let size = write_merged(first.tray, second.tray, new, letters, ends);
    write_sides(first, second, new, sides);
    Ok(size)
}

// Writes the first tray's slips into the lent letters, ends and sides, and then those of the second that equal none written before, in side and letters; or
// refuses, and writes nothing.
pub fn merge_trays(
    letters1: &[u8],
    ends1: &[u16],
    sides1: &[u8],
    letters2: &[u8],
    ends2: &[u16],
    sides2: &[u8],
    letters: &mut [u8],
    ends: &mut [u16],
    sides: &mut [u8],
) -> Result<TraySize, Fault>
    ensures { MergeSays letters1.now ends1.now sides1.now letters2.now ends2.now
        sides2.now letters.old letters.new ends.old ends.new sides.old
        sides.new (written_from result) }
{
    check_lent(letters.len(), ends.len(), sides.len())?;
    let (first, second) = check_both(letters1, ends1, sides1, letters2, ends2, sides2)?;
    merge_sided(first, second, letters, ends, sides)
}
