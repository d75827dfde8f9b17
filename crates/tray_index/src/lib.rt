// The index of beginnings of a tray: built in a lent list, and asked which slips start with typed letters. Slips of all sides stand in it.
#![tactic(auto)]

ghost use Rattle.std.specs.Prelude.{◌≡◌, get_or, IfOk};
ghost use Rattle.words.specs.Lists.{entry};
ghost use Rattle.words.specs.Words.{same};
ghost use Rattle.trays.specs.Slips.{slips_of};
ghost use Rattle.trays.specs.Told.{verdict, IsTray, HandedOut, located_from};
ghost use Rattle.index_rule.specs.Index.{index_of};
ghost use Rattle.index_rule.specs.Answers.{build_fault, begin_fault, IndexBuilt, Beginning, place_for};
ghost use Rattle.index_rule.specs.Steps.Passing.{fits};
ghost use Rattle.tray_index.specs.Steps.Lists as L;

use tray_check::{check_text, check_tray_sides};
use trays::{Fault, Location, Span, Tray};
use trie_order::{Bound, rank};

// Refusals 1 to 6, 22 and 9, where the lent list has this many entries.
fn check_build<'a>(
    letters: &'a [u8],
    ends: &'a [u16],
    sides: &[u8],
    entries: usize,
) -> Result<Tray<'a>, Fault>
    ensures fault { verdict result ≡ build_fault letters.now ends.now sides.now entries }
    ensures tray { IsTray letters.entry ends.entry result }
{
    let tray = check_tray_sides(letters, ends, sides)?;
    let n = ends.len();
    if entries < n {
        return Err(Fault::JoinOrPlaceListTooSmall(n as u32));
    }
    Ok(tray)
}

// Builds the index in the lent list, which is sorted where it stands; entries past the slips are left as they were.
pub fn build_index(
    letters: &[u8],
    ends: &[u16],
    sides: &[u8],
    index: &mut [u16],
) -> Result<(), Fault>
    ensures { IndexBuilt letters.now ends.now sides.now index.old index.new (verdict result) }
{
    let tray = check_build(letters, ends, sides, index.len())?;
    let n = ends.len();
    trie_order::fill_members(index, 0, n);
    trie_order::sort_table(tray, index, 0, n);
    Ok(())
}

// Whether the entry at place `i` is the number of a slip that stands after the entry before it in the order.
fn entry_fits(tray: Tray<'_>, index: &[u16], i: usize) -> bool
    requires { L.AtEntry tray.letters.now tray.ends.now index.now i }
    ensures { result ≡ fits (slips_of tray.entry.letters.now tray.entry.ends.now) (entry index.now i) (get_or index.now i 0) }
{
    let here = usize::from(index[i]);
    if here == 0 {
        return false;
    }
    if tray.ends.len() < here {
        return false;
    }
    if i == 0 {
        return true;
    }
    let before = usize::from(index[i - 1]);
    let typed = slips::slip_part(tray, here);
    trie_order::member_below(tray, before, typed, Bound::Number(here))
}

// Whether a list is the index of a tray: as long as the tray, and each entry after the one before it, told in one pass.
fn is_index(tray: Tray<'_>, index: &[u16]) -> bool
    ensures { result ≡ same index.now (index_of (slips_of tray.entry.letters.now tray.entry.ends.now)) }
{
    if index.len() != tray.ends.len() {
        return false;
    }
    for i in 0..index.len() {
        if !entry_fits(tray, index, i) {
            return false;
        }
    }
    true
}

// Refusals 1 to 6, 22, 23, 12 and 13.
fn check_beginning<'a>(
    letters: &'a [u8],
    ends: &'a [u16],
    sides: &[u8],
    index: &[u16],
    typed: &[u8],
) -> Result<Tray<'a>, Fault>
    ensures fault { verdict result ≡ begin_fault letters.now ends.now sides.now index.now typed.now }
    ensures tray { IsTray letters.entry ends.entry result }
{
    let tray = check_tray_sides(letters, ends, sides)?;
    if !is_index(tray, index) {
        return Err(Fault::OtherIndex);
    }
    check_text(typed)?;
    Ok(tray)
}

// Where the slips that start with the typed letters start and end in the index: two binary searches.
fn slips_starting(tray: Tray<'_>, index: &[u16], typed: &[u8]) -> Span
    requires { L.OwnIndex tray.letters.now tray.ends.now index.now }
    ensures { result ≡ L.span_for (slips_of tray.entry.letters.now tray.entry.ends.now) typed.now }
{
    let start = rank(tray, index, typed, Bound::Lower);
    let end = rank(tray, index, typed, Bound::Upper);
    Span { start, end }
}

// The same where the tray, the list and the typed letters are judged first.
fn beginning_span(
    letters: &[u8],
    ends: &[u16],
    sides: &[u8],
    index: &[u16],
    typed: &[u8],
) -> Result<Span, Fault>
    ensures fault { verdict result ≡ begin_fault letters.now ends.now sides.now index.now typed.now }
    ensures span { IfOk result (λ span. span ≡ L.span_for (slips_of letters.now ends.now) typed.now) }
{
    let tray = check_beginning(letters, ends, sides, index, typed)?;
    Ok(slips_starting(tray, index, typed))
}

// The slips that start with the typed letters, as that stretch of the lent index.
pub fn beginning<'a>(
    letters: &[u8],
    ends: &[u16],
    sides: &[u8],
    index: &'a [u16],
    typed: &[u8],
) -> Result<&'a [u16], Fault>
    ensures { HandedOut (Beginning letters.now ends.now sides.now index.now typed.now index.entry.ref_ptr)
        index.entry.ref_ptr result }
{
    let span = beginning_span(letters, ends, sides, index, typed)?;
    Ok(&index[span.start..span.end])
}

// Where that stretch starts and ends in the index, as numbers of 32 bits.
pub fn beginning_place(
    letters: &[u8],
    ends: &[u16],
    sides: &[u8],
    index: &[u16],
    typed: &[u8],
) -> Result<Location, Fault>
    ensures { located_from result ≡ place_for letters.now ends.now sides.now index.now typed.now }
{
    let place = beginning_span(letters, ends, sides, index, typed)?;
    Ok(Location {
        start: place.start as u32,
        end: place.end as u32,
    })
}
