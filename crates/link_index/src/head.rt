//! The heads of names, by which they are searched.

ghost use Rattle.std.specs.Prelude.{◌≡◌, ◌&&◌, nat_lt, slice_get};
ghost use Rattle.fsa_types.specs.CaseTable.{upcased};
ghost use Rattle.link_index.specs.Heads.{head_digit, head_of, unit_at};

use fsa_types::UpcaseTable;

// How many units are told.
const UNITS: usize = 16;

/// The first sixteen upcased units of a name, in 8 bits each. Where the heads of two names differ, the names stand in
/// the order of the heads. A unit from 255 on is told as 255, and nothing behind it is.
pub(crate) fn head_of(upcase: &UpcaseTable, units: &[u16]) -> u128
    ensures { result ≡ head_of upcase.now units.now }
{
    let mut head = 0;
    let mut exact = true;
    for place in 0..UNITS {
        let unit = unit_at(upcase, units, place);
        head = head * 256 + head_digit(exact, unit) as u128;
        exact = stays_exact(exact, unit);
    }
    head
}

// The unit at this place, upcased; 0 past the end.
fn unit_at(upcase: &UpcaseTable, units: &[u16], place: usize) -> u16
    ensures { result ≡ unit_at (upcased upcase.now units.now) place }
{
    match unit_in(units, place) {
        None => 0,
        Some(unit) => upcase.up(unit),
    }
}

// The unit at this place.
fn unit_in(units: &[u16], place: usize) -> Option<u16>
    ensures { result ≡ slice_get units.now place }
{
    match units.get(place) {
        Some(unit) => Some(*unit),
        None => None,
    }
}

// Whether the units up to this one are told in full, where those before it are.
fn stays_exact(exact: bool, unit: u16) -> bool
    ensures { result ≡ (exact && nat_lt unit 255) }
{
    exact && unit < 255
}

// A unit in 8 bits, where all before it are told in full.
fn head_digit(exact: bool, unit: u16) -> u16
    ensures { result ≡ head_digit exact unit }
{
    if exact { unit.min(255) } else { 0 }
}
