//! The faults of components.

ghost use Rattle.std.specs.Prelude.{◌≡◌, ◌+◌, ◌<◌, ◌^◌, length, position};
ghost use Rattle.fsa_types.specs.Paths.{is_bad_unit, is_dots, component_fault};
ghost use Rattle.names.specs.NameFault.{FindsFault};

use crate::fault::NameFault;

/// How many units a component or the name of a stream has at most.
pub(crate) const MOST_NAME_UNITS: usize = 255;

/// Whether the component whose first unit has this place in its path is sound, or else its first
/// fault: `Empty`, `TooLong`, or `BadUnit` with the unit's place in the path. It takes time linear
/// in the component.
pub(crate) fn check_component(place: usize, name: &[u16]) -> Result<(), NameFault>
    requires { place + length name.now < 2 ^ 63 }
    ensures { FindsFault (component_fault place name.now) result }
{
    if name.is_empty() {
        return Err(NameFault::Empty);
    }
    if name.len() > MOST_NAME_UNITS {
        return Err(NameFault::TooLong);
    }
    if is_dots(name) {
        return Err(NameFault::BadUnit(place));
    }
    match bad_unit_in(name) {
        Some(i) => Err(NameFault::BadUnit(place + i)),
        None => Ok(()),
    }
}

// The place of the first unit that no component has.
fn bad_unit_in(name: &[u16]) -> Option<usize>
    ensures { result ≡ position is_bad_unit name.now }
{
    name.iter().position(|unit| is_bad_unit(*unit))
}

// Whether a name is `.` or `..`.
fn is_dots(name: &[u16]) -> bool
    ensures { result ≡ is_dots name.now }
{
    name == [0x2E].as_slice() || name == [0x2E, 0x2E].as_slice()
}

// Whether no component has this unit: one below 0x20, or one of `" / : | < > * ?`.
fn is_bad_unit(unit: u16) -> bool
    ensures { result ≡ is_bad_unit unit }
{
    unit < 0x20 || matches!(unit, 0x22 | 0x2F | 0x3A | 0x7C | 0x3C | 0x3E | 0x2A | 0x3F)
}
