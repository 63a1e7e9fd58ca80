//! Units cut at a unit.

ghost use Rattle.std.specs.Prelude.{◌≡◌, ◌==◌, ◌+◌, [], ◌∷◌, length, position, IfSome, MatchOption};
ghost use Rattle.std.specs.List.{before_first, slice_split};

/// The unit `\`, which stands before each component.
pub(crate) const SEPARATOR: u16 = 0x5C;

/// The unit `:`, which stands before the name of a stream and before its type.
pub(crate) const COLON: u16 = 0x3A;

// The place of the first unit of this value.
fn place_of(units: &[u16], at: u16) -> Option<usize>
    ensures { result ≡ position (λ unit. unit == at) units.now }
{
    units.iter().position(|unit| *unit == at)
}

/// What stands before the first unit of this value and what stands after it, or `None` where there
/// is none. It takes time linear in the units up to there.
pub(crate) fn split_once<'a>(units: &'a [u16], at: u16) -> Option<(&'a [u16], &'a [u16])>
    ensures parts { MatchOption result (slice_split (λ unit. unit == at) units.now ≡ units.now ∷ [])
        (λ p. slice_split (λ unit. unit == at) units.now ≡ p.0.now ∷ slice_split (λ unit. unit == at) p.1.now) }
    ensures len { IfSome result (λ p. length p.0.now + length p.1.now + 1 ≡ length units.now) }
{
    match place_of(units, at) {
        Some(place) => Some((&units[..place], &units[place + 1..])),
        None => None,
    }
}

/// What stands before the first unit of this value, or all where there is none. It takes time
/// linear in what it gives.
pub(crate) fn before<'a>(units: &'a [u16], at: u16) -> &'a [u16]
    ensures { result.now ≡ before_first (λ unit. unit == at) units.now }
{
    match place_of(units, at) {
        Some(place) => &units[..place],
        None => units,
    }
}
