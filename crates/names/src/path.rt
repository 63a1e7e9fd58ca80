//! Paths split into their components.

ghost use Rattle.std.specs.Prelude.{◌≡◌, ◌+◌, ◌<◌, ◌≤◌, ◌^◌, ◌==◌, length, drop, Some, None, IfOk, slice_get};
ghost use Rattle.std.specs.Iterator.{YieldsFirstBy, item_count};
ghost use Rattle.std.specs.List.{slice_split};
ghost use Rattle.std.specs.Option.{option_map};
ghost use Rattle.fsa_types.specs.Paths.{components, is_separator, last_fault, most_path_units, path_fault, path_pieces, pieces_fault, rest_of, stream_part};
ghost use Rattle.names.specs.NameFault.{FindsFault};

use crate::component::check_component;
use crate::fault::NameFault;
use crate::stream::check_stream;
use crate::unit_split::{COLON, SEPARATOR, before, split_once};
use std::marker::Model;

// How many units a path has at most.
const MOST_PATH_UNITS: usize = 32_760;

/// A path without a fault, seen as its units. What it gives is lent from them, and no call takes
/// memory.
#[derive(Drop)]
pub struct PathParts<'a> {
    units: &'a [u16],
    len: usize,
}

impl<'a> Model for PathParts<'a> {
    ghost use Rattle.std.specs.Prelude.{List, ℕ, ◌≡◌, None, length};
    ghost use Rattle.fsa_types.specs.Paths.{path_fault, components};

    ghost Value = { List ℕ };

    ghost view = { λ p. p.units.now };

    ghost invariant = { λ p. (path_fault p.units.now ≡ None) × (p.len ≡ length (components p.units.now)) };
}

impl<'a> PathParts<'a> {
    /// The number of components; the root has none. It takes constant time.
    pub fn len(&self) -> usize
        ensures len { result ≡ length (components self.now) }
        ensures sound { path_fault self.now ≡ None }
    {
        self.len
    }

    /// Whether the path is the root, which has no component.
    pub fn is_empty(&self) -> bool
        ensures { result ≡ (length (components self.now) == 0) }
    {
        self.len == 0
    }

    /// The component at place `i`, counted from 0; the last without the stream part. It takes time
    /// linear in the units up to its end: to go over all components, use `components`.
    pub fn component(&self, i: usize) -> &'a [u16]
        requires { i < length (components self.now) }
        ensures { slice_get (components self.now) i ≡ Some result.now }
    {
        before(before(self.tail(i), SEPARATOR), COLON)
    }

    /// The components in order. To go over all of them takes time linear in the path's units.
    pub fn components(&self) -> Components<'a>
        ensures { result ≡ components self.now }
    {
        if self.len == 0 {
            return Components { rest: None };
        }
        Components {
            rest: Some(self.tail(0)),
        }
    }

    /// The units from component `i` on, the stream part with them; none where `i` is the number of
    /// components. It takes time linear in the units before them.
    pub fn rest(&self, i: usize) -> &'a [u16]
        requires { i ≤ length (components self.now) }
        ensures { result.now ≡ rest_of self.now i }
    {
        if i == self.len {
            return &self.units[self.units.len()..];
        }
        self.tail(i)
    }

    /// The name of the stream: `None` where the path has no stream part, and empty for the default
    /// stream. It takes time linear in the path's units.
    pub fn stream(&self) -> Option<&'a [u16]>
        ensures { option_map (λ stream. stream.now) result ≡ stream_part self.now }
    {
        match split_once(self.units, COLON) {
            Some((_, part)) => Some(before(part, COLON)),
            None => None,
        }
    }

    // The pieces from this one on.
    fn tail(&self, i: usize) -> &'a [u16]
        requires { i < length (components self.now) }
        ensures { slice_split is_separator result.now ≡ drop i (path_pieces self.now) }
    {
        tail_of(&self.units[1..], i)
    }
}

// What is left of these pieces from this one on.
fn tail_of<'a>(rest: &'a [u16], i: usize) -> &'a [u16]
    requires { i < length (slice_split is_separator rest.now) }
    ensures { slice_split is_separator result.now ≡ drop i (slice_split is_separator rest.now) }
{
    let mut left = rest;
    for _place in 0..i {
        let Some((_, more)) = split_once(left, SEPARATOR) else {
            unreachable!()
        };
        left = more;
    }
    left
}

/// The components of a path that are left, in order; what it gives is lent from the path's units.
#[derive(Drop)]
pub struct Components<'a> {
    // The pieces that are left.
    rest: Option<&'a [u16]>,
}

impl<'a> Model for Components<'a> {
    ghost use Rattle.std.specs.Prelude.{List, ℕ};
    ghost use Rattle.names.specs.Components.{components_left};

    ghost Value = { List (List ℕ) };

    ghost view = { λ c. components_left c.rest };
}

impl<'a> Iterator for Components<'a> {
    type Item = &'a [u16];

    ghost next_gives = { YieldsFirstBy (λ name. name.now) (λ left. left) };

    ghost remaining = { item_count (λ left. left) };

    /// The next component. It takes time linear in its units.
    fn next(&mut self) -> Option<&'a [u16]> {
        let rest = self.rest?;
        match split_once(rest, SEPARATOR) {
            Some((piece, more)) => {
                self.rest = Some(more);
                Some(before(piece, COLON))
            }
            None => {
                self.rest = None;
                Some(before(rest, COLON))
            }
        }
    }
}

/// Splits a path, or answers its first fault: more than 32,760 units are `TooLong`, and no `\` at
/// the start is `Empty`. Then the components from the left: no unit is `Empty`, more than 255 are
/// `TooLong`, `.` and `..` are `BadUnit` at their first unit, and a unit that no component has is
/// `BadUnit` at its place. Then the stream part of the last component: `BadStream`. The rules are
/// those of [MS-FSCC] 'Pathname', 'Filename' and 'Streamname'.
///
/// It takes time linear in the units, and no memory.
pub fn split_path<'a>(units: &'a [u16]) -> Result<PathParts<'a>, NameFault>
    ensures ok { IfOk result (λ parts. parts ≡ units.now) }
    ensures fault { FindsFault (path_fault units.now) result }
{
    if units.len() > MOST_PATH_UNITS {
        return Err(NameFault::TooLong);
    }
    let [SEPARATOR, rest @ ..] = units else {
        return Err(NameFault::Empty);
    };
    if rest.is_empty() {
        return Ok(PathParts { units, len: 0 });
    }
    let len = check_pieces(rest)?;
    Ok(PathParts { units, len })
}

// Whether the pieces of what follows the first `\` of a path are sound, and how many there are.
fn check_pieces(rest: &[u16]) -> Result<usize, NameFault>
    requires { length rest.now < most_path_units }
    ensures count { IfOk result (λ count. count ≡ length (slice_split is_separator rest.now)) }
    ensures fault { FindsFault (pieces_fault 1 (slice_split is_separator rest.now)) result }
{
    let mut left = rest;
    let mut place = 1;
    let mut count = 1;
    'pieces: while let Some((piece, more)) = split_once(left, SEPARATOR) {
        check_component(place, piece)?;
        place += piece.len() + 1;
        count += 1;
        left = more;
    }
    check_last(place, left)?;
    Ok(count)
}

// Whether the last piece of a path is sound; its first unit has this place.
fn check_last(place: usize, piece: &[u16]) -> Result<(), NameFault>
    requires { place + length piece.now < 2 ^ 63 }
    ensures { FindsFault (last_fault place piece.now) result }
{
    check_component(place, before(piece, COLON))?;
    check_stream(piece)
}
