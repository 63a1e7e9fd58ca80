//! An open whose path has no fault.

ghost use Rattle.std.specs.Prelude.{◌≡◌, ℕ, List, [], true, false, ◌||◌, ◌==◌, not, length, option_map, None};
ghost use Rattle.fsa_types.specs.CaseTable.{same_name};
ghost use Rattle.fsa_types.specs.Paths.{path_fault, stream_part};
ghost use Rattle.fsa_model.specs.Open.{asks_for_file, has_stream_part, names_stream, overwrites, stream_name, wants_file};

use crate::asked::{Asked, overwrites};
use names::PathParts;
use std::marker::Model;

/// What an open asks for, beside the stream part of its path.
#[derive(Drop)]
pub struct Opening<'a> {
    asked: &'a Asked<'a>,
    stream: Option<&'a [u16]>,
}

impl<'a> Model for Opening<'a> {
    ghost use Rattle.std.specs.Prelude.{◌≡◌, option_map};
    ghost use Rattle.fsa_types.specs.Paths.{stream_part};
    ghost use Rattle.fsa_model.specs.Open.{Asked as Asking};

    ghost Value = { Asking };

    ghost view = { λ o. o.asked.now };

    ghost invariant = { λ o. option_map (λ name. name.now) o.stream ≡ stream_part o.asked.now.path };
}

impl<'a> Opening<'a> {
    /// An open and the parts of its path.
    pub fn new(asked: &'a Asked<'a>, parts: &PathParts<'a>) -> Opening<'a>
        requires path { parts.now ≡ asked.now.path }
        ensures { result ≡ asked.now }
    {
        Opening {
            asked,
            stream: parts.stream(),
        }
    }

    /// What is asked for.
    pub fn asked(&self) -> &'a Asked<'a>
        ensures { result.now ≡ self.now }
    {
        self.asked
    }

    /// Whether the path has a stream part.
    pub fn has_stream_part(&self) -> bool
        ensures { result ≡ has_stream_part self.now.path }
    {
        self.stream.is_some()
    }

    /// The name of the stream; empty for the default stream.
    pub fn stream_name(&self) -> &'a [u16]
        ensures { result.now ≡ stream_name self.now.path }
    {
        self.stream.unwrap_or(&[])
    }

    /// Whether the path names a stream that isn't the default stream.
    pub fn names_stream(&self) -> bool
        ensures named { result ≡ names_stream self.now.path }
        ensures differs { result ≡ true → (table : List (ℕ × ℕ)) → same_name table [] (stream_name self.now.path) ≡ false }
    {
        !self.stream_name().is_empty()
    }

    /// Whether a file is asked for, by an option, a stream or an overwrite.
    pub fn asks_for_file(&self) -> bool
        ensures { result ≡ asks_for_file self.now }
    {
        let asked = self.asked;
        asked.wants_file() || self.has_stream_part() || overwrites(asked.disposition)
    }
}
