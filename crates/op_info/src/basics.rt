//! The times and attributes that are asked for, and what of them is noted.

ghost use Rattle.std.specs.Prelude.{◌≡◌, ◌≤◌};
ghost use Rattle.fsa_types.specs.Access.{has_any};
ghost use Rattle.fsa_types.specs.Masks.{DIRECTORY};
ghost use Rattle.fsa_model.specs.SetBasic.{attributes_set, basic_bits, bit_if, has_no_time, has_wrong_attributes};

use crate::times::{is_left, is_no_time};
use bitflags::Flags;
use fsa_types::{FileAttributes, NotifyFilter};
use op_parts::{has_other_attribute, kept_attributes};
use std::marker::Model;
use volume_state::Volume;

/// What is asked: the four times, in ticks, and the attributes, as FILE_ATTRIBUTE bits.
#[derive(Clone, Copy)]
pub struct Basics {
    /// The time of creation.
    pub creation: u64,
    /// The time of the last access.
    pub access: u64,
    /// The time of the last write.
    pub write: u64,
    /// The time of the last change.
    pub change: u64,
    /// The attributes.
    pub attributes: u32,
}

impl Model for Basics {
    ghost use Rattle.fsa_model.specs.SetBasic.{Basics as Asked};

    ghost Value = { Asked };

    ghost view = { λ b. record {
      creation = b.creation;
      access = b.access;
      write = b.write;
      change = b.change;
      attributes = b.attributes;
    } };

    ghost inverse = { λ b. record {
      creation = b.creation;
      access = b.access;
      write = b.write;
      change = b.change;
      attributes = b.attributes;
    } };
}

/// The attributes that are set, where they were `old`: 0 leaves them.
pub fn attributes_set(asked: u32, old: u32) -> u32
    ensures { result ≡ attributes_set asked old }
{
    if asked == 0 {
        old
    } else {
        kept_attributes(asked)
    }
}

// The bit, where the field is set.
fn bit_if(set: bool, bit: u32) -> u32
    ensures is { result ≡ bit_if set bit }
    ensures most { result ≤ bit }
{
    if set { bit } else { 0 }
}

/// The filter bits of the fields that aren't left; the time of the last change has none.
pub fn basic_bits(asked: &Basics) -> u32
    ensures { result ≡ basic_bits asked.now }
{
    bit_if(asked.attributes != 0, NotifyFilter::ATTRIBUTES.bits())
        + bit_if(!is_left(asked.write), NotifyFilter::LAST_WRITE.bits())
        + bit_if(!is_left(asked.access), NotifyFilter::LAST_ACCESS.bits())
        + bit_if(!is_left(asked.creation), NotifyFilter::CREATION.bits())
}

/// Whether one of the four is no time, and leaves none.
pub fn has_no_time(asked: &Basics) -> bool
    ensures { result ≡ has_no_time asked.now }
{
    is_no_time(asked.creation)
        || is_no_time(asked.access)
        || is_no_time(asked.write)
        || is_no_time(asked.change)
}

// Whether DIRECTORY is among them.
fn asks_directory(attributes: u32) -> bool
    ensures { result ≡ has_any attributes DIRECTORY }
{
    FileAttributes::from_bits_retain(attributes).intersects(FileAttributes::DIRECTORY)
}

/// Whether there is an attribute that isn't accepted, or DIRECTORY is asked of a file.
pub fn has_wrong_attributes(volume: &Volume, file: u64, attributes: u32) -> bool
    ensures { result ≡ has_wrong_attributes volume.now.content file attributes }
{
    has_other_attribute(attributes) || (asks_directory(attributes) && !volume.is_directory(file))
}
