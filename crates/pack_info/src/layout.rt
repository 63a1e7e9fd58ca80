//! The layouts of entries as tables of numbers.

ghost use Rattle.std.specs.Prelude.{◌≡◌, ◌+◌, ◌-◌, ◌<◌, ◌≤◌, ◌^◌, ◌++◌, length, OnOk};
ghost use Rattle.fsa_types.specs.PackedRows.{NumbersFit};
ghost use Rattle.fsa_types.specs.Packing.{head, head_size, align, rounded};

use crate::number::{Number, push_numbers};
use fsa_types::{NoMemory, PackKind};
use std::marker::Model;

// The numbers of a row. One that a row of its kind doesn't have is 0.
#[derive(Clone, Copy)]
pub(crate) struct Numbers {
    pub action: u32,
    pub creation: u64,
    pub access: u64,
    pub write: u64,
    pub change: u64,
    pub length: u64,
    pub room: u64,
    pub attributes: u32,
    pub file: u64,
}

impl Model for Numbers {
    ghost use Rattle.fsa_types.specs.PackedRows.{Numbers as RowNumbers};

    ghost Value = { RowNumbers };

    ghost view = { λ n. record {
      action = n.action;
      creation = n.creation;
      access = n.access;
      write = n.write;
      change = n.change;
      length = n.length;
      room = n.room;
      attributes = n.attributes;
      file = n.file;
    } };

    ghost inverse = { λ n. record {
      action = n.action;
      creation = n.creation;
      access = n.access;
      write = n.write;
      change = n.change;
      length = n.length;
      room = n.room;
      attributes = n.attributes;
      file = n.file;
    } };
}

impl Numbers {
    // No number at all.
    pub(crate) fn none() -> Numbers
        ensures { result ≡ record { action = 0; creation = 0; access = 0; write = 0; change = 0; length = 0; room = 0; attributes = 0; file = 0 } }
    {
        Numbers {
            action: 0,
            creation: 0,
            access: 0,
            write: 0,
            change: 0,
            length: 0,
            room: 0,
            attributes: 0,
            file: 0,
        }
    }
}

fn fits_four(n: u32)
    ensures { n < 2 ^ 32 }
{}

fn fits_eight(n: u64)
    ensures { n < 2 ^ 64 }
{}

// Each number fits its width.
pub(crate) fn numbers_fit(n: &Numbers)
    ensures { NumbersFit n.now }
{
    fits_four(n.action);
    fits_eight(n.creation);
    fits_eight(n.access);
    fits_eight(n.write);
    fits_eight(n.change);
    fits_eight(n.length);
    fits_eight(n.room);
    fits_four(n.attributes);
    fits_eight(n.file);
}

/// The bytes of an entry before its name, from 12 to 80.
pub fn size_of_head(kind: PackKind) -> usize
    ensures { result ≡ head_size kind }
{
    match kind {
        PackKind::Changes | PackKind::Names => 12,
        PackKind::Dir => 64,
        PackKind::Full => 68,
        PackKind::IdFull => 80,
        PackKind::Streams => 24,
    }
}

// What each entry but the last is padded to.
pub(crate) fn alignment(kind: PackKind) -> usize
    ensures { result ≡ align kind }
{
    match kind {
        PackKind::Changes => 4,
        _ => 8,
    }
}

// The next multiple of the alignment.
pub(crate) fn round_up(kind: PackKind, size: usize) -> usize
    requires { size < 2 ^ 63 }
    ensures { result ≡ rounded kind size }
{
    let step = alignment(kind);
    (size + (step - 1)) / step * step
}

// Writes what stands before the name.
#[tactic(auto, unfolding(fsa_types::specs::Packing::head))]
pub(crate) fn push_head(
    out: &mut Vec<u8>,
    kind: PackKind,
    n: &Numbers,
    next: u32,
    len: u32,
) -> Result<(), NoMemory>
    ensures { OnOk result (out.new.items ≡ out.old.items ++ head kind n.now next len) }
{
    let (next, len) = (Number::Four(next), Number::Four(len));
    let zero = Number::Four(0);
    let (creation, access) = (Number::Eight(n.creation), Number::Eight(n.access));
    let (write, change) = (Number::Eight(n.write), Number::Eight(n.change));
    let (length, room) = (Number::Eight(n.length), Number::Eight(n.room));
    let attributes = Number::Four(n.attributes);
    match kind {
        PackKind::Changes => push_numbers(out, &[next, Number::Four(n.action), len]),
        PackKind::Names => push_numbers(out, &[next, zero, len]),
        PackKind::Dir => push_numbers(
            out,
            &[
                next, zero, creation, access, write, change, length, room, attributes, len,
            ],
        ),
        PackKind::Full => push_numbers(
            out,
            &[
                next, zero, creation, access, write, change, length, room, attributes, len, zero,
            ],
        ),
        PackKind::IdFull => push_numbers(
            out,
            &[
                next,
                zero,
                creation,
                access,
                write,
                change,
                length,
                room,
                attributes,
                len,
                zero,
                zero,
                Number::Eight(n.file),
            ],
        ),
        PackKind::Streams => push_numbers(out, &[next, len, length, room]),
    }
}
