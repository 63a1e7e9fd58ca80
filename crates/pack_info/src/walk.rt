//! Entries of a buffer, lent one after the other.

ghost use Rattle.std.specs.Prelude.{◌≡◌, ◌<◌, ◌≤◌, ◌↔◌, IsTrue, ◌∷◌, List, ℕ, length, IfSome, IfNone, IfOk};
ghost use Rattle.pack_info.specs.Entries.{AreEntries, BeginsWithEntry};
ghost use Rattle.fsa_types.specs.Packing.{Packed, head_size, entries_bytes};
ghost use Rattle.fsa_types.specs.PackedRows.{pack_kind};
ghost use Rattle.pack_info.specs.Walks.{seen, HasConstants, WalkState, StepsToEntry, GivesEntry, left_of};

use crate::layout::size_of_head;
use crate::pack::pack_kind;
use crate::reading::{Head, head_at};
use crate::tail::tail_at;
use fsa_types::{DirKind, PackKind};
use std::marker::Model;

/// An entry of a buffer. A number that the layout doesn't have is 0; the name is lent from the
/// buffer.
#[derive(Clone, Copy)]
pub struct PackedEntry<'a> {
    /// The action of a change.
    pub action: u32,
    /// The time of creation.
    pub creation: u64,
    /// The time of the last access.
    pub access: u64,
    /// The time of the last write.
    pub write: u64,
    /// The time of the last change.
    pub change: u64,
    /// The length in bytes.
    pub length: u64,
    /// The allocation in bytes.
    pub room: u64,
    /// The attributes.
    pub attributes: u32,
    /// The number of the file.
    pub file: u64,
    /// The bytes of the field of the name.
    pub name: &'a [u8],
}

// Whether the constants of a head are 0.
fn has_constants(head: &Head) -> bool
    ensures { IsTrue result ↔ HasConstants head.now }
{
    head.index == 0 && head.attributes_size == 0 && head.reserved == 0
}

// The first entry of a buffer, and what follows it.
fn entry_at<'a>(kind: PackKind, bytes: &'a [u8]) -> Option<(PackedEntry<'a>, &'a [u8])>
    ensures found { IfSome result (λ p. BeginsWithEntry kind bytes.now (seen p.0) p.1.now) }
    ensures only { IfNone result ((e : Packed) (rest : List ℕ) → BeginsWithEntry kind bytes.now e rest → ⊥) }
{
    if bytes.len() < size_of_head(kind) {
        return None;
    }
    let (head, after) = head_at(kind, bytes);
    if !has_constants(&head) {
        return None;
    }
    let Some((name, rest)) = tail_at(kind, head.next, head.len, after) else {
        return None;
    };
    let entry = PackedEntry {
        action: head.numbers.action,
        creation: head.numbers.creation,
        access: head.numbers.access,
        write: head.numbers.write,
        change: head.numbers.change,
        length: head.numbers.length,
        room: head.numbers.room,
        attributes: head.numbers.attributes,
        file: head.numbers.file,
        name,
    };
    Some((entry, rest))
}

/// The bytes at this place are in no layout.
#[derive(Clone, Copy)]
pub struct Malformed {
    /// The place, from the start of the buffer.
    pub place: usize,
}

// A walk: a buffer, and how far it was walked.
#[derive(Drop)]
struct Walk<'a> {
    kind: PackKind,
    buffer: &'a [u8],
    place: usize,
}

impl<'a> Model for Walk<'a> {
    ghost use Rattle.std.specs.Prelude.{◌≤◌, length};
    ghost use Rattle.pack_info.specs.Walks.{WalkState};

    ghost Value = { WalkState };

    ghost view = { λ w. record { kind = w.kind; buffer = w.buffer.now; place = w.place } };

    ghost invariant = { λ w. w.place ≤ length w.buffer.now };
}

impl<'a> Walk<'a> {
    fn of(kind: PackKind, buffer: &'a [u8]) -> Walk<'a>
        ensures { result ≡ record { kind = kind; buffer = buffer.now; place = 0 } }
    {
        Walk {
            kind,
            buffer,
            place: 0,
        }
    }

    // The next entry. `Malformed` leaves the walk as it was.
    fn next(&mut self) -> Result<Option<PackedEntry<'a>>, Malformed>
        ensures step { StepsToEntry self.old self.new result }
        ensures again { (e : Packed) (es : List Packed) → AreEntries self.old.kind (e ∷ es) → left_of self.old ≡ entries_bytes self.old.kind (e ∷ es)
            → GivesEntry e result × (left_of self.new ≡ entries_bytes self.old.kind es) }
    {
        if self.place == self.buffer.len() {
            return Ok(None);
        }
        let (_, left) = self.buffer.split_at(self.place);
        let Some((entry, rest)) = entry_at(self.kind, left) else {
            return Err(Malformed { place: self.place });
        };
        self.place = self.buffer.len() - rest.len();
        Ok(Some(entry))
    }
}

/// The entries of a buffer of changes.
#[derive(Drop)]
pub struct NotifyEntries<'a> {
    walk: Walk<'a>,
}

impl<'a> Model for NotifyEntries<'a> {
    ghost use Rattle.pack_info.specs.Walks.{WalkState};

    ghost Value = { WalkState };

    ghost view = { λ w. w.walk };
}

impl<'a> NotifyEntries<'a> {
    /// A walk of this buffer.
    pub fn of(bytes: &'a [u8]) -> NotifyEntries<'a>
        ensures { result ≡ record { kind = PackKind.Changes; buffer = bytes.now; place = 0 } }
    {
        NotifyEntries {
            walk: Walk::of(PackKind::Changes, bytes),
        }
    }

    /// The next entry. `Malformed` leaves the walk as it was.
    pub fn next(&mut self) -> Result<Option<PackedEntry<'a>>, Malformed>
        ensures step { StepsToEntry self.old self.new result }
        ensures again { (e : Packed) (es : List Packed) → AreEntries self.old.kind (e ∷ es) → left_of self.old ≡ entries_bytes self.old.kind (e ∷ es)
            → GivesEntry e result × (left_of self.new ≡ entries_bytes self.old.kind es) }
    {
        self.walk.next()
    }
}

/// The entries of a buffer of streams.
#[derive(Drop)]
pub struct StreamEntries<'a> {
    walk: Walk<'a>,
}

impl<'a> Model for StreamEntries<'a> {
    ghost use Rattle.pack_info.specs.Walks.{WalkState};

    ghost Value = { WalkState };

    ghost view = { λ w. w.walk };
}

impl<'a> StreamEntries<'a> {
    /// A walk of this buffer.
    pub fn of(bytes: &'a [u8]) -> StreamEntries<'a>
        ensures { result ≡ record { kind = PackKind.Streams; buffer = bytes.now; place = 0 } }
    {
        StreamEntries {
            walk: Walk::of(PackKind::Streams, bytes),
        }
    }

    /// The next entry. `Malformed` leaves the walk as it was.
    pub fn next(&mut self) -> Result<Option<PackedEntry<'a>>, Malformed>
        ensures step { StepsToEntry self.old self.new result }
        ensures again { (e : Packed) (es : List Packed) → AreEntries self.old.kind (e ∷ es) → left_of self.old ≡ entries_bytes self.old.kind (e ∷ es)
            → GivesEntry e result × (left_of self.new ≡ entries_bytes self.old.kind es) }
    {
        self.walk.next()
    }
}

/// The entries of a buffer of a directory's entries.
#[derive(Drop)]
pub struct DirEntries<'a> {
    walk: Walk<'a>,
}

impl<'a> Model for DirEntries<'a> {
    ghost use Rattle.pack_info.specs.Walks.{WalkState};

    ghost Value = { WalkState };

    ghost view = { λ w. w.walk };
}

impl<'a> DirEntries<'a> {
    /// A walk of this buffer.
    pub fn of(kind: DirKind, bytes: &'a [u8]) -> DirEntries<'a>
        ensures { result ≡ record { kind = pack_kind kind; buffer = bytes.now; place = 0 } }
    {
        DirEntries {
            walk: Walk::of(pack_kind(kind), bytes),
        }
    }

    /// The next entry. `Malformed` leaves the walk as it was.
    pub fn next(&mut self) -> Result<Option<PackedEntry<'a>>, Malformed>
        ensures step { StepsToEntry self.old self.new result }
        ensures again { (e : Packed) (es : List Packed) → AreEntries self.old.kind (e ∷ es) → left_of self.old ≡ entries_bytes self.old.kind (e ∷ es)
            → GivesEntry e result × (left_of self.new ≡ entries_bytes self.old.kind es) }
    {
        self.walk.next()
    }
}
