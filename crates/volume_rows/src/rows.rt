//! The rows of a volume: files, links, streams and handles.

ghost use Rattle.std.specs.Prelude.{◌≡◌, ◌≤◌, ◌+◌, ◌^◌, length, option_map, OnOk};
ghost use Rattle.std.specs.List.{concat};
ghost use Rattle.fsa_types.specs.StreamBytes.{put, cut, slice};

use crate::cursors::Enumeration;
use fsa_types::{Bytes, Dacl, Name, NoMemory};
use std::marker::Model;
use stream_pages::{Parts, Stream};

/// A file or a directory, after [MS-FSA] 'Per File'. Times are ticks of the volume's clock.
pub struct FileRow {
    /// Whether it is a directory.
    pub directory: bool,
    /// READONLY, HIDDEN, SYSTEM and ARCHIVE, as kept.
    pub attributes: u32,
    /// When it was made.
    pub creation: u64,
    /// When it was last read; requests alone set it.
    pub access: u64,
    /// When its bytes were last changed.
    pub write: u64,
    /// When it was last changed.
    pub change: u64,
    /// The SID of its owner.
    pub owner: u32,
    /// Its access list; without one all access is granted.
    pub dacl: Option<Dacl>,
    /// The tag and the bytes of its reparse point, at most 16,376 bytes.
    pub point: Option<(u32, Bytes)>,
}

// One drop of the whole, so that it is one step at each end of a function that holds one.
impl Drop for FileRow {
    fn drop(self) {
        let FileRow {
            directory: _,
            attributes: _,
            creation: _,
            access: _,
            write: _,
            change: _,
            owner: _,
            dacl: _,
            point: _,
        } = self;
    }
}

impl Model for FileRow {
    ghost use Rattle.std.specs.Prelude.{option_map};
    ghost use Rattle.fsa_model.specs.Volume.{File};

    ghost Value = { File };

    ghost view = { λ r. record {
      directory = r.directory;
      attributes = r.attributes;
      creation = r.creation;
      access = r.access;
      write = r.write;
      change = r.change;
      owner = r.owner;
      dacl = option_map (λ dacl. dacl.items) r.dacl;
      point = r.point;
    } };
}

impl FileRow {
    /// Sets the times and the attributes.
    pub fn set_basic(
        &mut self,
        creation: u64,
        access: u64,
        write: u64,
        change: u64,
        attributes: u32,
    )
        ensures { self.new ≡ record self.old { creation = creation; access = access; write = write; change = change; attributes = attributes } }
    {
        self.creation = creation;
        self.access = access;
        self.write = write;
        self.change = change;
        self.attributes = attributes;
    }

    /// Sets the owner.
    pub fn set_owner(&mut self, owner: u32)
        ensures { self.new ≡ record self.old { owner = owner } }
    {
        self.owner = owner;
    }

    /// Sets the access list.
    pub fn set_dacl(&mut self, dacl: Option<Dacl>)
        ensures { self.new ≡ record self.old { dacl = option_map (λ list. list.items) dacl } }
    {
        self.dacl = dacl;
    }

    /// Sets the reparse point.
    pub fn set_point(&mut self, point: Option<(u32, Bytes)>)
        ensures { self.new ≡ record self.old { point = point } }
    {
        self.point = point;
    }
}

/// A name of a file in its parent directory, after [MS-FSA] 'Per Link'.
#[derive(Drop)]
pub struct LinkRow {
    /// The file number of the parent directory.
    pub parent: u64,
    /// The name, as it was given.
    pub name: Name,
    /// The file that it names.
    pub file: u64,
    /// Whether it is marked for deletion.
    pub deleted: bool,
}

impl Model for LinkRow {
    ghost use Rattle.fsa_model.specs.Volume.{Link};

    ghost Value = { Link };

    ghost view = { λ r. record { parent = r.parent; name = r.name; file = r.file; deleted = r.deleted } };
}

/// An open, after [MS-FSA] 'Per Open'.
pub struct HandleRow {
    /// The client, by its place in the setup.
    pub client: u32,
    /// The number of the client's call that opened it.
    pub number: u32,
    /// The link by which it was opened; 0 for the root.
    pub link: u64,
    /// Its stream; `None` exactly for a directory.
    pub stream: Option<u64>,
    /// The rights that were granted, as an `AccessMask`.
    pub access: u32,
    /// What others may have, as a `ShareAccess`.
    pub share: u32,
    /// The oplock key; 0 is the key of no other handle.
    pub key: u64,
    /// Whether the link or stream is marked for deletion when it closes.
    pub delete_on_close: bool,
    /// Its enumeration; `None` before the first query.
    pub enumeration: Option<Enumeration>,
}

// One drop of the whole, so that it is one step at each end of a function that holds one.
impl Drop for HandleRow {
    fn drop(self) {
        let HandleRow {
            client: _,
            number: _,
            link: _,
            stream: _,
            access: _,
            share: _,
            key: _,
            delete_on_close: _,
            enumeration: _,
        } = self;
    }
}

impl Model for HandleRow {
    ghost use Rattle.fsa_model.specs.Volume.{Handle};

    ghost Value = { Handle };

    ghost view = { λ r. record {
      client = r.client;
      number = r.number;
      link = r.link;
      stream = r.stream;
      access = r.access;
      share = r.share;
      key = r.key;
      delete_on_close = r.delete_on_close;
      enumeration = r.enumeration;
    } };
}

/// A stream of a file, after [MS-FSA] 'Per Stream', without its bytes.
#[derive(Drop)]
pub struct StreamInfo {
    /// Its file.
    pub file: u64,
    /// Its name; that of the default stream is empty.
    pub name: Name,
    /// How many bytes it has.
    pub length: u64,
    /// Whether it is marked for deletion.
    pub deleted: bool,
}

/// A stream with its bytes.
pub struct StreamRow {
    /// All but its bytes.
    pub info: StreamInfo,
    /// Its bytes.
    pub bytes: Stream,
}

// One drop of the whole, so that it is one step at each end of a function that holds one.
impl Drop for StreamRow {
    fn drop(self) {
        let StreamRow { info: _, bytes: _ } = self;
    }
}

impl Model for StreamRow {
    ghost use Rattle.std.specs.Prelude.{◌≡◌, length};
    ghost use Rattle.volume_rows.specs.Streams.{StreamRowView};

    ghost Value = { StreamRowView };

    ghost view = { λ r. record {
      stream = record { file = r.info.file; name = r.info.name; bytes = r.bytes.bytes; deleted = r.info.deleted };
      room = r.bytes.room;
    } };

    ghost invariant = { λ r. r.info.length ≡ length r.bytes.bytes };
}

/// Room to be taken, for how many more of each kind.
#[derive(Clone, Copy)]
pub struct Need {
    /// Files and directories.
    pub files: u32,
    /// Links of the directory `parent`.
    pub links: u32,
    /// Streams.
    pub streams: u32,
    /// Handles.
    pub handles: u32,
    /// Owners of files.
    pub owners: u32,
    /// Byte-range locks on the stream of `handle`.
    pub locks: u32,
    /// Oplocks on the stream of `handle`.
    pub oplocks: u32,
    /// Watches.
    pub watches: u32,
    /// Quota limits.
    pub limits: u32,
    /// Pending calls.
    pub pending: u32,
    /// Blockers of pending calls, in all.
    pub blockers: u32,
    /// Changes to be noted.
    pub changes: u32,
    /// Ends of calls.
    pub ends: u32,
    /// UTF-16 units of the paths of the changes, in all.
    pub units: u64,
    /// Ancestor directories of the changes, in all.
    pub dirs: u64,
    /// The file number of a directory, or 0 where `links` is 0.
    pub parent: u64,
    /// A handle, or 0 where `locks` and `oplocks` are 0.
    pub handle: u64,
}

impl Need {
    /// No room at all.
    pub fn nothing() -> Need
        ensures { result ≡ record { files = 0; links = 0; streams = 0; handles = 0; owners = 0; locks = 0; oplocks = 0; watches = 0; limits = 0; pending = 0; blockers = 0; changes = 0; ends = 0; units = 0; dirs = 0; parent = 0; handle = 0 } }
    {
        Need {
            files: 0,
            links: 0,
            streams: 0,
            handles: 0,
            owners: 0,
            locks: 0,
            oplocks: 0,
            watches: 0,
            limits: 0,
            pending: 0,
            blockers: 0,
            changes: 0,
            ends: 0,
            units: 0,
            dirs: 0,
            parent: 0,
            handle: 0,
        }
    }
}

impl StreamRow {
    ghost use Rattle.volume_rows.specs.Infos.{info_of};
    ghost use Rattle.volume_rows.specs.Streams.{StreamRowView};

    /// All but the bytes.
    pub fn info(&self) -> &StreamInfo
        ensures { result.now ≡ info_of self.now.stream }
    {
        &self.info
    }

    /// The name.
    pub fn name(&self) -> &[u16]
        ensures { result.now ≡ self.now.stream.name }
    {
        self.info.name.units()
    }

    /// How many bytes there are, at most 2^26.
    pub fn length(&self) -> u64
        ensures length { result ≡ length self.now.stream.bytes }
        ensures few { result ≤ 2 ^ 26 }
    {
        self.bytes.len()
    }

    /// `count` bytes from `at` on, lent in parts. They have to be there.
    pub fn parts(&self, at: u64, count: u64) -> Parts<'_>
        requires { at + count ≤ length self.now.stream.bytes }
        ensures { concat result ≡ slice self.now.stream.bytes at count }
    {
        self.bytes.parts(at, count)
    }

    /// Takes room for `count` bytes from `at` on, in place of the room that was taken before. Their end is
    /// at most 2^26. `NoMemory` where there is none.
    pub fn reserve(&mut self, at: u64, count: u64) -> Result<(), NoMemory>
        requires { at + count ≤ 2 ^ 26 }
        ensures stream { self.new.stream ≡ self.old.stream }
        ensures room { OnOk result (self.new.room ≡ record { from = at; to = at + count }) }
    {
        self.bytes.reserve(at, count)
    }

    /// Puts the piece at this place, a gap before it filled with zeros. Its end is at most 2^26.
    pub fn put(&mut self, at: u64, piece: &[u8])
        requires room { (self.old.room.from ≤ at) × (at + length piece.now ≤ self.old.room.to) }
        requires fits { at + length piece.now ≤ 2 ^ 26 }
        ensures stream { self.new.stream ≡ record self.old.stream { bytes = put self.old.stream.bytes at piece.now } }
    {
        let Ok(()) = self.bytes.write(at, piece) else {
            unreachable!()
        };
        self.info.length = self.bytes.len();
    }

    /// Makes the stream so long, at most 2^26 bytes. It takes no memory.
    pub fn set_length(&mut self, new_length: u64)
        requires fits { new_length ≤ 2 ^ 26 }
        ensures stream { self.new.stream ≡ record self.old.stream { bytes = cut self.old.stream.bytes new_length } }
    {
        self.bytes.set_len(new_length);
        self.info.length = new_length;
    }
}
