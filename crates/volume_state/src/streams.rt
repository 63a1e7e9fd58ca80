//! Streams and their bytes.

ghost use Rattle.std.specs.Prelude.{ℕ, ◌≡◌, ◌≤◌, ◌<◌, ◌+◌, ◌-◌, ◌^◌, ◌==◌, ◌⊎◌, not, List, Option, IsTrue, IsSome, IfSome, Some, None, OnOk, true, false, ◌&&◌, filter, map, option_map, find, length};
ghost use Rattle.std.specs.Option.{option_copied, option_map_or};
ghost use Rattle.fsa_types.specs.Rows.{row_of, lives, with_row_changed};
ghost use Rattle.fsa_types.specs.CaseTable.{same_name};
ghost use Rattle.fsa_model.specs.Changes.{units_noted, dirs_noted};
ghost use Rattle.fsa_model.specs.Edits.{with_stream, with_stream_marked, with_bytes, with_length, without_stream};
ghost use Rattle.fsa_model.specs.Lookups.{stream_of, bytes_of, has_row, is_directory, is_open_on, is_stream_named};
ghost use Rattle.fsa_model.specs.Sound.{is_stream_of_link};
ghost use Rattle.volume_rows.specs.Infos.{info_of};
ghost use Rattle.volume_state.specs.Living.{is_link_to};
ghost use Rattle.volume_state.specs.VolumeView.{CanWrite, CanReach};
ghost use Rattle.fsa_types.specs.StreamBytes.{slice};
ghost use Rattle.std.specs.List.{concat};

use crate::growth::{clusters_at, part_of_stream, resize};
use crate::volume::Volume;
use fsa_types::{Name, NoMemory};
use stream_pages::{Parts, Stream};
use volume_rows::{StreamInfo, StreamRow};

impl Volume {
    /// The stream of this number, without its bytes; `None` exactly where there is none.
    pub fn stream(&self, id: u64) -> Option<&StreamInfo>
        ensures info { option_copied result ≡ option_map info_of (row_of self.now.content.streams id) }
        ensures lives { lives self.now.content.streams id ≡ true → IsSome result }
        ensures file { IfSome result (λ info. IsTrue (lives self.now.content.files info.now.file)) }
        ensures few { IfSome result (λ info. info.now.length ≤ 2 ^ 26) }
    {
        match self.streams.get(id) {
            None => None,
            Some(row) => Some(row.info()),
        }
    }

    /// The stream of the same name of this file; `None` exactly where there is none. The default
    /// stream's name is empty.
    pub fn stream_of(&self, file: u64, units: &[u16]) -> Option<u64>
        ensures found { result ≡ stream_of self.now.content file units.now }
        ensures lives { IfSome result (λ id. IsTrue (lives self.now.content.streams id)) }
        ensures of_link { IfSome result (λ id. (link : ℕ) → IsTrue (is_link_to self.now.content.links link file) → IsTrue (is_stream_of_link self.now.content.links self.now.content.streams link id)) }
    {
        self.streams.named(self.links.table(), file, units)
    }

    /// `count` bytes of a stream from place `at` on, lent in parts. There has to be such a stream, and it
    /// has to have these bytes. It takes no memory.
    pub fn parts_of(&self, stream: u64, at: u64, count: u64) -> Parts<'_>
        requires lives { IsTrue (lives self.now.content.streams stream) }
        requires within { at + count ≤ length (bytes_of self.now.content stream) }
        ensures bytes { concat result ≡ slice (bytes_of self.now.content stream) at count }
    {
        match self.streams.get(stream) {
            None => unreachable!(),
            Some(row) => row.parts(at, count),
        }
    }

    /// Adds an empty stream to a file, and gives its number. The default stream has an empty name.
    pub fn add_stream(&mut self, file: u64, name: Name) -> u64
        requires room { 1 ≤ self.old.spare.streams }
        requires ids_left { self.old.content.last_stream + 1 < 2 ^ 32 - 1 }
        requires file { IsTrue (lives self.old.content.files file) }
        requires no_directory { is_directory self.old.content.files file ≡ false }
        requires new { stream_of self.old.content file name ≡ None }
        ensures content { self.new.content ≡ with_stream self.old.content file name }
        ensures beside { self.new.beside ≡ self.old.beside }
        ensures others { self.new.spare ≡ record self.old.spare { streams = self.new.spare.streams; bytes = self.new.spare.bytes } }
        ensures bytes { (other : ℕ) → (other == result) ≡ false → row_of self.new.spare.bytes other ≡ row_of self.old.spare.bytes other }
        ensures left { self.old.spare.streams ≤ self.new.spare.streams + 1 }
        ensures id { result ≡ self.old.content.last_stream + 1 }

        // It lives and is one of each link of the file; of other names nothing else is found; a note
        // of it takes the room that one of the file takes, and its name with the `:`.
        ensures lives { IsTrue (lives self.new.content.streams result) }
        ensures of_link { (link : ℕ) → IsTrue (is_link_to self.new.content.links link file) → IsTrue (is_stream_of_link self.new.content.links self.new.content.streams link result) }
        ensures named { (other : ℕ) (units : List ℕ) → (file == other && same_name self.old.content.table name units) ≡ false → stream_of self.new.content other units ≡ stream_of self.old.content other units }
        ensures units { (link : ℕ) → units_noted self.new.content link (Some result) ≤ units_noted self.old.content link None + 1 + length name }
        ensures dirs { (link : ℕ) → dirs_noted self.new.content link (Some result) ≡ dirs_noted self.old.content link None }
    {
        let info = StreamInfo {
            file,
            name,
            length: 0,
            deleted: false,
        };
        let bytes = Stream::new(self.alloc);
        self.streams.add(StreamRow { info, bytes })
    }

    /// Marks a stream for deletion, or clears its mark.
    pub fn mark_stream(&mut self, stream: u64, deleted: bool)
        ensures content { self.new.content ≡ with_stream_marked self.old.content stream deleted }
        ensures beside { self.new.beside ≡ self.old.beside }
        ensures room { self.new.spare ≡ self.old.spare }

        // A note takes the room that it took.
        ensures units { (link : ℕ) (of : Option ℕ) → units_noted self.new.content link of ≡ units_noted self.old.content link of }
        ensures dirs { (link : ℕ) (of : Option ℕ) → dirs_noted self.new.content link of ≡ dirs_noted self.old.content link of }
    {
        self.streams.mark(stream, deleted);
    }

    /// Takes room for `count` bytes of a stream from place `at` on, and for making it so long as their
    /// end. There has to be such a stream, and the end is at most 2^26. `NoMemory` where there is none.
    pub fn reserve_bytes(&mut self, stream: u64, at: u64, count: u64) -> Result<(), NoMemory>
        requires lives { IsTrue (lives self.old.content.streams stream) }
        requires fits { at + count ≤ 2 ^ 26 }
        ensures content { self.new.content ≡ self.old.content }
        ensures beside { self.new.beside ≡ self.old.beside }
        ensures others { self.new.spare ≡ record self.old.spare { bytes = self.new.spare.bytes } }
        ensures bytes { (other : ℕ) → (other == stream) ≡ false → row_of self.new.spare.bytes other ≡ row_of self.old.spare.bytes other }
        ensures room { OnOk result (CanWrite self.new.spare stream at count) }
        ensures reach { OnOk result (CanReach self.new.spare stream (at + count)) }
    {
        self.streams.reserve_bytes(stream, at, count)
    }

    /// Puts bytes into a stream at place `at`, a gap before them filled with zeros. Room for them has
    /// to be reserved, and their end is at most 2^26.
    pub fn put_bytes(&mut self, stream: u64, at: u64, bytes: &[u8])
        requires room { CanWrite self.old.spare stream at (length bytes.now) }
        requires fits { at + length bytes.now ≤ 2 ^ 26 }
        ensures content { self.new.content ≡ with_bytes self.old.content stream at bytes.now }
        ensures beside { self.new.beside ≡ self.old.beside }
        ensures others { self.new.spare ≡ record self.old.spare { bytes = self.new.spare.bytes } }
        ensures bytes { (other : ℕ) → (other == stream) ≡ false → row_of self.new.spare.bytes other ≡ row_of self.old.spare.bytes other }
    {
        let part = part_of_stream(&self.files, &self.streams, stream);
        self.streams.put(stream, at, bytes);
        let after = clusters_at(&self.streams, stream);
        resize(&mut self.space, part, after);
    }

    /// Makes a stream so many bytes long, with zeros beyond its old end. Where it grows room has to
    /// be reserved; the length is at most 2^26.
    pub fn set_length(&mut self, stream: u64, bytes: u64)
        requires room { CanReach self.old.spare stream bytes ⊎ (bytes ≤ length (bytes_of self.old.content stream)) }
        requires fits { bytes ≤ 2 ^ 26 }
        ensures content { self.new.content ≡ with_length self.old.content stream bytes }
        ensures beside { self.new.beside ≡ self.old.beside }
        ensures others { self.new.spare ≡ record self.old.spare { bytes = self.new.spare.bytes } }
        ensures bytes { (other : ℕ) → (other == stream) ≡ false → row_of self.new.spare.bytes other ≡ row_of self.old.spare.bytes other }
    {
        let part = part_of_stream(&self.files, &self.streams, stream);
        self.streams.set_length(stream, bytes);
        let after = clusters_at(&self.streams, stream);
        resize(&mut self.space, part, after);
    }

    /// Takes a stream out. No handle may be open on it.
    pub fn drop_stream(&mut self, stream: u64)
        requires unopened { has_row (is_open_on stream) self.old.content.handles ≡ false }
        ensures content { self.new.content ≡ without_stream self.old.content stream }
        ensures beside { self.new.beside ≡ self.old.beside }
        ensures others { self.new.spare ≡ record self.old.spare { streams = self.new.spare.streams; bytes = self.new.spare.bytes } }
        ensures bytes { (other : ℕ) → (other == stream) ≡ false → row_of self.new.spare.bytes other ≡ row_of self.old.spare.bytes other }
        ensures kept { self.old.spare.streams ≤ self.new.spare.streams }

        // A note takes no more room than it took.
        ensures units { (other : ℕ) (of : Option ℕ) → units_noted self.new.content other of ≤ units_noted self.old.content other of }
        ensures dirs { (other : ℕ) (of : Option ℕ) → dirs_noted self.new.content other of ≤ dirs_noted self.old.content other of }
    {
        let part = part_of_stream(&self.files, &self.streams, stream);
        self.streams.remove(stream);
        resize(&mut self.space, part, 0);
    }
}
