//! What a write changes.

ghost use Rattle.std.specs.Prelude.{◌≡◌, ◌≤◌, ◌+◌, ◌^◌, length, IsTrue};
ghost use Rattle.fsa_types.specs.Rows.{lives};
ghost use Rattle.fsa_model.specs.Lookups.{file_of_stream};
ghost use Rattle.fsa_model.specs.Write.{lengthens, stream_write_filters, with_file_written, with_write_noted, with_written, write_filters};
ghost use Rattle.op_data.specs.Conditions.{HasWriteRoom, noted_of_write};
ghost use Rattle.op_parts.specs.Room.{HasNoteRoom};
ghost use Rattle.volume_state.specs.Room.{KeepsEnds};

use crate::bytes::length_of;
use bitflags::Flags;
use fsa_types::{FILE_ACTION_MODIFIED, FILE_ACTION_MODIFIED_STREAM, FileAttributes, NotifyFilter};
use op_parts::{access_time, attributes_of, creation_time, is_named_stream, noted_stream};
use volume_state::Volume;

/// A write of a range of a stream, by a handle with this key that was opened by this link.
#[derive(Clone, Copy)]
pub struct Writing<'a> {
    /// The number of the handle.
    pub handle: u64,
    /// Its oplock key.
    pub key: u64,
    /// The number of its link.
    pub link: u64,
    /// The number of its stream.
    pub stream: u64,
    /// The place of the first byte.
    pub at: u64,
    /// The bytes.
    pub bytes: &'a [u8],
}

// The filters of a write of a default stream; `longer` says that the length changes.
fn write_filters(longer: bool) -> u32
    ensures { result ≡ write_filters longer }
{
    if longer {
        return NotifyFilter::LAST_WRITE.bits() | NotifyFilter::SIZE.bits();
    }
    NotifyFilter::LAST_WRITE.bits()
}

// The filters of a write of a named stream.
fn stream_write_filters(longer: bool) -> u32
    ensures { result ≡ stream_write_filters longer }
{
    if longer {
        return NotifyFilter::STREAM_WRITE.bits() | NotifyFilter::STREAM_SIZE.bits();
    }
    NotifyFilter::STREAM_WRITE.bits()
}

/// The stream of which a write to this one is noted: none for the default stream.
pub fn noted_of_write(volume: &Volume, stream: u64) -> Option<u64>
    ensures { result ≡ noted_of_write volume.now.content stream }
{
    noted_stream(stream, is_named_stream(volume, stream))
}

/// A write is noted, put, and its file has changed. The room is taken.
pub fn write_in_place(volume: &mut Volume, writing: Writing)
    requires lives { IsTrue (lives volume.old.content.streams writing.stream) }
    requires put { HasWriteRoom volume.old.content volume.old.spare writing.link writing.stream writing.at (length writing.bytes.now) }
    ensures content { volume.new.content ≡ with_written volume.old.content writing.entry.link writing.entry.stream writing.entry.at writing.entry.bytes.now }
    ensures ends { KeepsEnds volume.old volume.new }
{
    let file = file_of_stream(volume, writing.stream);
    let longer = lengthens(volume, writing.stream, writing.at, writing.bytes);
    note_write(volume, writing.link, writing.stream, longer);
    volume.put_bytes(writing.stream, writing.at, writing.bytes);
    write_file(volume, file);
}

// Whether a write of so many bytes at this place makes the stream longer.
fn lengthens(volume: &Volume, stream: u64, at: u64, bytes: &[u8]) -> bool
    requires lives { IsTrue (lives volume.now.content.streams stream) }
    requires fits { at + length bytes.now ≤ 2 ^ 26 }
    ensures { result ≡ lengthens volume.now.content stream at bytes.now }
{
    length_of(volume, stream) < at + bytes.len() as u64
}

/// The file of a stream; 0 where there is no such stream.
pub fn file_of_stream(volume: &Volume, stream: u64) -> u64
    ensures { result ≡ file_of_stream volume.now.content stream }
{
    match volume.stream(stream) {
        None => 0,
        Some(info) => info.file,
    }
}

/// A write is noted; `longer` says that the length changes. The room is taken.
pub fn note_write(volume: &mut Volume, link: u64, stream: u64, longer: bool)
    requires room { HasNoteRoom volume.old.content volume.old.spare link (noted_of_write volume.old.content stream) }
    ensures content { volume.new.content ≡ with_write_noted volume.old.content link stream longer }
    ensures others { volume.new.spare ≡ record volume.old.spare { changes = volume.new.spare.changes; units = volume.new.spare.units; dirs = volume.new.spare.dirs } }
    ensures ends { KeepsEnds volume.old volume.new }
{
    let noted = noted_of_write(volume, stream);
    note_write_of(volume, link, stream, noted, longer);
}

// A write is noted, of this stream of the file or else of the file.
fn note_write_of(volume: &mut Volume, link: u64, stream: u64, noted: Option<u64>, longer: bool)
    requires noted { noted ≡ noted_of_write volume.old.content stream }
    requires room { HasNoteRoom volume.old.content volume.old.spare link noted }
    ensures content { volume.new.content ≡ with_write_noted volume.old.content link stream longer }
    ensures others { volume.new.spare ≡ record volume.old.spare { changes = volume.new.spare.changes; units = volume.new.spare.units; dirs = volume.new.spare.dirs } }
    ensures ends { KeepsEnds volume.old volume.new }
{
    match noted {
        Some(_) => {
            let filters = stream_write_filters(longer);
            volume.note(link, FILE_ACTION_MODIFIED_STREAM, filters, noted);
        }
        None => {
            let filters = write_filters(longer);
            volume.note(link, FILE_ACTION_MODIFIED, filters, noted);
        }
    }
}

// A file is written at this moment.
fn write_file(volume: &mut Volume, file: u64)
    ensures content { volume.new.content ≡ with_file_written volume.old.content file }
    ensures spare { volume.new.spare ≡ volume.old.spare }
{
    let creation = creation_time(volume, file);
    let access = access_time(volume, file);
    let attributes = attributes_of(volume, file) | FileAttributes::ARCHIVE.bits();
    let now = volume.clock();
    volume.set_basic(file, creation, access, now, now, attributes);
}
