//! What is shown of a file and of a stream.

ghost use Rattle.std.specs.Prelude.{◌≡◌, ◌≤◌, ◌^◌, is_some, if◌then◌else◌};
ghost use Rattle.fsa_types.specs.Masks.{DIRECTORY, FILE_ATTRIBUTE_REPARSE_POINT};
ghost use Rattle.fsa_model.specs.ShownNumbers.{all_attributes, change_time, length_shown, shown_attributes, space_shown};

use bitflags::Flags;
use fsa_types::{CLUSTER_SIZE, FILE_ATTRIBUTE_REPARSE_POINT, FileAttributes, clusters_for};
use volume_state::{FileRow, Volume};

// DIRECTORY for a directory.
fn directory_bit(directory: bool) -> u32
    ensures { result ≡ (if directory then DIRECTORY else 0) }
{
    if directory {
        FileAttributes::DIRECTORY.bits()
    } else {
        0
    }
}

// FILE_ATTRIBUTE_REPARSE_POINT where there is a reparse point.
fn point_bit(point: bool) -> u32
    ensures { result ≡ (if point then FILE_ATTRIBUTE_REPARSE_POINT else 0) }
{
    if point {
        FILE_ATTRIBUTE_REPARSE_POINT
    } else {
        0
    }
}

// The attributes that are kept, with DIRECTORY and FILE_ATTRIBUTE_REPARSE_POINT where they are due.
fn all_attributes(file: &FileRow) -> u32
    ensures { result ≡ all_attributes file.now }
{
    file.attributes | directory_bit(file.directory) | point_bit(file.point.is_some())
}

/// The attributes of a file, with DIRECTORY for a directory and FILE_ATTRIBUTE_REPARSE_POINT where there is a reparse
/// point; NORMAL where none is left, or where there is no such file.
pub fn shown_attributes(volume: &Volume, file: u64) -> u32
    ensures { result ≡ shown_attributes volume.now.content file }
{
    let Some(row) = volume.file(file) else {
        return FileAttributes::NORMAL.bits();
    };
    let all = all_attributes(row);
    if all == 0 {
        FileAttributes::NORMAL.bits()
    } else {
        all
    }
}

/// When a file was last changed; 0 where there is no such file.
pub fn change_time(volume: &Volume, file: u64) -> u64
    ensures { result ≡ change_time volume.now.content file }
{
    match volume.file(file) {
        None => 0,
        Some(row) => row.change,
    }
}

/// The length of a stream in bytes, at most 2^26; 0 where there is none.
pub fn length_shown(volume: &Volume, stream: Option<u64>) -> u64
    ensures length { result ≡ length_shown volume.now.content stream }
    ensures few { result ≤ 2 ^ 26 }
{
    let Some(id) = stream else {
        return 0;
    };
    match volume.stream(id) {
        None => 0,
        Some(info) => info.length,
    }
}

/// The bytes of the clusters that a stream takes; 0 where there is none.
pub fn space_shown(volume: &Volume, stream: Option<u64>) -> u64
    ensures { result ≡ space_shown volume.now.content stream }
{
    CLUSTER_SIZE * clusters_for(length_shown(volume, stream))
}
