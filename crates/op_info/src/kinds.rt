//! The buffers without entries.

ghost use Rattle.std.specs.Prelude.{◌≡◌, IfOk};
ghost use Rattle.std.specs.Option.{option_map_or};
ghost use Rattle.fsa_model.specs.QueryInfo.{basic_of, is_delete_pending, standard_of, tag_of};
ghost use Rattle.fsa_model.specs.Walk.{point_of};

use fsa_types::{Bytes, NoMemory};
use op_parts::{
    access_time, change_time, creation_time, is_link_marked, is_marked, length_shown, named_stream,
    shown_attributes, space_shown, write_time,
};
use pack_info::{pack_basic, pack_standard, pack_tag};
use std::alloc::Global;
use volume_state::{HandleRow, Volume};

/// The four times and the attributes of a file, after [MS-FSCC] 'FileBasicInformation'.
pub fn basic_of(alloc: Global, volume: &Volume, file: u64) -> Result<Bytes, NoMemory>
    ensures { IfOk result (λ bytes. bytes ≡ basic_of volume.now.content file) }
{
    let creation = creation_time(volume, file);
    let access = access_time(volume, file);
    let write = write_time(volume, file);
    let change = change_time(volume, file);
    let attributes = shown_attributes(volume, file);
    pack_basic(alloc, creation, access, write, change, attributes)
}

// Whether what the handle was opened on will be deleted: its named stream, or else its link, is marked.
fn is_delete_pending(volume: &Volume, handle: &HandleRow) -> bool
    ensures { result ≡ is_delete_pending volume.now.content handle.now }
{
    match named_stream(volume, handle) {
        None => is_link_marked(volume, handle.link),
        Some(stream) => is_marked(volume, stream),
    }
}

/// The space and the length of the handle's stream, how many links of its file aren't marked, whether a
/// deletion is pending, and whether it is a directory, after [MS-FSCC] 'FileStandardInformation'.
pub fn standard_of(
    alloc: Global,
    volume: &Volume,
    handle: &HandleRow,
    file: u64,
) -> Result<Bytes, NoMemory>
    ensures { IfOk result (λ bytes. bytes ≡ standard_of volume.now.content handle.now file) }
{
    let space = space_shown(volume, handle.stream);
    let length = length_shown(volume, handle.stream);
    let (unmarked, _) = volume.links_of(file);
    let pending = is_delete_pending(volume, handle);
    let directory = volume.is_directory(file);
    pack_standard(alloc, space, length, unmarked, pending, directory)
}

// The tag of a file's reparse point; 0 where there is none.
fn point_tag(volume: &Volume, file: u64) -> u32
    ensures { result ≡ option_map_or (λ point. point.0) (point_of volume.now.content file) 0 }
{
    match volume.file(file) {
        None => 0,
        Some(row) => match &row.point {
            None => 0,
            Some(point) => point.0,
        },
    }
}

/// The attributes of a file, and the tag of its reparse point, 0 where there is none, after [MS-FSCC]
/// 'FileAttributeTagInformation'.
pub fn tag_of(alloc: Global, volume: &Volume, file: u64) -> Result<Bytes, NoMemory>
    ensures { IfOk result (λ bytes. bytes ≡ tag_of volume.now.content file) }
{
    let attributes = shown_attributes(volume, file);
    pack_tag(alloc, attributes, point_tag(volume, file))
}
