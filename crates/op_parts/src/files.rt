//! What a file is.

ghost use Rattle.std.specs.Prelude.{◌≡◌};
ghost use Rattle.fsa_model.specs.Lookups.{access_time, attributes_of, creation_time, owner_of, write_time};
ghost use Rattle.fsa_model.specs.Open.{is_readonly};
ghost use Rattle.fsa_model.specs.Security.{with_change_time};

use bitflags::Flags;
use fsa_types::FileAttributes;
use volume_state::Volume;

/// When a file was made; 0 where there is no such file.
pub fn creation_time(volume: &Volume, file: u64) -> u64
    ensures { result ≡ creation_time volume.now.content file }
{
    match volume.file(file) {
        None => 0,
        Some(row) => row.creation,
    }
}

/// When a file was last read; 0 where there is no such file.
pub fn access_time(volume: &Volume, file: u64) -> u64
    ensures { result ≡ access_time volume.now.content file }
{
    match volume.file(file) {
        None => 0,
        Some(row) => row.access,
    }
}

/// When a file was last written; 0 where there is no such file.
pub fn write_time(volume: &Volume, file: u64) -> u64
    ensures { result ≡ write_time volume.now.content file }
{
    match volume.file(file) {
        None => 0,
        Some(row) => row.write,
    }
}

/// The attributes of a file; none where there is no such file.
pub fn attributes_of(volume: &Volume, file: u64) -> u32
    ensures { result ≡ attributes_of volume.now.content file }
{
    match volume.file(file) {
        None => 0,
        Some(row) => row.attributes,
    }
}

/// Whether a file is READONLY; `false` where there is no such file.
pub fn is_readonly(volume: &Volume, file: u64) -> bool
    ensures { result ≡ is_readonly volume.now.content file }
{
    FileAttributes::from_bits_retain(attributes_of(volume, file)).intersects(
        FileAttributes::READONLY,
    )
}

/// The SID of a file's owner; 0 where there is no such file.
pub fn owner_of(volume: &Volume, file: u64) -> u32
    ensures { result ≡ owner_of volume.now.content file }
{
    match volume.file(file) {
        None => 0,
        Some(row) => row.owner,
    }
}

/// The change time of a file is this moment; nothing changes where there is no such file.
pub fn set_change_time(volume: &mut Volume, file: u64)
    ensures content { volume.new.content ≡ with_change_time volume.old.content file }
    ensures rest { volume.new.content ≡ record volume.old.content { files = volume.new.content.files } }
    ensures spare { volume.new.spare ≡ volume.old.spare }
{
    let creation = creation_time(volume, file);
    let access = access_time(volume, file);
    let write = write_time(volume, file);
    let attributes = attributes_of(volume, file);
    let now = volume.clock();
    volume.set_basic(file, creation, access, write, now, attributes);
}
