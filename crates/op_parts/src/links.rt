//! What a link is.

ghost use Rattle.std.specs.Prelude.{◌≡◌, true, false, IfSome};
ghost use Rattle.fsa_types.specs.Rows.{row_of};
ghost use Rattle.fsa_model.specs.Close.{is_link_of_parent, name_bit};
ghost use Rattle.fsa_model.specs.Lookups.{file_of_link, has_child, is_directory, is_link_marked, linked_file};

use bitflags::Flags;
use fsa_types::NotifyFilter;
use volume_state::Volume;

/// The file of a link; 0 where there is no such link.
pub fn linked_file(volume: &Volume, link: u64) -> u64
    ensures { result ≡ linked_file volume.now.content link }
{
    match volume.link(link) {
        None => 0,
        Some(row) => row.file,
    }
}

/// The file of a link, of link 0 the root; `None` exactly where there is no such link.
pub fn file_of_link(volume: &Volume, link: u64) -> Option<u64>
    ensures { result ≡ file_of_link volume.now.content.links link }
{
    if link == 0 {
        return Some(volume.root());
    }
    match volume.link(link) {
        None => None,
        Some(row) => Some(row.file),
    }
}

/// Whether the link is that of a directory with a link in it, marked or not.
pub fn is_link_of_parent(volume: &Volume, link: u64) -> bool
    ensures of_parent { result ≡ is_link_of_parent volume.now.content link }
    ensures empty { result ≡ false → IfSome (row_of volume.now.content.links link) (λ row. has_child volume.now.content.links row.file ≡ false) }
{
    match volume.link(link) {
        None => false,
        Some(row) => volume.has_child(row.file),
    }
}

/// Whether a link is marked for deletion; `false` where there is no such link. A directory whose link is
/// marked has no link in it.
pub fn is_link_marked(volume: &Volume, link: u64) -> bool
    ensures marked { result ≡ is_link_marked volume.now.content link }
    ensures empty { result ≡ true → IfSome (row_of volume.now.content.links link) (λ row. has_child volume.now.content.links row.file ≡ false) }
{
    match volume.link(link) {
        None => false,
        Some(row) => row.deleted,
    }
}

/// The filter bit under which a change of a link's name is seen, FILE_NOTIFY_CHANGE_DIR_NAME or
/// FILE_NOTIFY_CHANGE_FILE_NAME; the latter where there is no such link.
pub fn name_bit(volume: &Volume, link: u64) -> u32
    ensures bit { result ≡ name_bit volume.now.content link }

    // What is no directory has no link in it.
    ensures childless { is_directory volume.now.content.files (linked_file volume.now.content link) ≡ false → IfSome (row_of volume.now.content.links link) (λ row. has_child volume.now.content.links row.file ≡ false) }
{
    match volume.link(link) {
        None => NotifyFilter::FILE_NAME.bits(),
        Some(row) => {
            if volume.is_directory(row.file) {
                NotifyFilter::DIR_NAME.bits()
            } else {
                NotifyFilter::FILE_NAME.bits()
            }
        }
    }
}
