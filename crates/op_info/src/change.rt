//! What setting the owner and the access list changes.

ghost use Rattle.std.specs.Prelude.{◌≡◌, ◌≤◌, true, None, option_map};
ghost use Rattle.fsa_model.specs.Security.{asks_something, with_change_time, with_dacl_asked, with_owner_asked, with_security, with_security_noted};
ghost use Rattle.op_info.specs.Conditions.{list_put};
ghost use Rattle.op_parts.specs.Room.{HasNoteRoom};
ghost use Rattle.volume_state.specs.Room.{KeepsEnds};

use crate::asked::asks_something;
use bitflags::Flags;
use fsa_types::{Dacl, DaclChange, FILE_ACTION_MODIFIED, NotifyFilter};
use op_parts::set_change_time;
use volume_state::Volume;

// The owner that is asked for is set.
fn set_owner_asked(volume: &mut Volume, file: u64, owner: Option<u32>)
    requires owners { 1 ≤ volume.old.spare.owners }
    ensures content { volume.new.content ≡ with_owner_asked volume.old.content file owner }
    ensures rest { volume.new.content ≡ record volume.old.content { files = volume.new.content.files } }
    ensures others { volume.new.spare ≡ record volume.old.spare { owners = volume.new.spare.owners } }
{
    if let Some(sid) = owner {
        volume.set_owner(file, sid);
    }
}

// The access list is put, taken away or kept; `list` is the one that is put.
fn set_dacl_asked(volume: &mut Volume, file: u64, dacl: &DaclChange, list: Option<Dacl>)
    requires list { option_map (λ l. l.items) list ≡ list_put dacl.now }
    ensures content { volume.new.content ≡ with_dacl_asked volume.old.content file dacl.now }
    ensures rest { volume.new.content ≡ record volume.old.content { files = volume.new.content.files } }
    ensures spare { volume.new.spare ≡ volume.old.spare }
{
    match dacl {
        DaclChange::Keep => {}
        DaclChange::Remove | DaclChange::Put(_) => volume.set_dacl(file, list),
    }
}

// The change is noted, where something is asked.
fn note_security(volume: &mut Volume, link: u64, asks: bool)
    requires room { HasNoteRoom volume.old.content volume.old.spare link None }
    ensures content { volume.new.content ≡ with_security_noted volume.old.content link asks }
    ensures ends { KeepsEnds volume.old volume.new }
{
    if asks {
        let filter = NotifyFilter::SECURITY.bits();
        volume.note(link, FILE_ACTION_MODIFIED, filter, None);
    }
}

// The owner, the list and the change time of a file are set.
fn set_file(
    volume: &mut Volume,
    file: u64,
    owner: Option<u32>,
    dacl: &DaclChange,
    list: Option<Dacl>,
)
    requires owners { 1 ≤ volume.old.spare.owners }
    requires list { option_map (λ l. l.items) list ≡ list_put dacl.now }
    ensures content { volume.new.content ≡ with_change_time (with_dacl_asked (with_owner_asked volume.old.content file owner) file dacl.now) file }
    ensures rest { volume.new.content ≡ record volume.old.content { files = volume.new.content.files } }
    ensures others { volume.new.spare ≡ record volume.old.spare { owners = volume.new.spare.owners } }
{
    set_owner_asked(volume, file, owner);
    set_dacl_asked(volume, file, dacl, list);
    set_change_time(volume, file);
}

/// The owner and the access list of the link's file are set, with its change time, and noted where
/// something is asked. `list` is the one that is put. There has to be room.
pub fn set_security(
    volume: &mut Volume,
    link: u64,
    file: u64,
    owner: Option<u32>,
    dacl: &DaclChange,
    list: Option<Dacl>,
)
    requires owners { 1 ≤ volume.old.spare.owners }
    requires room { HasNoteRoom volume.old.content volume.old.spare link None }
    requires list { option_map (λ l. l.items) list ≡ list_put dacl.now }
    ensures content { volume.new.content ≡ with_security volume.old.content link file owner dacl.now }
    ensures ends { KeepsEnds volume.old volume.new }
{
    set_file(volume, file, owner, dacl, list);
    note_security(volume, link, asks_something(owner, dacl));
}
