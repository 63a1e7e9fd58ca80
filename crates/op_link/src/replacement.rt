//! The link of the new name that is there already.

ghost use Rattle.std.specs.Prelude.{ℕ, ◌≡◌, ◌≤◌, ◌<◌, ◌+◌, ◌==◌, false, true, Some, None, length, IsTrue, IfNone};
ghost use Rattle.fsa_types.specs.Rows.{lives, row_of};
ghost use Rattle.fsa_types.specs.declared.oplock.HandleSet.TheVariants as set;
ghost use Rattle.fsa_model.specs.Changes.{units_noted, dirs_noted};
ghost use Rattle.fsa_model.specs.Lookups.{child_of, is_directory, linked_file};
ghost use Rattle.fsa_model.specs.Replacement.{is_any_open, replace_fault, with_link_replaced};
ghost use Rattle.op_link.specs.Conditions.{HasNameRoom, HasReplaceRoom, IsReplaceable};
ghost use Rattle.volume_state.specs.Living.{CanHold};
ghost use Rattle.volume_state.specs.Paths.{units_noted_in, dirs_in};
ghost use Rattle.volume_state.specs.Room.{KeepsEnds};
ghost use Rattle.volume_state.specs.VolumeView.{room_for};

use crate::naming::Naming;
use bitflags::Flags;
use fsa_types::{AccessMask, FILE_ACTION_REMOVED, Status};
use op_parts::{grants, is_link_marked, is_readonly, linked_file, name_bit};
use volume_state::Volume;

/// Why this link isn't replaced, whatever handles it has. The client has to be one of the volume's.
pub fn replace_fault(volume: &Volume, naming: &Naming, replaced: u64) -> Option<Status>
    requires client { naming.now.client < length volume.now.content.clients }
    ensures fault { result ≡ replace_fault volume.now.content naming.now replaced }
    ensures no_directory { IfNone result (is_directory volume.now.content.files (linked_file volume.now.content replaced) ≡ false) }
    ensures moves_file { IfNone result (is_directory volume.now.content.files naming.now.file ≡ false) }
{
    let file = linked_file(volume, replaced);
    if is_link_marked(volume, replaced) {
        return Some(Status::DeletePending);
    }
    if !naming.replace {
        return Some(Status::ObjectNameCollision);
    }
    if volume.is_directory(file) || volume.is_directory(naming.file) {
        return Some(Status::AccessDenied);
    }
    if is_readonly(volume, file) {
        return Some(Status::AccessDenied);
    }
    if !grants(volume, file, naming.client, AccessMask::DELETE.bits()) {
        return Some(Status::AccessDenied);
    }
    None
}

/// The link that is replaced is noted and goes, with its file where that has no other link. It has to be one
/// of a file, without a handle. Its name is free then.
pub fn replace_link(volume: &mut Volume, replaced: u64, dir: u64, name: &[u16])
    requires room { HasReplaceRoom volume.old.content volume.old.spare replaced dir (length name.now) }
    requires link { IsReplaceable volume.old.content replaced dir name.now }
    requires closed { is_any_open volume.old.content (set.Link replaced) ≡ false }
    requires holds { CanHold volume.old.content dir }
    ensures content { volume.new.content ≡ with_link_replaced volume.old.content replaced }
    ensures room { HasNameRoom volume.new.content volume.new.spare dir (length name.now) }
    ensures holds { CanHold volume.new.content dir }
    ensures free { child_of volume.new.content dir name.now ≡ None }
    ensures files { (file : ℕ) → IsTrue (lives volume.old.content.files file) → (linked_file volume.old.content replaced == file) ≡ false → IsTrue (lives volume.new.content.files file) }
    ensures no_directory { (file : ℕ) → is_directory volume.old.content.files file ≡ false → is_directory volume.new.content.files file ≡ false }
    ensures numbers { volume.new.content.last_link ≡ volume.old.content.last_link }

    // A note of another link takes no more than it took.
    ensures others { (link : ℕ) → (link == replaced) ≡ false → linked_file volume.new.content link ≡ linked_file volume.old.content link }
    ensures units { (link : ℕ) → units_noted volume.new.content link None ≤ units_noted volume.old.content link None }
    ensures dirs { (link : ℕ) → dirs_noted volume.new.content link None ≤ dirs_noted volume.old.content link None }
    ensures units_in { units_noted_in volume.new.content dir (length name.now) ≤ units_noted_in volume.old.content dir (length name.now) }
    ensures dirs_in { dirs_in volume.new.content dir ≤ dirs_in volume.old.content dir }
    ensures changes_left { volume.old.spare.changes ≤ volume.new.spare.changes + 1 }
    ensures units_left { volume.old.spare.units ≤ volume.new.spare.units + units_noted volume.old.content replaced None }
    ensures dirs_left { volume.old.spare.dirs ≤ volume.new.spare.dirs + dirs_noted volume.old.content replaced None }
    ensures ends { KeepsEnds volume.old volume.new }
{
    let bit = name_bit(volume, replaced);
    volume.note(replaced, FILE_ACTION_REMOVED, bit, None);
    volume.drop_link(replaced);
}
