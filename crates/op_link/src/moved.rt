//! What a new name changes.

ghost use Rattle.std.specs.Prelude.{◌≡◌, ◌≤◌, ◌<◌, ◌+◌, ◌==◌, ◌&&◌, false, Some, None, length, IsTrue, IfSome};
ghost use Rattle.fsa_model.specs.Lookups.{child_of, linked_file, parent_of};
ghost use Rattle.fsa_model.specs.Rename.{has_units, is_elsewhere, keeps_name, with_link_renamed, with_move_noted, with_renamed};
ghost use Rattle.fsa_model.specs.Replacement.{new_name, with_link_replaced, with_replaced};
ghost use Rattle.op_link.specs.Conditions.{Frees, HasRenameRoom, HasReplaceRoom, Replaces, StaysOut};
ghost use Rattle.volume_state.specs.Living.{CanHold};
ghost use Rattle.volume_state.specs.Room.{KeepsEnds};

use crate::naming::Named;
use crate::replacement::replace_link;
use fsa_types::{
    FILE_ACTION_ADDED, FILE_ACTION_REMOVED, FILE_ACTION_RENAMED_NEW_NAME,
    FILE_ACTION_RENAMED_OLD_NAME, Name,
};
use op_parts::{name_bit, set_change_time};
use volume_state::Volume;

// The directory that a link is in; 0 where there is no such link.
fn parent_of(volume: &Volume, link: u64) -> u64
    ensures { result ≡ parent_of volume.now.content link }
{
    match volume.link(link) {
        None => 0,
        Some(row) => row.parent,
    }
}

/// Whether the link goes to another directory.
pub fn is_elsewhere(volume: &Volume, named: &Named, dir: u64) -> bool
    ensures { result ≡ is_elsewhere volume.now.content named.now dir }
{
    parent_of(volume, named.link()) != dir
}

// Whether a link has these units as its name.
fn has_units(volume: &Volume, link: u64, units: &[u16]) -> bool
    ensures { result ≡ has_units volume.now.content link units.now }
{
    match volume.link(link) {
        None => false,
        Some(row) => row.name.units() == units,
    }
}

/// Whether the new name is the old one, unit by unit.
pub fn keeps_name(volume: &Volume, named: &Named, dir: u64) -> bool
    ensures { result ≡ keeps_name volume.now.content named.now dir }
{
    !is_elsewhere(volume, named, dir) && has_units(volume, named.link(), named.name())
}

// The link is noted with the first of these actions, moved, and noted with the other one. The room is taken; the
// name is the new one.
fn move_noted(volume: &mut Volume, named: &Named, dir: u64, name: Name, old: u32, new: u32)
    requires room { HasReplaceRoom volume.old.content volume.old.spare named.now.link dir (length name) }
    requires holds { CanHold volume.old.content dir }
    requires out { StaysOut volume.old.content.files volume.old.content.links (linked_file volume.old.content named.now.link) dir }
    requires name { name ≡ new_name named.now }
    requires free { IfSome (child_of volume.old.content dir name) (λ other. IsTrue (other == named.now.link)) }
    ensures content { volume.new.content ≡ with_move_noted volume.old.content named.now dir old new }
    ensures ends { KeepsEnds volume.old volume.new }
{
    let link = named.link();
    let bit = name_bit(volume, link);
    volume.note(link, old, bit, None);
    volume.move_link(link, dir, name);
    volume.note(link, new, bit, None);
}

// The link is renamed.
fn rename_link(volume: &mut Volume, named: &Named, dir: u64, name: Name)
    requires room { HasReplaceRoom volume.old.content volume.old.spare named.now.link dir (length name) }
    requires holds { CanHold volume.old.content dir }
    requires out { StaysOut volume.old.content.files volume.old.content.links (linked_file volume.old.content named.now.link) dir }
    requires name { name ≡ new_name named.now }
    requires free { IfSome (child_of volume.old.content dir name) (λ other. IsTrue (other == named.now.link)) }
    ensures content { volume.new.content ≡ with_link_renamed volume.old.content named.now dir }
    ensures ends { KeepsEnds volume.old volume.new }
{
    if is_elsewhere(volume, named, dir) {
        return move_noted(
            volume,
            named,
            dir,
            name,
            FILE_ACTION_REMOVED,
            FILE_ACTION_ADDED,
        );
    }
    let (old, new) = (FILE_ACTION_RENAMED_OLD_NAME, FILE_ACTION_RENAMED_NEW_NAME);
    move_noted(volume, named, dir, name, old, new);
}

// The link that is replaced goes, and leaves the room for a rename.
fn make_way(volume: &mut Volume, named: &Named, dir: u64, replaced: u64)
    requires room { HasRenameRoom volume.old.content volume.old.spare (Some replaced) named.now.link dir (length (new_name named.now)) }
    requires holds { CanHold volume.old.content dir }
    requires link { Replaces volume.old.content.table volume.old.content.files volume.old.content.links volume.old.content.handles named.now.link dir (new_name named.now) replaced }
    ensures content { volume.new.content ≡ with_link_replaced volume.old.content replaced }
    ensures room { HasReplaceRoom volume.new.content volume.new.spare named.now.link dir (length (new_name named.now)) }
    ensures holds { CanHold volume.new.content dir }
    ensures out { StaysOut volume.new.content.files volume.new.content.links (linked_file volume.new.content named.now.link) dir }
    ensures free { child_of volume.new.content dir (new_name named.now) ≡ None }
    ensures ends { KeepsEnds volume.old volume.new }
{
    replace_link(volume, replaced, dir, named.name());
}

// The link is renamed in the place of another one.
fn rename_in_place(volume: &mut Volume, named: &Named, dir: u64, replaced: u64, name: Name)
    requires room { HasRenameRoom volume.old.content volume.old.spare (Some replaced) named.now.link dir (length (new_name named.now)) }
    requires holds { CanHold volume.old.content dir }
    requires name { name ≡ new_name named.now }
    requires link { Replaces volume.old.content.table volume.old.content.files volume.old.content.links volume.old.content.handles named.now.link dir (new_name named.now) replaced }
    ensures content { volume.new.content ≡ with_link_renamed (with_link_replaced volume.old.content replaced) named.now dir }
    ensures ends { KeepsEnds volume.old volume.new }
{
    make_way(volume, named, dir, replaced);
    rename_link(volume, named, dir, name);
}

// The link that is replaced goes, where there is one, and the link is renamed.
fn replace_and_rename(
    volume: &mut Volume,
    named: &Named,
    dir: u64,
    replaced: Option<u64>,
    name: Name,
)
    requires room { HasRenameRoom volume.old.content volume.old.spare replaced named.now.link dir (length (new_name named.now)) }
    requires holds { CanHold volume.old.content dir }
    requires out { StaysOut volume.old.content.files volume.old.content.links (linked_file volume.old.content named.now.link) dir }
    requires name { name ≡ new_name named.now }
    requires frees { Frees volume.old.content.table volume.old.content.files volume.old.content.links volume.old.content.handles named.now.link dir (new_name named.now) replaced }
    ensures content { volume.new.content ≡ with_link_renamed (with_replaced volume.old.content replaced) named.now dir }
    ensures ends { KeepsEnds volume.old volume.new }
{
    match replaced {
        None => rename_link(volume, named, dir, name),
        Some(link) => rename_in_place(volume, named, dir, link, name),
    }
}

/// The link that is replaced goes, where there is one, the link is renamed, and its file changed at this moment. The
/// room is taken; the name is the new one, and isn't the old one.
pub fn rename(volume: &mut Volume, named: &Named, dir: u64, replaced: Option<u64>, name: Name)
    requires room { HasRenameRoom volume.old.content volume.old.spare replaced named.now.link dir (length (new_name named.now)) }
    requires holds { CanHold volume.old.content dir }
    requires out { StaysOut volume.old.content.files volume.old.content.links (linked_file volume.old.content named.now.link) dir }
    requires name { name ≡ new_name named.now }
    requires frees { Frees volume.old.content.table volume.old.content.files volume.old.content.links volume.old.content.handles named.now.link dir (new_name named.now) replaced }
    ensures content { volume.new.content ≡ with_renamed volume.old.content named.now dir replaced }
    ensures ends { KeepsEnds volume.old volume.new }
{
    replace_and_rename(volume, named, dir, replaced, name);
    set_change_time(volume, named.file());
}
