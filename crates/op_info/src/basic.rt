//! Setting times and attributes: what it changes, and the checks in order.

ghost use Rattle.std.specs.Prelude.{◌≡◌, None, OnErr, OnOk};
ghost use Rattle.fsa_model.specs.SetBasic.{set_basic_at, set_basic_by, set_basic_of, try_set_basic, with_basics, with_basics_noted};
ghost use Rattle.op_info.specs.Calls.{IsSetBasic, asked_set_basic};
ghost use Rattle.op_parts.specs.Room.{HasNoteRoom};
ghost use Rattle.volume_state.specs.Room.{KeepsEnds};
ghost use Rattle.volume_state.specs.Tried.{Leaves};

use crate::basics::{Basics, attributes_set, basic_bits, has_no_time, has_wrong_attributes};
use crate::room::room_to_note;
use crate::times::{change_set, time_set};
use fsa_types::{AccessMask, Call, FILE_ACTION_MODIFIED, NoMemory, Request, Status, What};
use op_parts::{
    access_time, attributes_of, change_time, creation_time, file_of_link, has_right, write_time,
};
use std::alloc::Global;
use volume_state::{Tried, Volume};

// The times and attributes of the file are set, but for those that are left.
fn set_basics(volume: &mut Volume, file: u64, asked: &Basics)
    ensures content { volume.new.content ≡ with_basics volume.old.content file asked.now }
    ensures rest { volume.new.content ≡ record volume.old.content { files = volume.new.content.files } }
    ensures spare { volume.new.spare ≡ volume.old.spare }
{
    let creation = time_set(asked.creation, creation_time(volume, file));
    let access = time_set(asked.access, access_time(volume, file));
    let write = time_set(asked.write, write_time(volume, file));
    let change = change_set(volume, asked.change, change_time(volume, file));
    let attributes = attributes_set(asked.attributes, attributes_of(volume, file));
    volume.set_basic(file, creation, access, write, change, attributes);
}

// They are set, and noted where a field other than the time of the last change is. There has to be room.
fn set_and_note(volume: &mut Volume, link: u64, file: u64, asked: &Basics)
    requires room { HasNoteRoom volume.old.content volume.old.spare link None }
    ensures content { volume.new.content ≡ with_basics_noted volume.old.content link file asked.now }
    ensures ends { KeepsEnds volume.old volume.new }
{
    set_basics(volume, file, asked);
    let bits = basic_bits(asked);
    if bits != 0 {
        volume.note(link, FILE_ACTION_MODIFIED, bits, None);
    }
}

// The same, where there is memory for it.
fn set_in_room(volume: &mut Volume, link: u64, file: u64, asked: &Basics) -> Result<(), NoMemory>
    ensures done { OnOk result (volume.new.content ≡ with_basics_noted volume.old.content link file asked.now) }
    ensures refused { OnErr result (volume.new.content ≡ volume.old.content) }
    ensures ends { KeepsEnds volume.old volume.new }
{
    room_to_note(volume, link)?;
    set_and_note(volume, link, file, asked);
    Ok(())
}

// What is asked is set, unless it can't be.
#[tactic(auto, unfolding(fsa_model::specs::SetBasic::set_basic_of))]
fn set_basic_of(volume: &mut Volume, link: u64, file: u64, asked: &Basics) -> Tried
    ensures leaves { Leaves (set_basic_of volume.old.content link file asked.now) volume.old volume.new result }
{
    if has_no_time(asked) {
        return Tried::ends(Status::InvalidParameter);
    }
    if has_wrong_attributes(volume, file, asked.attributes) {
        return Tried::ends(Status::InvalidParameter);
    }
    match set_in_room(volume, link, file, asked) {
        Ok(()) => Tried::ends(Status::Success),
        Err(NoMemory) => Tried::NoMemory,
    }
}

// Of the file of the handle of this number; the handle's right comes first.
#[tactic(auto, unfolding(fsa_model::specs::SetBasic::set_basic_at, fsa_model::specs::SetBasic::set_basic_by))]
fn set_basic_at(volume: &mut Volume, id: u64, asked: &Basics) -> Tried
    ensures leaves { Leaves (set_basic_at volume.old.content id asked.now) volume.old volume.new result }
{
    let Some(handle) = volume.handle(id) else {
        return Tried::ends(Status::InvalidHandle);
    };
    if !has_right(handle.access, AccessMask::WRITE_ATTRIBUTES) {
        return Tried::ends(Status::AccessDenied);
    }
    let link = handle.link;
    let Some(file) = file_of_link(volume, link) else {
        return Tried::ends(Status::InvalidHandle);
    };
    set_basic_of(volume, link, file, asked)
}

// One try of it.
#[tactic(auto, unfolding(fsa_model::specs::SetBasic::try_set_basic))]
fn set_by_handle(volume: &mut Volume, client: u32, handle: u32, asked: &Basics) -> Tried
    ensures leaves { Leaves (try_set_basic volume.old.content client handle asked.now) volume.old volume.new result }
{
    let Some(id) = volume.handle_of(client, handle) else {
        return Tried::ends(Status::InvalidHandle);
    };
    set_basic_at(volume, id, asked)
}

/// One try of a SetBasic, after [MS-FSA] 'Server Requests Setting of File Information',
/// FileBasicInformation. The call has to be one.
///
/// `Done` with the reply, as the definition says; never `Stay` or `Hold`. `NoMemory` changes nothing. No
/// room for ends is used. `_alloc` and `_turn`, the number of the turn, aren't needed here.
pub fn try_set_basic(_alloc: Global, volume: &mut Volume, call: &Call, _turn: u64) -> Tried
    requires verb { IsSetBasic call.now.what }
    ensures leaves { Leaves (asked_set_basic volume.old.content call.now.client call.now.what) volume.old volume.new result }
{
    let What::Ask(
        Request::SetBasic {
            handle,
            creation,
            access,
            write,
            change,
            attributes,
        },
    ) = &call.what
    else {
        unreachable!()
    };
    let asked = Basics {
        creation: *creation,
        access: *access,
        write: *write,
        change: *change,
        attributes: *attributes,
    };
    set_by_handle(volume, call.client, *handle, &asked)
}
