//! Setting the owner and the access list: the checks in order.

ghost use Rattle.std.specs.Prelude.{◌≡◌, ◌<◌, OnOk, OnErr, IsTrue, length};
ghost use Rattle.fsa_types.specs.Request.{dacl_fits, what_fits};
ghost use Rattle.fsa_model.specs.Security.{set_security_at, set_security_of, try_set_security, with_security};
ghost use Rattle.op_info.specs.Calls.{IsSetSecurity, asked_set_security};
ghost use Rattle.volume_state.specs.Room.{KeepsEnds};
ghost use Rattle.volume_state.specs.Tried.{Leaves};

use crate::asked::{is_foreign, lacks_right};
use crate::change::set_security;
use crate::list::list_put;
use crate::quota::passes_limit;
use crate::room::room_to_set;
use fsa_types::{Call, DaclChange, NoMemory, Request, Status, What};
use op_parts::file_of_link;
use std::alloc::Global;
use volume_state::{Tried, Volume};

// The owner and the list are set, where there is memory for it.
fn set_in_room(
    alloc: Global,
    volume: &mut Volume,
    link: u64,
    file: u64,
    owner: Option<u32>,
    dacl: &DaclChange,
) -> Result<(), NoMemory>
    requires fits { IsTrue (dacl_fits dacl.now) }
    ensures done { OnOk result (volume.new.content ≡ with_security volume.old.content link file owner dacl.now) }
    ensures refused { OnErr result (volume.new.content ≡ volume.old.content) }
    ensures ends { KeepsEnds volume.old volume.new }
{
    let list = list_put(alloc, dacl)?;
    room_to_set(volume, link)?;
    set_security(volume, link, file, owner, dacl, list);
    Ok(())
}

// The file's owner and list are set, unless a new owner may not have it.
#[tactic(auto, unfolding(fsa_model::specs::Security::set_security_of))]
fn set_security_of(
    alloc: Global,
    volume: &mut Volume,
    client: u32,
    link: u64,
    file: u64,
    owner: Option<u32>,
    dacl: &DaclChange,
) -> Tried
    requires client { client < length volume.old.content.clients }
    requires fits { IsTrue (dacl_fits dacl.now) }
    ensures leaves { Leaves (set_security_of volume.old.content client link file owner dacl.now) volume.old volume.new result }
{
    if is_foreign(volume, client, owner) {
        return Tried::ends(Status::AccessDenied);
    }
    if passes_limit(volume, file, owner) {
        return Tried::ends(Status::QuotaExceeded);
    }
    match set_in_room(alloc, volume, link, file, owner, dacl) {
        Ok(()) => Tried::ends(Status::Success),
        Err(NoMemory) => Tried::NoMemory,
    }
}

// The owner and the list of the file of the handle of this number are set; the handle's rights come first.
#[tactic(auto, unfolding(fsa_model::specs::Security::set_security_at, fsa_model::specs::Security::set_security_by))]
fn set_security_at(
    alloc: Global,
    volume: &mut Volume,
    client: u32,
    id: u64,
    owner: Option<u32>,
    dacl: &DaclChange,
) -> Tried
    requires client { client < length volume.old.content.clients }
    requires fits { IsTrue (dacl_fits dacl.now) }
    ensures leaves { Leaves (set_security_at volume.old.content client id owner dacl.now) volume.old volume.new result }
{
    let Some(handle) = volume.handle(id) else {
        return Tried::ends(Status::InvalidHandle);
    };
    if lacks_right(handle.access, owner, dacl) {
        return Tried::ends(Status::AccessDenied);
    }
    let link = handle.link;
    let Some(file) = file_of_link(volume, link) else {
        return Tried::ends(Status::InvalidHandle);
    };
    set_security_of(alloc, volume, client, link, file, owner, dacl)
}

// One try of it.
#[tactic(auto, unfolding(fsa_model::specs::Security::try_set_security))]
fn set_by_handle(
    alloc: Global,
    volume: &mut Volume,
    client: u32,
    handle: u32,
    owner: Option<u32>,
    dacl: &DaclChange,
) -> Tried
    requires client { client < length volume.old.content.clients }
    requires fits { IsTrue (dacl_fits dacl.now) }
    ensures leaves { Leaves (try_set_security volume.old.content client handle owner dacl.now) volume.old volume.new result }
{
    let Some(id) = volume.handle_of(client, handle) else {
        return Tried::ends(Status::InvalidHandle);
    };
    set_security_at(alloc, volume, client, id, owner, dacl)
}

/// One try of a SetSecurity, after [MS-FSA] 'Server Requests Setting of Security Information'. The call
/// has to be one, with at most 32 entries, and its client one of the volume's.
///
/// `Done` with the reply, as the definition says; never `Stay` or `Hold`. `NoMemory` changes nothing. No
/// room for ends is used. `_turn` is the number of the turn; nothing here needs it.
pub fn try_set_security(alloc: Global, volume: &mut Volume, call: &Call, _turn: u64) -> Tried
    requires verb { IsSetSecurity call.now.what }
    requires fits { IsTrue (what_fits call.now.what) }
    requires client { call.now.client < length volume.old.content.clients }
    ensures leaves { Leaves (asked_set_security volume.old.content call.now.client call.now.what) volume.old volume.new result }
{
    let What::Ask(
        Request::SetSecurity {
            handle,
            owner,
            dacl,
        },
    ) = &call.what
    else {
        unreachable!()
    };
    set_by_handle(alloc, volume, call.client, *handle, *owner, dacl)
}
