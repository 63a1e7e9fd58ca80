//! Information on a file: the checks in order.

ghost use Rattle.std.specs.Prelude.{◌≡◌};
ghost use Rattle.fsa_model.specs.QueryInfo.{fixed_size, got, needs_attributes, query_file, query_info_at, query_info_by, try_query_info};
ghost use Rattle.op_info.specs.Calls.{IsQueryInfo, asked_query_info};
ghost use Rattle.volume_state.specs.Tried.{Leaves};

use crate::kinds::{basic_of, standard_of, tag_of};
use crate::streams::query_streams_by;
use fsa_types::{AccessMask, Body, Bytes, Call, InfoKind, Request, Status, What};
use op_parts::{file_of_link, has_right};
use pack_info::pack_internal;
use std::alloc::Global;
use volume_state::{HandleRow, Tried, Volume};

// How many bytes the answer has at least, without entries.
fn fixed_size(kind: InfoKind) -> u32
    ensures { result ≡ fixed_size kind }
{
    match kind {
        InfoKind::Basic => 40,
        InfoKind::Standard | InfoKind::Streams => 24,
        InfoKind::Internal | InfoKind::Tag => 8,
    }
}

// Whether READ_ATTRIBUTES is needed.
fn needs_attributes(kind: InfoKind) -> bool
    ensures { result ≡ needs_attributes kind }
{
    match kind {
        InfoKind::Basic | InfoKind::Tag => true,
        InfoKind::Standard | InfoKind::Internal | InfoKind::Streams => false,
    }
}

// The call succeeds with these bytes.
fn got(bytes: Bytes) -> Tried
    ensures { result ≡ Tried.Done (got bytes) }
{
    Tried::succeeds(Body::Got(bytes))
}

// What is asked for of this file.
#[tactic(auto, unfolding(fsa_model::specs::QueryInfo::query_file))]
fn query_file(
    alloc: Global,
    volume: &Volume,
    handle: &HandleRow,
    file: u64,
    kind: InfoKind,
    room: u32,
) -> Tried
    ensures leaves { Leaves (query_file volume.now.content handle.now file kind room) volume.now volume.now result }
{
    match kind {
        InfoKind::Basic => match basic_of(alloc, volume, file) {
            Ok(bytes) => got(bytes),
            Err(_) => Tried::NoMemory,
        },
        InfoKind::Standard => match standard_of(alloc, volume, handle, file) {
            Ok(bytes) => got(bytes),
            Err(_) => Tried::NoMemory,
        },
        InfoKind::Internal => match pack_internal(alloc, file) {
            Ok(bytes) => got(bytes),
            Err(_) => Tried::NoMemory,
        },
        InfoKind::Tag => match tag_of(alloc, volume, file) {
            Ok(bytes) => got(bytes),
            Err(_) => Tried::NoMemory,
        },
        InfoKind::Streams => query_streams_by(alloc, volume, handle, file, room),
    }
}

// Room for what is fixed, and the right, come first.
#[tactic(auto, unfolding(fsa_model::specs::QueryInfo::query_info_by))]
fn query_info_by(
    alloc: Global,
    volume: &Volume,
    handle: &HandleRow,
    kind: InfoKind,
    room: u32,
) -> Tried
    ensures leaves { Leaves (query_info_by volume.now.content handle.now kind room) volume.now volume.now result }
{
    if room < fixed_size(kind) {
        return Tried::ends(Status::InfoLengthMismatch);
    }
    if needs_attributes(kind) && !has_right(handle.access, AccessMask::READ_ATTRIBUTES) {
        return Tried::ends(Status::AccessDenied);
    }
    let Some(file) = file_of_link(volume, handle.link) else {
        return Tried::ends(Status::InvalidHandle);
    };
    query_file(alloc, volume, handle, file, kind, room)
}

// Of the handle of this number.
#[tactic(auto, unfolding(fsa_model::specs::QueryInfo::query_info_at))]
fn query_info_at(alloc: Global, volume: &Volume, id: u64, kind: InfoKind, room: u32) -> Tried
    ensures leaves { Leaves (query_info_at volume.now.content id kind room) volume.now volume.now result }
{
    let Some(handle) = volume.handle(id) else {
        return Tried::ends(Status::InvalidHandle);
    };
    query_info_by(alloc, volume, handle, kind, room)
}

// One try of it.
#[tactic(auto, unfolding(fsa_model::specs::QueryInfo::try_query_info))]
fn query_by_handle(
    alloc: Global,
    volume: &Volume,
    client: u32,
    handle: u32,
    kind: InfoKind,
    room: u32,
) -> Tried
    ensures leaves { Leaves (try_query_info volume.now.content client handle kind room) volume.now volume.now result }
{
    let Some(id) = volume.handle_of(client, handle) else {
        return Tried::ends(Status::InvalidHandle);
    };
    query_info_at(alloc, volume, id, kind, room)
}

/// One try of a QueryInfo, after [MS-FSA] 'Server Requests a Query of File Information'. The call has to be
/// one. It changes nothing.
///
/// `Done` with the reply, as the definition says; never `Stay` or `Hold`. `NoMemory` where there is none for
/// the bytes. No room for ends is used. `_turn` is the number of the turn; nothing here needs it.
pub fn try_query_info(alloc: Global, volume: &mut Volume, call: &Call, _turn: u64) -> Tried
    requires verb { IsQueryInfo call.now.what }
    ensures leaves { Leaves (asked_query_info volume.old.content call.now.client call.now.what) volume.old volume.new result }
{
    let What::Ask(Request::QueryInfo { handle, kind, room }) = &call.what else {
        unreachable!()
    };
    query_by_handle(alloc, volume, call.client, *handle, *kind, *room)
}
