//! What an owner may be charged, and what he is charged.

ghost use Rattle.std.specs.Prelude.{◌≡◌, ◌<◌, length};
ghost use Rattle.fsa_model.specs.Quota.{is_administrator, try_query_quota, try_set_quota};
ghost use Rattle.op_control.specs.Calls.{IsQueryQuota, IsSetQuota, asked_query_quota, asked_set_quota};
ghost use Rattle.volume_state.specs.Tried.{HasAnswer, Leaves};

use fsa_types::{Body, Call, NoMemory, Request, Status, What};
use std::alloc::Global;
use volume_state::{Need, Tried, Volume};

// The SID of those who set limits.
const ADMINISTRATOR: u32 = 0;

// Whether a client sets limits. There has to be such a client.
fn is_administrator(volume: &Volume, client: u32) -> bool
    requires client { client < length volume.now.content.clients }
    ensures { result ≡ is_administrator volume.now.content client }
{
    volume.sids(client).contains(&ADMINISTRATOR)
}

// One try of setting an owner's limit, in bytes.
#[tactic(auto, unfolding(fsa_model::specs::Quota::try_set_quota))]
fn set_quota(volume: &mut Volume, client: u32, sid: u32, bytes: u64) -> Tried
    requires client { client < length volume.old.content.clients }
    ensures leaves { Leaves (try_set_quota volume.old.content client sid bytes) volume.old volume.new result }
{
    if !is_administrator(volume, client) {
        return Tried::ends(Status::AccessDenied);
    }
    let need = Need {
        limits: 1,
        ..Need::nothing()
    };
    if let Err(NoMemory) = volume.reserve(&need) {
        return Tried::NoMemory;
    }
    volume.set_limit(sid, bytes);
    Tried::ends(Status::Success)
}

/// One try of a SetQuota, after [MS-FSA] 'Server Requests Setting Quota Information'. The call has to be
/// one, and its client one of the volume's.
///
/// `Done` with the reply, as the definition says; never `Stay` or `Hold`. `NoMemory` changes nothing. No
/// room for ends is used. `_alloc` and `_turn` are those of every try; nothing here needs them.
pub fn try_set_quota(_alloc: Global, volume: &mut Volume, call: &Call, _turn: u64) -> Tried
    requires verb { IsSetQuota call.now.what }
    requires client { call.now.client < length volume.old.content.clients }
    ensures leaves { Leaves (asked_set_quota volume.old.content call.now.client call.now.what) volume.old volume.new result }
{
    let What::Ask(Request::SetQuota { sid, limit }) = &call.what else {
        unreachable!()
    };
    set_quota(volume, call.client, *sid, *limit)
}

// An owner's charge and his limit, in bytes.
#[tactic(auto, unfolding(fsa_model::specs::Quota::try_query_quota))]
fn query_quota(volume: &Volume, sid: u32) -> Tried
    ensures leaves { Leaves (try_query_quota volume.now.content sid) volume.now volume.now result }
    ensures answer { HasAnswer result }
{
    Tried::succeeds(Body::Quota {
        charge: volume.charge(sid),
        limit: volume.limit(sid),
    })
}

/// One try of a QueryQuota, after [MS-FSA] 'Server Requests Querying Quota Information'. The call has to be
/// one. It changes nothing and takes no memory.
///
/// `Done` with the reply, as the definition says; never `Stay`, `Hold` or `NoMemory`. `_alloc` and `_turn`
/// are those of every try; nothing here needs them.
pub fn try_query_quota(_alloc: Global, volume: &mut Volume, call: &Call, _turn: u64) -> Tried
    requires verb { IsQueryQuota call.now.what }
    ensures leaves { Leaves (asked_query_quota volume.old.content call.now.what) volume.old volume.new result }
    ensures answer { HasAnswer result }
{
    let What::Ask(Request::QueryQuota { sid }) = &call.what else {
        unreachable!()
    };
    query_quota(volume, *sid)
}
