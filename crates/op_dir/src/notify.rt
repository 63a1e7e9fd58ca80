//! The checks of a Notify in order, and what a watch reports.

ghost use Rattle.std.specs.Prelude.{ℕ, ◌≡◌, ◌≤◌, None, IsTrue, IfOk, OnErr, OnOk};
ghost use Rattle.fsa_types.specs.Access.{has_other};
ghost use Rattle.fsa_types.specs.Masks.{known_filters};
ghost use Rattle.fsa_types.specs.Rows.{lives};
ghost use Rattle.fsa_model.specs.Watching.{due_size, is_notify_filter, notify_at, notify_due, report, try_notify, watch_of, with_watch_begun, with_watch_seen};
ghost use Rattle.op_dir.specs.Calls.{IsNotify, asked_notify};
ghost use Rattle.volume_state.specs.Room.{KeepsEnds};
ghost use Rattle.volume_state.specs.Tried.{Leaves};

use bitflags::Flags;
use fsa_types::{
    AccessMask, Body, Call, Interim, NoMemory, NotifyFilter, PackKind, Reply, Request, Status, What,
};
use op_parts::{has_right, is_link_marked};
use std::alloc::Global;
use volume_state::{Need, Tried, Volume};

/// What a Notify of this handle is answered for what is due, after [MS-FSA] 'Algorithm for Reporting a Change Notification for
/// a Directory': all of it, packed, with SUCCESS; or NOTIFY_ENUM_DIR without bytes, exactly where it takes more than `room` bytes.
///
/// In both cases only what is noted from now on is due to the handle; nothing else changes. `NoMemory` changes
/// nothing, and comes only where what is due takes no more than `room` bytes. Nothing is asked of the volume; a
/// handle without a watch is reported no change.
pub fn report(alloc: Global, volume: &mut Volume, handle: u64, room: u32) -> Result<Reply, NoMemory>
    ensures reply { IfOk result (λ reply. reply ≡ report volume.old.content handle room) }
    ensures seen { OnOk result (volume.new.content ≡ with_watch_seen volume.old.content handle) }
    ensures unchanged { OnErr result (volume.new.content ≡ volume.old.content) }
    ensures within { OnErr result (due_size volume.old.content handle ≤ room) }
    ensures beside { volume.new.beside ≡ volume.old.beside }
    ensures room { volume.new.spare ≡ volume.old.spare }
{
    match volume.take_report(alloc, handle, room)? {
        None => Ok(Reply {
            status: Status::NotifyEnumDir,
            body: Body::Nothing,
        }),
        Some(packed) => Ok(Reply {
            status: Status::Success,
            body: Body::Packed(PackKind::Changes, packed),
        }),
    }
}

// Takes the room for so many watches, and for a pending call.
fn room_to_watch(volume: &mut Volume, watches: u32) -> Result<(), NoMemory>
    ensures content { volume.new.content ≡ volume.old.content }
    ensures ends { KeepsEnds volume.old volume.new }
    ensures watches { OnOk result (watches ≤ volume.new.spare.watches) }
    ensures pending { OnOk result (1 ≤ volume.new.spare.pending) }
{
    volume.reserve(&Need {
        watches,
        pending: 1,
        ..Need::nothing()
    })
}

// A watch of a handle that has none begins, and nothing is due to it.
#[tactic(auto, using(crate::proofs::WatchLaws::waits_with_new_watch))]
fn begun(volume: &mut Volume, id: u64, filter: u32, tree: bool) -> Tried
    requires living { IsTrue (lives volume.old.content.handles id) }
    requires new { watch_of volume.old.content id ≡ None }
    ensures leaves { (room : ℕ) → Leaves (notify_due (with_watch_begun volume.old.content id filter tree) id room) volume.old volume.new result }
{
    if let Err(NoMemory) = room_to_watch(volume, 1) {
        return Tried::NoMemory;
    }
    volume.start_watch(id, filter, tree);
    Tried::Stay(Interim::Watch)
}

// What is due is reported at once; where nothing is, the call waits.
fn notify_due(alloc: Global, volume: &mut Volume, id: u64, room: u32) -> Tried
    ensures leaves { Leaves (notify_due volume.old.content id room) volume.old volume.new result }
{
    if volume.is_something_due(id) {
        return match report(alloc, volume, id, room) {
            Ok(reply) => Tried::Done(reply),
            Err(NoMemory) => Tried::NoMemory,
        };
    }
    match room_to_watch(volume, 0) {
        Ok(()) => Tried::Stay(Interim::Watch),
        Err(NoMemory) => Tried::NoMemory,
    }
}

// The same, once the handle has a watch: its first Notify makes it, and later ones leave that as it is.
fn notify_watching(
    alloc: Global,
    volume: &mut Volume,
    id: u64,
    filter: u32,
    tree: bool,
    room: u32,
) -> Tried
    requires living { IsTrue (lives volume.old.content.handles id) }
    ensures leaves { Leaves (notify_due (with_watch_begun volume.old.content id filter tree) id room) volume.old volume.new result }
{
    if volume.has_watch(id) {
        notify_due(alloc, volume, id, room)
    } else {
        begun(volume, id, filter, tree)
    }
}

// Whether there is a bit that no filter may have.
#[tactic(auto, unfolding(bitflags::specs::Sets::known_from))]
fn has_other_filter(filter: u32) -> bool
    ensures { result ≡ has_other filter known_filters }
{
    match NotifyFilter::from_bits(filter) {
        Some(_) => false,
        None => true,
    }
}

// Whether these are bits of a filter, and some.
fn is_notify_filter(filter: u32) -> bool
    ensures { result ≡ is_notify_filter filter }
{
    filter != 0 && !has_other_filter(filter)
}

// The directory of the handle of this number is watched. It has to be one, with READ_DATA; then come the filter,
// and the mark.
#[tactic(auto, unfolding(fsa_model::specs::Watching::notify_at))]
fn notify_at(
    alloc: Global,
    volume: &mut Volume,
    id: u64,
    filter: u32,
    tree: bool,
    room: u32,
) -> Tried
    requires living { IsTrue (lives volume.old.content.handles id) }
    ensures leaves { Leaves (notify_at volume.old.content id filter tree room) volume.old volume.new result }
{
    let Some(handle) = volume.handle(id) else {
        return Tried::ends(Status::InvalidHandle);
    };
    if handle.stream.is_some() {
        return Tried::ends(Status::InvalidParameter);
    }
    if !has_right(handle.access, AccessMask::READ_DATA) {
        return Tried::ends(Status::AccessDenied);
    }
    if !is_notify_filter(filter) {
        return Tried::ends(Status::InvalidParameter);
    }
    if is_link_marked(volume, handle.link) {
        return Tried::ends(Status::DeletePending);
    }
    notify_watching(alloc, volume, id, filter, tree, room)
}

// One try of it.
#[tactic(auto, unfolding(fsa_model::specs::Watching::try_notify))]
fn notify(
    alloc: Global,
    volume: &mut Volume,
    client: u32,
    handle: u32,
    filter: u32,
    tree: bool,
    room: u32,
) -> Tried
    ensures leaves { Leaves (try_notify volume.old.content client handle filter tree room) volume.old volume.new result }
{
    let Some(id) = volume.handle_of(client, handle) else {
        return Tried::ends(Status::InvalidHandle);
    };
    notify_at(alloc, volume, id, filter, tree, room)
}

/// One try of a Notify, after [MS-FSA] 'Server Requests Change Notifications for a Directory'. The call has to be
/// one.
///
/// The handle's first Notify that passes the checks makes its watch, with its filter and for the directory alone or
/// all below it; later ones leave the watch as it is. `Stay` where nothing is due: the call is to be pending, for
/// which there is room, and the machine has it reported (`report`) once something is due. `Done` with what is due,
/// with NOTIFY_ENUM_DIR where that takes more than the call's room, or with a refusal; never `Hold`. `NoMemory`
/// changes nothing. No room for ends is used. `_turn` is the number of the turn; nothing here needs it.
pub fn try_notify(alloc: Global, volume: &mut Volume, call: &Call, _turn: u64) -> Tried
    requires verb { IsNotify call.now.what }
    ensures leaves { Leaves (asked_notify volume.old.content call.now.client call.now.what) volume.old volume.new result }
{
    let What::Ask(
        Request::Notify {
            handle,
            filter,
            tree,
            room,
        },
    ) = &call.what
    else {
        unreachable!()
    };
    notify(alloc, volume, call.client, *handle, *filter, *tree, *room)
}
