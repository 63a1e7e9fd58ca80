//! The checks of a query in order.

ghost use Rattle.std.specs.Prelude.{ℕ, ◌≡◌, ◌≤◌, List, false, IfOk};
ghost use Rattle.fsa_types.specs.Match.{is_refused};
ghost use Rattle.fsa_types.specs.PackedRows.{pack_kind};
ghost use Rattle.fsa_types.specs.Packing.{head_size};
ghost use Rattle.fsa_model.specs.QueryDir.{DirectoryEntry, left_to_list, list_entries, none_left_status, query_dir_at, query_dir_in, try_query_dir};
ghost use Rattle.op_dir.specs.Calls.{IsQueryDir, asked_query_dir};
ghost use Rattle.op_dir.specs.Listing.{Lists};
ghost use Rattle.volume_rows.specs.Cursors.{cursor_of};
ghost use Rattle.volume_state.specs.Room.{KeepsEnds};
ghost use Rattle.volume_state.specs.Tried.{Gives, HasHoldRoom, Leaves};

use crate::begun::{Begun, begun_enumeration, is_refused};
use crate::kinds::head_size;
use crate::listing::{Listing, list};
use bitflags::Flags;
use fsa_types::{AccessMask, Body, Call, DirKind, Name, NoMemory, Request, Status, What};
use name_match::Expression;
use op_parts::{file_of_link, has_right};
use pack_info::pack_kind;
use std::alloc::Global;
use volume_state::{Cursor, Tried, Volume};

// The status where nothing is left behind the cursor.
fn none_left_status(cursor: &Cursor) -> Status
    ensures { result ≡ none_left_status (cursor_of cursor.now) }
{
    match cursor {
        Cursor::Start => Status::NoSuchFile,
        Cursor::Dot | Cursor::DotDot | Cursor::After(_) => Status::NoMoreFiles,
    }
}

// The entries of a directory that are still to come, as many as fit into the room.
fn list_begun(
    alloc: Global,
    volume: &Volume,
    dir: u64,
    kind: DirKind,
    begun: &Begun,
    room: u32,
) -> Result<Listing, NoMemory>
    requires sound { is_refused begun.now.expression ≡ false }
    requires room { head_size (pack_kind kind) ≤ room }
    ensures { IfOk result (λ listing. Lists volume.now.content kind (cursor_of begun.now.cursor) (left_to_list volume.now.content dir begun.now.expression (cursor_of begun.now.cursor)) room listing) }
{
    let Ok(expression) = Expression::new(alloc, begun.expression.units()) else {
        return Err(NoMemory);
    };
    list(alloc, volume, dir, kind, &expression, &begun.cursor, room)
}

// The enumeration goes on, and what was listed is given.
#[tactic(auto, unfolding(fsa_model::specs::QueryDir::list_entries))]
fn list_entries(
    volume: &mut Volume,
    id: u64,
    kind: DirKind,
    begun: Begun,
    listing: Listing,
) -> Tried
    requires sound { is_refused begun.expression ≡ false }
    ensures gives { (entries : List DirectoryEntry) (room : ℕ) → Lists volume.old.content kind (cursor_of begun.cursor) entries room listing → Gives (list_entries volume.old.content id kind begun.expression (cursor_of begun.cursor) entries room) volume.old.content volume.new.content result }
    ensures room { HasHoldRoom result volume.new.spare }
    ensures ends { KeepsEnds volume.old volume.new }
{
    let Begun { expression, cursor } = begun;
    match listing {
        Listing::NoneLeft => {
            let status = none_left_status(&cursor);
            volume.set_cursor(id, expression, cursor);
            Tried::ends(status)
        }
        Listing::NoneFits => {
            volume.set_cursor(id, expression, cursor);
            Tried::ends(Status::BufferOverflow)
        }
        Listing::Given(after, bytes) => {
            volume.set_cursor(id, expression, after);
            Tried::succeeds(Body::Packed(pack_kind(kind), bytes))
        }
    }
}

// The directory is listed with this expression, from this cursor on.
#[tactic(auto, unfolding(fsa_model::specs::QueryDir::query_dir_in))]
fn query_dir_in(
    alloc: Global,
    volume: &mut Volume,
    id: u64,
    dir: u64,
    kind: DirKind,
    begun: Begun,
    room: u32,
) -> Tried
    requires sound { is_refused begun.expression ≡ false }
    requires room { head_size (pack_kind kind) ≤ room }
    ensures leaves { Leaves (query_dir_in volume.old.content id dir kind begun.expression (cursor_of begun.cursor) room) volume.old volume.new result }
{
    match list_begun(alloc, volume, dir, kind, &begun, room) {
        Ok(listing) => list_entries(volume, id, kind, begun, listing),
        Err(NoMemory) => Tried::NoMemory,
    }
}

// The directory of the handle of this number is listed. It has to be one, with READ_DATA; then come the
// expression, and the room for what stands before a name.
#[tactic(auto, unfolding(fsa_model::specs::QueryDir::query_dir_at, fsa_model::specs::QueryDir::query_dir_by))]
fn query_dir_at(
    alloc: Global,
    volume: &mut Volume,
    id: u64,
    kind: DirKind,
    expression: &Name,
    restart: bool,
    room: u32,
) -> Tried
    ensures leaves { Leaves (query_dir_at volume.old.content id kind expression.now restart room) volume.old volume.new result }
{
    let Some(handle) = volume.handle(id) else {
        return Tried::ends(Status::InvalidHandle);
    };
    if handle.stream.is_some() {
        return Tried::ends(Status::InvalidParameter);
    }
    if !has_right(handle.access, AccessMask::READ_DATA) {
        return Tried::ends(Status::AccessDenied);
    }
    let Ok(refused) = is_refused(alloc, expression.units()) else {
        return Tried::NoMemory;
    };
    if refused {
        return Tried::ends(Status::ObjectNameInvalid);
    }
    if room < head_size(kind) {
        return Tried::ends(Status::InfoLengthMismatch);
    }
    let Some(dir) = file_of_link(volume, handle.link) else {
        return Tried::ends(Status::InvalidHandle);
    };
    let Ok(begun) = begun_enumeration(alloc, handle, expression, restart) else {
        return Tried::NoMemory;
    };
    query_dir_in(alloc, volume, id, dir, kind, begun, room)
}

// One try of it.
#[tactic(auto, unfolding(fsa_model::specs::QueryDir::try_query_dir))]
fn query_dir(
    alloc: Global,
    volume: &mut Volume,
    client: u32,
    handle: u32,
    kind: DirKind,
    expression: &Name,
    restart: bool,
    room: u32,
) -> Tried
    ensures leaves { Leaves (try_query_dir volume.old.content client handle kind expression.now restart room) volume.old volume.new result }
{
    let Some(id) = volume.handle_of(client, handle) else {
        return Tried::ends(Status::InvalidHandle);
    };
    query_dir_at(alloc, volume, id, kind, expression, restart, room)
}

/// One try of a QueryDir, after [MS-FSA] 'Server Requests Querying a Directory'. The call has to be one.
///
/// `Done` with as many entries as fit, or with a status, as the definition says; never `Stay` or `Hold`. Only the
/// enumeration of the handle goes on: to the last entry that is given, or at a restart to the start. `NoMemory`
/// changes nothing. No room for ends is used. `_turn` is the number of the turn; nothing here needs it.
pub fn try_query_dir(alloc: Global, volume: &mut Volume, call: &Call, _turn: u64) -> Tried
    requires verb { IsQueryDir call.now.what }
    ensures leaves { Leaves (asked_query_dir volume.old.content call.now.client call.now.what) volume.old volume.new result }
{
    let What::Ask(
        Request::QueryDir {
            handle,
            kind,
            expression,
            restart,
            room,
        },
    ) = &call.what
    else {
        unreachable!()
    };
    query_dir(
        alloc,
        volume,
        call.client,
        *handle,
        *kind,
        expression,
        *restart,
        *room,
    )
}
