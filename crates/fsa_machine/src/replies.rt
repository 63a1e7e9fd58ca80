//! The room for copies of a reply, taken before the try that gives it.

ghost use Rattle.std.specs.Prelude.{◌≡◌, ◌≤◌, IfOk};
ghost use Rattle.fsa_types.specs.Reply.{bytes_of_body, units_of_body};
ghost use Rattle.fsa_types.specs.declared.request.What.TheVariants.{Ask};
ghost use Rattle.fsa_model.specs.Frame.{FitsReply, most_reply_bytes, most_reply_units};
ghost use Rattle.fsa_machine.specs.Step.{HasReplyRoom, HasReportRoom};

use fsa_types::{NoMemory, Reply, ReplyRoom, Request, What};
use std::alloc::Global;

// The most bytes of a reparse point.
const MOST_POINT_BYTES: usize = 16376;

// The most bytes that the reply to a request holds.
fn request_bytes(request: &Request) -> usize
    ensures { result ≡ most_reply_bytes (Ask request.now) }
{
    match request {
        Request::Create { .. } | Request::Rename { .. } | Request::Link { .. } => MOST_POINT_BYTES,
        Request::Read { count, .. } => *count as usize,
        Request::QueryDir { room, .. }
        | Request::Notify { room, .. }
        | Request::QueryInfo { room, .. }
        | Request::GetReparse { room, .. } => *room as usize,
        _ => 0,
    }
}

// The most bytes that the reply to a call holds.
fn reply_bytes(what: &What) -> usize
    ensures { result ≡ most_reply_bytes what.now }
{
    match what {
        What::Ask(request) => request_bytes(request),
        _ => 0,
    }
}

// The most units that the reply to a call holds.
fn reply_units(what: &What) -> usize
    ensures { result ≡ most_reply_units what.now }
{
    match what {
        What::Ask(Request::Create { path, .. })
        | What::Ask(Request::Rename { path, .. })
        | What::Ask(Request::Link { path, .. }) => path.units().len(),
        _ => 0,
    }
}

/// Room for two copies of a reply: one that the volume keeps, and one that is given out.
#[derive(Drop)]
pub struct ReplyRooms {
    /// The room of the copy that the volume keeps.
    pub kept: ReplyRoom,
    /// The room of the copy that is given out.
    pub given: ReplyRoom,
}

/// Takes the room for two copies of the reply to a call.
pub fn take_rooms(alloc: Global, what: &What) -> Result<ReplyRooms, NoMemory>
    ensures { IfOk result (λ rooms. HasReplyRoom what.now rooms) }
{
    let bytes = reply_bytes(what);
    let units = reply_units(what);
    Ok(ReplyRooms {
        kept: ReplyRoom::new(alloc, bytes, units)?,
        given: ReplyRoom::new(alloc, bytes, units)?,
    })
}

/// Two copies of a reply, in room that was taken before, one to keep and one to give out; and the reply. Where it has
/// many bytes and there is memory to count the owners of their list, all three share that list.
pub fn copy_twice(reply: Reply, what: &What, rooms: ReplyRooms) -> (Reply, Reply, Reply)
    requires fits { FitsReply what.now reply }
    requires room { HasReplyRoom what.now rooms }
    ensures kept { result.0 ≡ reply }
    ensures given { result.1 ≡ reply }
    ensures own { result.2 ≡ reply }
{
    let _what = what;
    let ReplyRooms { kept, given } = rooms;
    let reply = reply.shared();
    (reply.copy_into(kept), reply.copy_into(given), reply)
}

/// Takes the room for two copies of a report of so many bytes.
pub fn take_report_rooms(alloc: Global, size: usize) -> Result<ReplyRooms, NoMemory>
    ensures { IfOk result (λ rooms. HasReportRoom size rooms) }
{
    Ok(ReplyRooms {
        kept: ReplyRoom::new(alloc, size, 0)?,
        given: ReplyRoom::new(alloc, size, 0)?,
    })
}

/// Two copies of a report of at most so many bytes, in room that was taken before, one to keep and one to give out;
/// and the report. Where it has many bytes and there is memory to count the owners of their list, all three share that
/// list.
pub fn copy_report(reply: Reply, size: usize, rooms: ReplyRooms) -> (Reply, Reply, Reply)
    requires bytes { bytes_of_body reply.body ≤ size }
    requires units { units_of_body reply.body ≡ 0 }
    requires room { HasReportRoom size rooms }
    ensures kept { result.0 ≡ reply }
    ensures given { result.1 ≡ reply }
    ensures own { result.2 ≡ reply }
{
    let _size = size;
    let ReplyRooms { kept, given } = rooms;
    let reply = reply.shared();
    (reply.copy_into(kept), reply.copy_into(given), reply)
}
