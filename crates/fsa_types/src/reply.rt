//! What calls answer: replies, interims and what a turn gives out.

ghost use Rattle.std.specs.Prelude.{◌≡◌, ◌≤◌, length, IfOk};
ghost use Rattle.fsa_types.specs.Reply.{bytes_of_body, units_of_body};

use crate::copy::TryCopy;
use crate::list::BoundedList;
use crate::memory::NoMemory;
use crate::request::{Call, CallIdList, Level, What};
use crate::status::Status;
use crate::text::{Bytes, Name};
use std::alloc::Global;
use std::marker::Model;

/// What an open did, after [MS-FSA] 'Server Requests an Open of a File', CreateAction.
#[derive(Clone, Copy, Debug, PartialEq, Eq)]
pub enum Action {
    /// FILE_SUPERSEDED.
    Superseded,
    /// FILE_OPENED.
    Opened,
    /// FILE_CREATED.
    Created,
    /// FILE_OVERWRITTEN.
    Overwritten,
}

/// The layout of packed entries, after [MS-FSCC] 'File Information Classes' and
/// 'FILE_NOTIFY_INFORMATION'.
#[derive(Clone, Copy, Debug, PartialEq, Eq)]
pub enum PackKind {
    /// FileNamesInformation.
    Names,
    /// FileDirectoryInformation.
    Dir,
    /// FileFullDirectoryInformation.
    Full,
    /// FileIdFullDirectoryInformation.
    IdFull,
    /// FileStreamInformation.
    Streams,
    /// FILE_NOTIFY_INFORMATION.
    Changes,
}

/// What a reply carries beside its status.
pub enum Body {
    /// Nothing.
    Nothing,
    /// An open: what it did.
    Opened(Action),
    /// The bytes that were read or asked for.
    Got(Bytes),
    /// The number of bytes that were written.
    Count(u32),
    /// Packed entries.
    Packed(PackKind, Bytes),
    /// An oplock's break: the level that may be kept, and whether the break waits for an answer.
    Broken {
        /// The level that may be kept.
        level: Level,
        /// Whether an acknowledgement is awaited.
        ack: bool,
    },
    /// An acknowledgement: the level that stays.
    Left(Level),
    /// A path that stopped at a reparse point.
    Stopped {
        /// The reparse tag.
        tag: u32,
        /// The point's bytes.
        bytes: Bytes,
        /// The units of the path that weren't walked.
        rest: Name,
    },
    /// An owner's charge and limit, both in bytes.
    Quota {
        /// The bytes of the clusters of all streams of his files.
        charge: u64,
        /// The limit.
        limit: u64,
    },
}

// One drop of the whole, so that it is one step at each end of a function that holds one.
impl Drop for Body {
    fn drop(self) {
        match self {
            Body::Nothing => {}
            Body::Opened(_) => {}
            Body::Got(_) => {}
            Body::Count(_) => {}
            Body::Packed(_, _) => {}
            Body::Broken { level: _, ack: _ } => {}
            Body::Left(_) => {}
            Body::Stopped {
                tag: _,
                bytes: _,
                rest: _,
            } => {}
            Body::Quota {
                charge: _,
                limit: _,
            } => {}
        }
    }
}

impl TryCopy for Body {
    fn copy(&self, alloc: Global) -> Result<Body, NoMemory> {
        let made = match self {
            Body::Nothing => Body::Nothing,
            Body::Opened(action) => Body::Opened(*action),
            Body::Got(bytes) => Body::Got(bytes.copy(alloc)?),
            Body::Count(count) => Body::Count(*count),
            Body::Packed(kind, bytes) => Body::Packed(*kind, bytes.copy(alloc)?),
            Body::Broken { level, ack } => Body::Broken {
                level: *level,
                ack: *ack,
            },
            Body::Left(level) => Body::Left(*level),
            Body::Stopped { tag, bytes, rest } => Body::Stopped {
                tag: *tag,
                bytes: bytes.copy(alloc)?,
                rest: rest.copy(alloc)?,
            },
            Body::Quota { charge, limit } => Body::Quota {
                charge: *charge,
                limit: *limit,
            },
        };
        Ok(made)
    }
}

/// How a call ended.
#[derive(Drop)]
pub struct Reply {
    /// The status.
    pub status: Status,
    /// What comes with it.
    pub body: Body,
}

impl TryCopy for Reply {
    fn copy(&self, alloc: Global) -> Result<Reply, NoMemory> {
        Ok(Reply {
            status: self.status,
            body: self.body.copy(alloc)?,
        })
    }
}

/// Room that was taken for the copy of a reply.
pub struct ReplyRoom {
    bytes: Vec<u8>,
    units: Vec<u16>,
}

// One drop of the whole, so that it is one step at each end of a function that holds one.
impl Drop for ReplyRoom {
    fn drop(self) {
        let ReplyRoom { bytes: _, units: _ } = self;
    }
}

impl Model for ReplyRoom {
    ghost use Rattle.std.specs.Prelude.{◌≡◌, []};
    ghost use Rattle.std.specs.Vec.{vec_capacity};
    ghost use Rattle.fsa_types.specs.ReplyRoom.{Room, room_code};

    ghost Value = { Room };

    ghost coded = { room_code };

    ghost view = { λ r. record { bytes = vec_capacity r.bytes; units = vec_capacity r.units } };

    ghost invariant = { λ r. (r.bytes.items ≡ []) × (r.units.items ≡ []) };
}

impl ReplyRoom {
    /// Room for a body of so many bytes and so many units. `NoMemory` where there is none.
    pub fn new(alloc: Global, bytes: usize, units: usize) -> Result<ReplyRoom, NoMemory>
        ensures { IfOk result (λ room. (bytes ≤ room.bytes) × (units ≤ room.units)) }
    {
        let bytes = Vec::with_capacity(alloc, bytes)?;
        let units = Vec::with_capacity(alloc, units)?;
        Ok(ReplyRoom { bytes, units })
    }

    // A copy of these bytes, in this room where they aren't shared.
    fn bytes_in(self, bytes: &Bytes) -> Bytes
        requires { length bytes.now ≤ self.bytes }
        ensures { result ≡ bytes.now }
    {
        let ReplyRoom {
            bytes: room,
            units: _,
        } = self;
        bytes.copy_into(room)
    }

    // A copy of these bytes, in this room where they aren't shared, and of these units, in this room.
    fn both_in(self, bytes: &Bytes, units: &[u16]) -> (Bytes, Name)
        requires bytes { length bytes.now ≤ self.bytes }
        requires units { length units.now ≤ self.units }
        ensures bytes { result.0 ≡ bytes.now }
        ensures units { result.1 ≡ units.now }
    {
        let ReplyRoom {
            bytes: room,
            units: mut name,
        } = self;
        let Ok(()) = name.extend_from_slice(units) else {
            unreachable!()
        };
        (bytes.copy_into(room), Name::from(name))
    }
}

impl Reply {
    /// The same reply. Where its body has 128 bytes at least and there is memory to count the owners of
    /// their list, copies of the reply share that list from now on.
    pub fn shared(self) -> Reply
        ensures { result ≡ self }
    {
        let Reply { status, body } = self;
        Reply {
            status,
            body: body.shared(),
        }
    }

    /// An equal reply, in room that was taken before, but for bytes that are shared. The body may have
    /// at most that many bytes and units. It takes no memory, and gives back room that it doesn't use.
    pub fn copy_into(&self, room: ReplyRoom) -> Reply
        requires bytes { bytes_of_body self.now.body ≤ room.bytes }
        requires units { units_of_body self.now.body ≤ room.units }
        ensures { result ≡ self.now }
    {
        Reply {
            status: self.status,
            body: self.body.copy_into(room),
        }
    }
}

impl Body {
    // The same body, its bytes shared where they are many and there is memory for that.
    fn shared(self) -> Body
        ensures { result ≡ self }
    {
        match self {
            Body::Got(bytes) => Body::Got(bytes.shared()),
            Body::Packed(kind, bytes) => Body::Packed(kind, bytes.shared()),
            Body::Stopped { tag, bytes, rest } => Body::Stopped {
                tag,
                bytes: bytes.shared(),
                rest,
            },
            body => body,
        }
    }

    // An equal body, in room that was taken before.
    fn copy_into(&self, room: ReplyRoom) -> Body
        requires bytes { bytes_of_body self.now ≤ room.bytes }
        requires units { units_of_body self.now ≤ room.units }
        ensures { result ≡ self.now }
    {
        match self {
            Body::Nothing => Body::Nothing,
            Body::Opened(action) => Body::Opened(*action),
            Body::Got(bytes) => Body::Got(room.bytes_in(bytes)),
            Body::Count(count) => Body::Count(*count),
            Body::Packed(kind, bytes) => Body::Packed(*kind, room.bytes_in(bytes)),
            Body::Broken { level, ack } => Body::Broken {
                level: *level,
                ack: *ack,
            },
            Body::Left(level) => Body::Left(*level),
            Body::Stopped { tag, bytes, rest } => {
                let (bytes, rest) = room.both_in(bytes, rest.units());
                Body::Stopped {
                    tag: *tag,
                    bytes,
                    rest,
                }
            }
            Body::Quota { charge, limit } => Body::Quota {
                charge: *charge,
                limit: *limit,
            },
        }
    }
}

/// How a call stands that its own try didn't end.
#[derive(Clone, Copy, Debug, PartialEq, Eq)]
pub enum Interim {
    /// It waits for breaks of oplocks.
    Held,
    /// It waits for byte-range locks.
    LockWait,
    /// It watches a directory.
    Watch,
    /// It holds an oplock of this level.
    Granted(Level),
    /// It waits for the end of a call.
    Waiting,
}

/// The answer to a turn's own call.
#[derive(Drop)]
pub enum Answer {
    /// It has ended.
    Ended(Reply),
    /// It is pending.
    Pending(Interim),
}

impl TryCopy for Answer {
    fn copy(&self, alloc: Global) -> Result<Answer, NoMemory> {
        match self {
            Answer::Ended(reply) => Ok(Answer::Ended(reply.copy(alloc)?)),
            Answer::Pending(interim) => Ok(Answer::Pending(*interim)),
        }
    }
}

/// The end of a call.
#[derive(Drop)]
pub struct EndOf {
    /// The place of the client in the setup, from 0.
    pub client: u32,
    /// Which of the client's calls it is, from 1.
    pub number: u32,
    /// How it ended.
    pub reply: Reply,
}

impl TryCopy for EndOf {
    fn copy(&self, alloc: Global) -> Result<EndOf, NoMemory> {
        Ok(EndOf {
            client: self.client,
            number: self.number,
            reply: self.reply.copy(alloc)?,
        })
    }
}

/// Ends of calls in order.
pub type EndList = BoundedList<EndOf>;

/// What a turn gives out.
pub struct Out {
    /// The answer to the turn's own call.
    pub answer: Answer,
    /// The calls that ended in this turn besides that answer, in the order in which they ended; the
    /// turn's own call too, where it was pending and ended in the settlement.
    pub ended: EndList,
    /// The calls that were taken up in this turn and ended for want of memory, in order.
    pub starved: CallIdList,
}

// One drop of the whole, so that it is one step at each end of a function that holds one.
impl Drop for Out {
    fn drop(self) {
        let Out {
            answer: _,
            ended: _,
            starved: _,
        } = self;
    }
}

impl Out {
    /// The answer to the turn's own call. The rest is given up.
    pub fn into_answer(self) -> Answer
        ensures { result ≡ self.answer }
    {
        let Out {
            answer,
            ended: _,
            starved: _,
        } = self;
        answer
    }
}

impl TryCopy for Out {
    fn copy(&self, alloc: Global) -> Result<Out, NoMemory> {
        Ok(Out {
            answer: self.answer.copy(alloc)?,
            ended: self.ended.copy(alloc)?,
            starved: self.starved.copy(alloc)?,
        })
    }
}

/// What a held call waits for.
#[derive(Clone, Copy, Debug, PartialEq, Eq)]
pub enum Blocker {
    /// The break of this number.
    Break(u64),
    /// The byte-range lock of this number.
    Lock(u64),
}

impl TryCopy for Blocker {
    fn copy(&self, _alloc: Global) -> Result<Blocker, NoMemory> {
        Ok(*self)
    }
}

/// Blockers in order.
pub type BlockerList = BoundedList<Blocker>;

/// Why a turn was refused. Nothing has changed then.
#[derive(Clone, Copy, Debug, PartialEq, Eq)]
pub enum Why {
    /// There was no memory for it.
    NoMemory,
    /// The history has 1,000,000 entries.
    HistoryFull,
}

/// What became of a call that a client handed in.
#[derive(Drop)]
pub enum Submitted {
    /// It is the call of this number, with this answer.
    Did(u32, Answer),
    /// Another client's turn was under way; it is handed back.
    Busy(What),
    /// It was refused and is handed back.
    Refused(What, Why),
}

/// How an earlier call stands.
#[derive(Drop)]
pub enum Poll {
    /// It has ended so.
    Done(Reply),
    /// It is pending.
    Pending,
    /// Another client's turn was under way; nothing is known.
    Busy,
    /// There was no memory for a copy of its reply.
    NoMemory,
}

impl TryCopy for Poll {
    fn copy(&self, alloc: Global) -> Result<Poll, NoMemory> {
        match self {
            Poll::Done(reply) => Ok(Poll::Done(reply.copy(alloc)?)),
            Poll::Pending => Ok(Poll::Pending),
            Poll::Busy => Ok(Poll::Busy),
            Poll::NoMemory => Ok(Poll::NoMemory),
        }
    }
}

impl TryCopy for Submitted {
    fn copy(&self, alloc: Global) -> Result<Submitted, NoMemory> {
        match self {
            Submitted::Did(number, answer) => Ok(Submitted::Did(*number, answer.copy(alloc)?)),
            Submitted::Busy(what) => Ok(Submitted::Busy(what.copy(alloc)?)),
            Submitted::Refused(what, why) => Ok(Submitted::Refused(what.copy(alloc)?, *why)),
        }
    }
}

/// An entry of a history: a call, and the calls that starved in its turn.
pub struct Entry {
    /// The turn's own call.
    pub call: Call,
    /// The calls that were taken up in this turn and ended for want of memory, in order.
    pub starved: CallIdList,
}

// One drop of the whole, so that it is one step at each end of a function that holds one.
impl Drop for Entry {
    fn drop(self) {
        let Entry {
            call: _,
            starved: _,
        } = self;
    }
}

impl TryCopy for Entry {
    fn copy(&self, alloc: Global) -> Result<Entry, NoMemory> {
        Ok(Entry {
            call: self.call.copy(alloc)?,
            starved: self.starved.copy(alloc)?,
        })
    }
}
