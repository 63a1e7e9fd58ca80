//! What a client may ask: the requests, and the calls that carry them.

ghost use Rattle.std.specs.Prelude.{◌≡◌};
ghost use Rattle.fsa_types.specs.Request.{request_fits, what_fits};

use crate::copy::TryCopy;
use crate::list::BoundedList;
use crate::memory::NoMemory;
use crate::text::{Bytes, Name};
use std::alloc::Global;

/// The most bytes of a read, a write or a buffer, in bytes.
pub const MOST_BYTES: u32 = 16384;

/// The most entries of an access list.
pub const MOST_ACES: usize = 32;

/// An entry of an access list, after [MS-DTYP] 'ACE'.
#[derive(Clone, Copy, Debug, PartialEq, Eq)]
pub struct Ace {
    /// Whether the entry allows its rights; else it denies them.
    pub allow: bool,
    /// Whom it concerns. A SID is a number here.
    pub sid: u32,
    /// The rights, as an `AccessMask`; generic ones are mapped when the list is put.
    pub mask: u32,
}

impl TryCopy for Ace {
    fn copy(&self, _alloc: Global) -> Result<Ace, NoMemory> {
        Ok(*self)
    }
}

/// A discretionary access list: entries in order, after [MS-DTYP] 'ACL'.
pub type Dacl = BoundedList<Ace>;

/// What `SetSecurity` does to the access list.
#[derive(Drop)]
pub enum DaclChange {
    /// It stays as it is.
    Keep,
    /// There is none from now on; all access is granted.
    Remove,
    /// It is put in place of the old one. At most 32 entries.
    Put(Dacl),
}

/// A level of caching: read (R), write (W) and handle (H) caching, after [MS-FSA] 'Server Requests
/// an Oplock'.
#[derive(Clone, Copy, Debug, PartialEq, Eq)]
pub enum Level {
    /// No caching.
    Nil,
    /// Read caching.
    R,
    /// Read and handle caching.
    RH,
    /// Read and write caching.
    RW,
    /// Read, write and handle caching.
    RWH,
}

/// What an open does where the file is there and where it isn't, after [MS-FSA] 'Server Requests an
/// Open of a File', CreateDisposition.
#[derive(Clone, Copy, Debug, PartialEq, Eq)]
pub enum Disposition {
    /// FILE_SUPERSEDE: replace the stream, or make it.
    Supersede,
    /// FILE_OPEN: open it; there has to be one.
    OpenExisting,
    /// FILE_CREATE: make it; there may be none.
    CreateNew,
    /// FILE_OPEN_IF: open it, or make it.
    OpenIf,
    /// FILE_OVERWRITE: empty it; there has to be one.
    Overwrite,
    /// FILE_OVERWRITE_IF: empty it, or make it.
    OverwriteIf,
}

/// The kind of a directory query, after [MS-FSCC] 'File Information Classes'.
#[derive(Clone, Copy, Debug, PartialEq, Eq)]
pub enum DirKind {
    /// FileNamesInformation.
    Names,
    /// FileDirectoryInformation.
    Dir,
    /// FileFullDirectoryInformation.
    Full,
    /// FileIdFullDirectoryInformation.
    IdFull,
}

/// The kind of a query on an open, after [MS-FSCC] 'File Information Classes'.
#[derive(Clone, Copy, Debug, PartialEq, Eq)]
pub enum InfoKind {
    /// FileBasicInformation.
    Basic,
    /// FileStandardInformation.
    Standard,
    /// FileInternalInformation.
    Internal,
    /// FileAttributeTagInformation.
    Tag,
    /// FileStreamInformation.
    Streams,
}

/// A request on the volume. A handle is named by the number of the call of the same client that
/// opened it. The sections named are those of [MS-FSA] 'Higher-Layer Triggered Events'.
pub enum Request {
    /// 'Server Requests an Open of a File'.
    Create {
        /// The path; a longer one than 32,760 units is `OBJECT_NAME_INVALID`.
        path: Name,
        /// The rights that are wanted, as an `AccessMask`.
        wanted: u32,
        /// What others may have, as a `ShareAccess`.
        share: u32,
        /// What happens where the file is there and where it isn't.
        disposition: Disposition,
        /// `CreateOptions`.
        options: u32,
        /// `FileAttributes`, for a file that is made or emptied.
        attributes: u32,
        /// The oplock key; handles with equal keys other than 0 don't break each other's oplocks.
        key: u64,
    },
    /// 'Server Requests Closing an Open'.
    Close {
        /// The handle.
        handle: u32,
    },
    /// 'Server Requests a Read'.
    Read {
        /// The handle.
        handle: u32,
        /// The place of the first byte, in bytes.
        at: u64,
        /// How many bytes, at most 16,384.
        count: u32,
    },
    /// 'Server Requests a Write'.
    Write {
        /// The handle.
        handle: u32,
        /// The place of the first byte, in bytes; `None` is the end of the stream.
        at: Option<u64>,
        /// The bytes, at most 16,384.
        bytes: Bytes,
    },
    /// 'Server Requests Flushing Cached Data'.
    Flush {
        /// The handle.
        handle: u32,
    },
    /// 'Server Requests a Byte-Range Lock'.
    Lock {
        /// The handle.
        handle: u32,
        /// The first byte of the range.
        at: u64,
        /// The length of the range, in bytes; it may be 0.
        count: u64,
        /// Whether the lock is exclusive; else it is shared.
        exclusive: bool,
        /// Whether to wait where the range conflicts.
        wait: bool,
    },
    /// 'Server Requests an Unlock of a Byte-Range'.
    Unlock {
        /// The handle.
        handle: u32,
        /// The first byte of the range.
        at: u64,
        /// The length of the range, in bytes.
        count: u64,
    },
    /// 'Server Requests Querying a Directory'.
    QueryDir {
        /// The handle of a directory.
        handle: u32,
        /// The layout of the entries.
        kind: DirKind,
        /// The expression that names have to match, at most 255 units, else `OBJECT_NAME_INVALID`.
        /// It counts at the handle's first query and at a restart; empty keeps the earlier one, or
        /// is `*`.
        expression: Name,
        /// Whether to begin anew.
        restart: bool,
        /// The room for entries, in bytes, at most 16,384.
        room: u32,
    },
    /// 'Server Requests Change Notifications for a Directory'.
    Notify {
        /// The handle of a directory.
        handle: u32,
        /// The changes asked for, as a `NotifyFilter`.
        filter: u32,
        /// Whether the whole tree below is watched.
        tree: bool,
        /// The room for entries, in bytes, at most 16,384.
        room: u32,
    },
    /// 'Server Requests a Query of File Information'.
    QueryInfo {
        /// The handle.
        handle: u32,
        /// What is asked.
        kind: InfoKind,
        /// The room for the answer, in bytes, at most 16,384.
        room: u32,
    },
    /// 'Server Requests Setting of File Information', FileBasicInformation.
    SetBasic {
        /// The handle.
        handle: u32,
        /// The time of creation, in ticks. Of each of the four times, 2^64 - 1 and 2^64 - 2 leave
        /// it, and other values from 2^63 on are refused; 0 leaves it too, but sets the time of the
        /// last change to the clock.
        creation: u64,
        /// The time of the last access, in ticks.
        access: u64,
        /// The time of the last write, in ticks.
        write: u64,
        /// The time of the last change, in ticks.
        change: u64,
        /// `FileAttributes`; 0 leaves them.
        attributes: u32,
    },
    /// 'Server Requests Setting of File Information', FileEndOfFileInformation.
    SetEnd {
        /// The handle.
        handle: u32,
        /// The new length of the stream, in bytes.
        length: u64,
    },
    /// 'Server Requests Setting of File Information', FileDispositionInformation.
    SetDisposition {
        /// The handle.
        handle: u32,
        /// Whether to mark for deletion; else the mark is cleared.
        delete: bool,
    },
    /// 'Server Requests Setting of File Information', FileRenameInformation.
    Rename {
        /// The handle.
        handle: u32,
        /// The new path.
        path: Name,
        /// Whether a file that is there is replaced.
        replace: bool,
    },
    /// 'Server Requests Setting of File Information', FileLinkInformation.
    Link {
        /// The handle.
        handle: u32,
        /// The path of the new link.
        path: Name,
        /// Whether a file that is there is replaced.
        replace: bool,
    },
    /// 'Server Requests Setting of Security Information'.
    SetSecurity {
        /// The handle.
        handle: u32,
        /// The new owner, or `None` to keep him.
        owner: Option<u32>,
        /// What becomes of the access list.
        dacl: DaclChange,
    },
    /// 'FSCTL_SET_REPARSE_POINT'.
    SetReparse {
        /// The handle.
        handle: u32,
        /// The reparse buffer, at most 16,384 bytes.
        bytes: Bytes,
    },
    /// 'FSCTL_GET_REPARSE_POINT'.
    GetReparse {
        /// The handle.
        handle: u32,
        /// The room for the buffer, in bytes, at most 16,384.
        room: u32,
    },
    /// 'FSCTL_DELETE_REPARSE_POINT'.
    DeleteReparse {
        /// The handle.
        handle: u32,
        /// The tag that has to be there.
        tag: u32,
    },
    /// 'Server Requests Setting Quota Information'.
    SetQuota {
        /// Whose limit is set.
        sid: u32,
        /// The limit, in bytes.
        limit: u64,
    },
    /// 'Server Requests Querying Quota Information'.
    QueryQuota {
        /// Whose charge and limit are asked.
        sid: u32,
    },
    /// 'Server Requests an Oplock'.
    Oplock {
        /// The handle.
        handle: u32,
        /// The level, other than `Nil`.
        level: Level,
    },
    /// 'Server Acknowledges an Oplock Break'.
    Ack {
        /// The handle.
        handle: u32,
        /// The level asked for; what stays is what it has in common with the break's target.
        level: Level,
    },
    /// 'Server Requests Canceling an Operation'.
    Cancel {
        /// The number of the call of the same client.
        number: u32,
    },
}

// One drop of the whole, so that it is one step at each end of a function that holds one.
impl Drop for Request {
    fn drop(self) {
        match self {
            Request::Create {
                path: _,
                wanted: _,
                share: _,
                disposition: _,
                options: _,
                attributes: _,
                key: _,
            } => {}
            Request::Close { handle: _ } => {}
            Request::Read {
                handle: _,
                at: _,
                count: _,
            } => {}
            Request::Write {
                handle: _,
                at: _,
                bytes: _,
            } => {}
            Request::Flush { handle: _ } => {}
            Request::Lock {
                handle: _,
                at: _,
                count: _,
                exclusive: _,
                wait: _,
            } => {}
            Request::Unlock {
                handle: _,
                at: _,
                count: _,
            } => {}
            Request::QueryDir {
                handle: _,
                kind: _,
                expression: _,
                restart: _,
                room: _,
            } => {}
            Request::Notify {
                handle: _,
                filter: _,
                tree: _,
                room: _,
            } => {}
            Request::QueryInfo {
                handle: _,
                kind: _,
                room: _,
            } => {}
            Request::SetBasic {
                handle: _,
                creation: _,
                access: _,
                write: _,
                change: _,
                attributes: _,
            } => {}
            Request::SetEnd {
                handle: _,
                length: _,
            } => {}
            Request::SetDisposition {
                handle: _,
                delete: _,
            } => {}
            Request::Rename {
                handle: _,
                path: _,
                replace: _,
            } => {}
            Request::Link {
                handle: _,
                path: _,
                replace: _,
            } => {}
            Request::SetSecurity {
                handle: _,
                owner: _,
                dacl: _,
            } => {}
            Request::SetReparse {
                handle: _,
                bytes: _,
            } => {}
            Request::GetReparse { handle: _, room: _ } => {}
            Request::DeleteReparse { handle: _, tag: _ } => {}
            Request::SetQuota { sid: _, limit: _ } => {}
            Request::QueryQuota { sid: _ } => {}
            Request::Oplock {
                handle: _,
                level: _,
            } => {}
            Request::Ack {
                handle: _,
                level: _,
            } => {}
            Request::Cancel { number: _ } => {}
        }
    }
}

impl Request {
    /// Whether each count, room and string of bytes is at most 16,384 bytes, an access list has at
    /// most 32 entries, and an oplock asks for a level. It takes no memory.
    pub fn fits(&self) -> bool
        ensures { result ≡ request_fits self.now }
    {
        match self {
            Request::Read { count, .. } => *count <= MOST_BYTES,
            Request::Write { bytes, .. } => bytes.bytes().len() <= MOST_BYTES as usize,
            Request::QueryDir { room, .. } => *room <= MOST_BYTES,
            Request::Notify { room, .. } => *room <= MOST_BYTES,
            Request::QueryInfo { room, .. } => *room <= MOST_BYTES,
            Request::SetSecurity { dacl, .. } => dacl.fits(),
            Request::SetReparse { bytes, .. } => bytes.bytes().len() <= MOST_BYTES as usize,
            Request::GetReparse { room, .. } => *room <= MOST_BYTES,
            Request::Oplock { level, .. } => !matches!(level, Level::Nil),
            _ => true,
        }
    }
}

impl DaclChange {
    ghost use Rattle.fsa_types.specs.Request.{dacl_fits};

    // Whether a list that is put has at most 32 entries.
    fn fits(&self) -> bool
        ensures { result ≡ dacl_fits self.now }
    {
        match self {
            DaclChange::Put(dacl) => dacl.len() <= MOST_ACES,
            _ => true,
        }
    }
}

/// What a call does.
pub enum What {
    /// A request on the volume.
    Ask(Request),
    /// The clock goes on by so many ticks.
    Tick(u32),
    /// It ends `SUCCESS` when the client's call of this number has ended, `STALLED` where every
    /// client waits, and `INVALID_PARAMETER` where there is no such earlier call.
    WaitFor(u32),
    /// The client leaves: its handles close. Every later call of it is `INVALID_HANDLE`.
    Leave,
}

// One drop of the whole, so that it is one step at each end of a function that holds one.
impl Drop for What {
    fn drop(self) {
        match self {
            What::Ask(_) => {}
            What::Tick(_) => {}
            What::WaitFor(_) => {}
            What::Leave => {}
        }
    }
}

impl What {
    /// Whether its request fits; all else does. It takes no memory.
    pub fn fits(&self) -> bool
        ensures { result ≡ what_fits self.now }
    {
        match self {
            What::Ask(request) => request.fits(),
            _ => true,
        }
    }
}

/// A call: the `number`th of client `client`.
#[derive(Drop)]
pub struct Call {
    /// The place of the client in the setup, from 0.
    pub client: u32,
    /// Which of the client's calls it is, from 1.
    pub number: u32,
    /// What it does.
    pub what: What,
}

/// Calls in order.
pub type CallList = BoundedList<Call>;

/// A call by its client and number.
#[derive(Clone, Copy, Debug, PartialEq, Eq)]
pub struct CallId {
    /// The place of the client in the setup, from 0.
    pub client: u32,
    /// Which of the client's calls it is, from 1.
    pub number: u32,
}

/// Calls by client and number, in order.
pub type CallIdList = BoundedList<CallId>;

impl TryCopy for CallId {
    fn copy(&self, _alloc: Global) -> Result<CallId, NoMemory> {
        Ok(*self)
    }
}
