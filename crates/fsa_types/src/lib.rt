//! The types of the store: requests, replies, statuses, masks and lists, and in `specs` the rules over plain lists that
//! the definitions of `fsa_model` and the code stand on both.
//!
//! - A call is a request, a wait, a tick or a leaving, with its client and its number among that client's calls. Its
//!   reply is a status and a body; `Out` is all that one turn gives out.
//! - Names and numbers of statuses, masks, actions and filters are those of [MS-ERREF], [MS-FSCC] and [MS-FSA].
//! - A name is a list of 16-bit units, and `UpcaseTable` says which of two names are the same.
//! - What takes memory answers a `Result`, with `NoMemory` where there is none; `shared` answers none, and without
//!   memory the value isn't shared. A `BoundedList` takes its room once, and a `ReplyRoom` is what a reply is copied
//!   into, where its bytes aren't shared.
#![tactic(auto)]

mod case;
mod cluster;
mod copy;
mod list;
mod mask;
mod memory;
mod noted;
mod oplock;
mod reply;
mod request;
mod request_copy;
mod setup;
mod status;
mod text;

pub use case::{TableFault, UpcaseTable};
pub use cluster::{CLUSTER_SIZE, clusters_for};
pub use copy::TryCopy;
pub use list::BoundedList;
pub use mask::{
    AccessMask, CreateOptions, FILE_ATTRIBUTE_REPARSE_POINT, FileAttributes,
    IO_REPARSE_TAG_RESERVED_ONE, IO_REPARSE_TAG_RESERVED_ZERO, IO_REPARSE_TAG_SYMLINK,
    MICROSOFT_TAG, NotifyFilter, ShareAccess,
};
pub use memory::NoMemory;
pub use noted::{
    FILE_ACTION_ADDED, FILE_ACTION_ADDED_STREAM, FILE_ACTION_MODIFIED, FILE_ACTION_MODIFIED_STREAM,
    FILE_ACTION_REMOVED, FILE_ACTION_REMOVED_STREAM, FILE_ACTION_RENAMED_NEW_NAME,
    FILE_ACTION_RENAMED_OLD_NAME,
};
pub use oplock::{Class, HandleSet};
pub use reply::{
    Action, Answer, Blocker, BlockerList, Body, EndList, EndOf, Entry, Interim, Out, PackKind,
    Poll, Reply, ReplyRoom, Submitted, Why,
};
pub use request::{
    Ace, Call, CallId, CallIdList, CallList, Dacl, DaclChange, DirKind, Disposition, InfoKind,
    Level, MOST_ACES, MOST_BYTES, Request, What,
};
pub use setup::{Client, ClientList, Setup, SidList};
pub use status::Status;
pub use text::{Bytes, Name};
