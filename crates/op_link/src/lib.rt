//! New names for files over a volume, after [MS-FSA] 'Server Requests Setting of File Information',
//! FileRenameInformation and FileLinkInformation: one try of a Rename or a Link, from its first check.
//!
//! ```text
//! match try_rename(alloc, &mut volume, &call, turn) {
//!     Tried::Done(reply) => ..                   // it has ended, well or with a refusal
//!     Tried::Hold { blockers, interim } => ..    // it waits for these breaks, and is tried again then
//!     Tried::Stay(_) => ..                       // neither call ever stays
//!     Tried::NoMemory => ..                      // nothing has changed, not even a break has begun
//! }
//! ```
//!
//! The definitions are `Rename` and `Link` of `fsa_model`, with `Replacement` for the link of the new name that
//! is there already, and `Walk` for the path. The files here follow them: what is asked for (`naming`), the
//! link that is replaced (`replacement`), the breaks of a rename (`breaks`), what a rename changes (`moved`), the
//! room (`room`), and the checks in order (`rename`, `link`). The break itself, the walk along the path and what
//! a file grants are those of `op_parts`.
//!
//! - The call has to be the one that its try is for, and numbers have to be left for a link and for breaks.
//!   Oplocks and pending calls may be there, and handles of any file.
//! - A rename may break oplocks up to three times in one try: those of the handles below a directory, of the
//!   link that is replaced, and of the link itself. It is held by the first of these breaks that it has to
//!   wait for, and asks all its checks again then. A link breaks those of the link that it replaces.
//! - All room is taken before the first change, a break among the changes: for the new name, for the notes of
//!   the link before and after, and for a note of the link that is replaced. A refusal leaves the volume as it
//!   was, but for the breaks that were begun.
//! - It costs its breaks, and time linear in the units of the path, with a binary search among the directories and one
//!   among the names of a directory for each component, and for each directory above the new name, the old one and that
//!   of what is replaced; for a directory also a look at all handles, each with the way up from it; a link counts those
//!   of its file.
#![tactic(auto)]

mod breaks;
mod link;
mod moved;
mod naming;
mod rename;
mod replacement;
mod room;

pub use link::try_link;
pub use rename::try_rename;
