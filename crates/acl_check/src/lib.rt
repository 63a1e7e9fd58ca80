//! The access check of a file: what a discretionary access list denies to a client who has some
//! SIDs, and what generic rights stand for. Entries count in their order, so the first entry for
//! the client that names a right decides it.
//!
//! ```
//! let entries = [
//!     Ace { allow: false, sid: 9, mask: 0x2 },
//!     Ace { allow: true, sid: 9, mask: map_generic(0x1000_0000) },
//! ];
//! // For the client with SID 9, `list` having these entries in this order:
//! check(Some(&list), 7, &[9], 0x1) == Some(0x1)
//! check(Some(&list), 7, &[9], 0x2) == None
//! check(None, 7, &[9], 0x2) == Some(0x2)
//! ```
//!
//! It asks nothing of its caller: each call takes any list, any SIDs and any mask. A check takes no
//! memory and looks through the client's SIDs once for each entry; a list has at most 32 entries
//! and a client at most 16 SIDs.
//!
//! Caveats: a check maps no generic rights, neither those of entries nor those that are wanted, so
//! map them first; where no right is wanted, nothing is denied; privileges, inheritance and object
//! entries aren't known here.
#![tactic(auto)]

mod access;
mod generic;

pub use access::check;
pub use generic::map_generic;
