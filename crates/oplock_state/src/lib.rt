//! The oplocks of one stream or directory, after [MS-FSA] 'Algorithm to Check for an Oplock Break', 'Server Requests an
//! Oplock' and 'Server Acknowledges an Oplock Break': `StreamOplocks` knows no handle and no stream; its caller says of
//! which handles a break breaks oplocks, and what a grant has to know of the stream. `OplockTable` keeps one list of
//! all oplocks and such a table for each stream, by the handles that are handed over, and knows no volume; tables stand
//! under keys that tell streams from directories (`homes`).
//!
//! ```text
//! oplocks.reserve(1)?;                                  // may be refused
//! oplocks.grant(handle, key, level, turn, false, false) // takes no memory; Granted or Refused
//! for place in 0..oplocks.chosen_len() {
//!     oplocks.chosen_at(place);                         // an oplock that it switched: its call ends
//! }
//! oplocks.mark(handle);                                 // for the next break
//! oplocks.begin(Class::ReadOpen, key, None, first);     // breaks are numbered from `first`
//! for place in 0..oplocks.told_len() {
//!     oplocks.told(place);                              // the handle, the level that may stay, whether to answer,
//!                                                       // and the call that ends
//! }
//! oplocks.waits(0);                                     // the number of a break that the request waits for
//! oplocks.ack(handle, level, turn);                     // what stays, and the break that has ended
//! oplocks.drop_handle(handle);                          // the break that has ended with the handle
//! ```
//!
//! Contracts see the oplocks in the order in which they were granted, the handles that are marked, and what
//! the last break or grant put by: the oplocks that it chose, whom it told, and for which breaks it waits.
//!
//! - A break goes over the oplocks of marked handles of another key than the acting one's, in the order in which
//!   the handles were opened. It, a grant, an answer and a handle that goes leave no handle marked.
//! - Only `reserve` takes memory. A grant takes room for one oplock, and with it for all that a break of it puts
//!   by; room stays as oplocks go.
//! - It asks that numbers rise: `first` is above all numbers of breaks that were given here.
//! - Each call takes time linear in the oplocks, and `begin` as much for each handle that is marked. An `OplockTable`,
//!   which breaks one oplock after the other, calls `begin_alone` and never `mark` and `begin`. `begin_alone` finds
//!   its oplock by halves as long as oplocks were granted in the order in which their handles were opened.
#![tactic(auto)]

mod homes;
mod oplock_table;
mod stream_oplocks;
mod stream_tables;

pub use oplock_table::OplockTable;
pub use stream_oplocks::{Grant, StreamOplocks};
pub use stream_tables::{AskedOplock, StreamTables};
pub use volume_breaks::Told;
