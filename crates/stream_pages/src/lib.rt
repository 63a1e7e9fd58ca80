//! The bytes of one stream, in pages of 4,096 bytes. A page is there only once something was written in
//! it or room was taken for that; all others read as zeros.
//!
//! ```text
//! let mut stream = Stream::new(alloc);
//! stream.write(20_000, &[0x41])?;         // zeros up to there, one page
//! for part in stream.parts(19_998, 3) {   // joined: 00 00 41
//!     ..
//! }
//! stream.set_len(5);                      // takes no memory, and gives the page back
//! stream.reserve(5, 100)?;                // may be refused
//! stream.write(5, piece)?;                // of 100 bytes: takes no memory now
//! ```
//!
//! Contracts see the list of the bytes, and the room: what lies in it can be written without taking
//! memory. `Parts` is seen as the list of the parts that are left.
//!
//! - It asks of its caller that no byte is written, reserved or set at 2^26 or beyond, and that the bytes
//!   asked for in parts are there.
//! - Pages are kept in a sorted list and found by binary search. `write` and `parts` take time linear in
//!   their bytes, and logarithmic in the pages for each page; a page that is new moves those behind it by
//!   32 bytes each. `set_len` looks up one page, and takes time linear in the pages that it gives back.
//! - Memory is taken only by `reserve` and `write`: for each page that isn't there 4,096 bytes, and its
//!   place in the list. A gap takes none, and no length does. `set_len` and `parts` take none.
//! - The room is one range. `reserve` puts another in its place, and so may a `write` outside it; `set_len`
//!   ends it where the stream is cut. Pages of an earlier range stay until they are cut off.
#![tactic(auto)]

mod page;
mod pages;
mod parts;
mod stream;

pub use parts::Parts;
pub use stream::Stream;
