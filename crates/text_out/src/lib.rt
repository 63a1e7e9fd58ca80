//! The printed text of turns. A [`TextBuffer`] gathers the lines of turns and puts them to a sink:
//! [`TextBuffer::add_turn`] adds those of one turn, which say whose turn it is and what it does, the
//! answer to its call, and the calls that ended besides; [`TextBuffer::finish`] puts all that is gathered
//! and the line behind all turns; [`TextBuffer::give_up`] puts what is gathered where there is no memory for more.
//!
//! ```text
//! > a 3 read
//! a 3 SUCCESS x68656c6c6f
//! end 3
//! ```
//!
//! A packed body is printed as its bytes and as the entries that they begin with, up to where no entry
//! begins. Nothing is asked of the call, of what was given out or of the sink.
//!
//! [`write_bytes`] writes a string of bytes, part by part and without memory.
//!
//! **Cost.** The lines of a turn are made behind what is gathered. Once there are 65,536 bytes, all are put, so
//! that most turns cost no put, and none more than one of a sink that takes all that it is handed. Where there is
//! no memory for a turn's lines they are taken away again. Where its answer is bytes alone (`Body::Got`), it goes
//! out around these then, in up to four puts: what stands before them is put, their digits are put, those of 8,192
//! bytes at a time, which takes no memory, and what follows them is gathered. Where there is no memory for that
//! either, or no such answer, none of the lines is put, and what was gathered before is. Time is linear in what is
//! put, and memory in a block and the longest turn's lines.
#![tactic(auto)]

mod bodies;
mod bytes;
mod digits;
mod draft;
mod entries;
mod text;
mod write;

pub use bytes::write_bytes;
pub use write::{TextBuffer, TextFault};
