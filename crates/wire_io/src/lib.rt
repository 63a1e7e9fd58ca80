//! The outside of the store: a [`Source`] gives bytes in pieces, a [`Sink`] takes bytes in pieces,
//! and a [`Gate`] is passed before a turn. Everything that the store reads or writes goes through
//! these three, so that its contracts can say what was read and written, in memory and at the
//! standard streams alike.
//!
//! ```text
//! let mut source = StdSource::new(rt.reader());
//! let mut sink = StdSink::new(io::writer(&rt));
//! let bytes = read_all(rt.alloc(), &mut source, 1 << 24)?;
//! put_all(&mut sink, &bytes)?;
//! ```
//!
//! The calls group so:
//!
//! - the outside itself: [`Source::take`], [`Sink::put`], [`Gate::pass`], each of which does one
//!   piece, and the one way to fail, [`Failed`];
//! - all of it: [`read_all`] up to a limit, and [`put_all`];
//! - the shipped ones: [`StdSource`] and [`StdSink`] over the standard streams, [`OpenGate`];
//! - for tests and for text kept in memory: [`MemorySource`] and [`MemorySink`], whose pieces are
//!   as small, and whose calls fail as chosen.
//!
//! **What it asks of its caller**: a piece of a memory source or sink isn't 0. Else nothing.
//!
//! **Faults.** Each source and sink has a count of faults, which contracts see. It never falls, and
//! a call fails only where it rose. Its last value is 2^64 - 1, and a count that stands there
//! counts as one that has risen.
//!
//! **Cost.** A put takes no memory. `read_all` keeps a buffer of 64 KiB beside the bytes read, and
//! copies each byte once.
//!
//! **Caveats.** The standard streams tell no content: that their bytes pass is tested, and not
//! proved. `StdSink` writes and flushes at each put, so hand it long pieces.
#![tactic(auto)]

mod faults;
mod gates;
mod memory_sink;
mod memory_source;
mod sinks;
mod sources;
mod std_streams;
mod whole_input;

pub use faults::Failed;
pub use gates::{Gate, OpenGate};
pub use memory_sink::MemorySink;
pub use memory_source::MemorySource;
pub use sinks::{Sink, put_all};
pub use sources::Source;
pub use std_streams::{StdSink, StdSource};
pub use whole_input::{InputFault, read_all};
