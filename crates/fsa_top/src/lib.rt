//! The top calls. They read a script from a source, run it on one volume, and write its history to
//! a sink as text; the answer is the program's status.
//!
//! `fsa_single(alloc, words, &mut source, &mut sink)` with the one word `run` and the script
//!
//!     fsa 1
//!     client a 7
//!
//! writes `> a 1 leave`, `a 1 SUCCESS` and `end 1`, and answers 0. With the words `gen 0` it reads
//! nothing, and writes how many turns the generated script of the seed 0 has and how many calls ended
//! with each status. Nothing is asked of the words, the bytes, the source or the sink. The script is held in
//! memory whole, and so are all replies.
#![tactic(auto)]

mod generated_run;
mod limits;
mod lines;
mod null_sink;
mod order;
mod race_text;
mod run;
mod seed;
mod summary;
mod top;

pub use limits::{MOST_CLIENT_LINES, MOST_LINE_FEEDS, MOST_SCRIPT_BYTES};
pub use lines::is_race;
pub use top::{fsa_main, fsa_single};
