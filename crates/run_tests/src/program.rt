//! The program over bytes in memory.

use fsa_top::{fsa_single, is_race};
use std::alloc::{AllocError, Global};
use wire_io::{Sink, Source};

/// The status of a run of the script that the source gives.
pub fn run<S: Source, K: Sink>(
    alloc: Global,
    source: &mut S,
    sink: &mut K,
) -> Result<u8, AllocError> {
    let words = words_of(alloc, "run")?;
    Ok(on_one_thread(alloc, words.as_slice(), source, sink))
}

/// The status of `fsa_single` for these words; 255 for the word `race`, which it doesn't take.
pub fn on_one_thread<S: Source, K: Sink>(
    alloc: Global,
    words: &[String],
    source: &mut S,
    sink: &mut K,
) -> u8 {
    if is_race(words) {
        return u8::MAX;
    }
    fsa_single(alloc, words, source, sink)
}

/// The words of a text.
pub fn words_of(alloc: Global, text: &str) -> Result<Vec<String>, AllocError> {
    let mut words = Vec::new(alloc);
    for word in text.split_whitespace() {
        words.push(String::from_str(alloc, word)?)?;
    }
    Ok(words)
}

// How often a text stands in a chunk.
const CHUNK: usize = 4096;

/// This text, so many times, and then the tail.
pub fn repeated(
    alloc: Global,
    text: &str,
    times: usize,
    tail: &str,
) -> Result<Vec<u8>, AllocError> {
    let mut bytes = Vec::new(alloc);
    let chunk = text.repeat(alloc, CHUNK)?;
    for _chunk in 0..times / CHUNK {
        bytes.extend_from_slice(chunk.as_bytes())?;
    }
    for _time in 0..times % CHUNK {
        bytes.extend_from_slice(text.as_bytes())?;
    }
    bytes.extend_from_slice(tail.as_bytes())?;
    Ok(bytes)
}
