//! The lines of a script, each by itself.

ghost use Rattle.std.specs.Prelude.{◌≡◌, ◌≤◌, length};
ghost use Rattle.fsa_model.specs.Words.{onto};
ghost use Rattle.fsa_model.specs.Lines.{pair_at, sids_at, client_at, request_of, line_of};
ghost use Rattle.script_read.specs.ReadsAs.{ReadsAs};
ghost use Rattle.script_read.specs.LineView.{line_view};

use crate::fault::{LineFault, SYNTAX};
use crate::request::what_of;
use crate::word::{ended, field_at, id_at, is_name, mask_at, split_word};
use fsa_types::{SidList, What};
use std::alloc::Global;

// The most SIDs of a client.
const MOST_SIDS: u32 = 16;

/// What a line says.
#[derive(Drop)]
pub enum Line<'a> {
    /// It is the first line.
    Version,
    /// The default case table holds.
    DefaultTable,
    /// A case table of pairs begins.
    PairTable,
    /// A pair of the case table: source and target.
    Pair(u32, u32),
    /// A client: its name, and its SIDs, 1 to 16.
    Client(&'a [u8], SidList),
    /// A request: its client's name, its number, and what it asks.
    Request(&'a [u8], u32, What),
}

// The two masks of a pair.
#[tactic(auto, unfolding(fsa_model::specs::Lines::pair_at))]
fn pair_at(bytes: &[u8]) -> Result<Line<'_>, LineFault>
    ensures { ReadsAs line_view result (pair_at bytes.now) }
{
    let (source, rest) = mask_at(bytes)?;
    let (target, rest) = mask_at(rest)?;
    ended(rest)?;
    Ok(Line::Pair(source, target))
}

// SIDs up to the end of the line, behind the first.
fn sids_behind(alloc: Global, first: u32, bytes: &[u8]) -> Result<SidList, LineFault>
    ensures { ReadsAs (λ sids. sids.items) result (onto first (sids_at 15 bytes.now)) }
{
    let mut sids = SidList::with_room(alloc, MOST_SIDS)?;
    sids.push(first);
    let mut rest = bytes;
    'sids: while !rest.is_empty() {
        if sids.len() == MOST_SIDS as usize {
            return Err(SYNTAX);
        }
        let (sid, after) = id_at(rest)?;
        sids.push(sid);
        rest = after;
    }
    Ok(sids)
}

// The name and the SIDs of a client.
#[tactic(auto, unfolding(fsa_model::specs::Lines::client_at))]
fn client_at(alloc: Global, bytes: &[u8]) -> Result<Line<'_>, LineFault>
    ensures { ReadsAs line_view result (client_at bytes.now) }
{
    let (name, rest) = field_at(bytes)?;
    if !is_name(name) {
        return Err(SYNTAX);
    }
    let (sid, rest) = id_at(rest)?;
    let sids = sids_behind(alloc, sid, rest)?;
    Ok(Line::Client(name, sids))
}

// The client's name, the number and the verb of a request, and its fields.
#[tactic(auto, unfolding(fsa_model::specs::Lines::request_of))]
fn request_of(alloc: Global, bytes: &[u8]) -> Result<Line<'_>, LineFault>
    ensures { ReadsAs line_view result (request_of bytes.now) }
{
    let (name, rest) = split_word(bytes);
    if !is_name(name) {
        return Err(SYNTAX);
    }
    let (number, rest) = id_at(rest)?;
    let (verb, fields) = field_at(rest)?;
    let what = what_of(alloc, verb, fields)?;
    Ok(Line::Request(name, number, what))
}

/// What the bytes of a line, without its line feed, say.
#[tactic(auto, unfolding(fsa_model::specs::Lines::line_of))]
pub fn line_of(alloc: Global, bytes: &[u8]) -> Result<Line<'_>, LineFault>
    ensures { ReadsAs line_view result (line_of bytes.now) }
{
    if bytes == b"fsa 1".as_slice() {
        Ok(Line::Version)
    } else if bytes == b"table default".as_slice() {
        Ok(Line::DefaultTable)
    } else if bytes == b"table pairs".as_slice() {
        Ok(Line::PairTable)
    } else if bytes.starts_with(b"up 0x") {
        pair_at(&bytes[2..])
    } else if bytes.starts_with(b"client ") {
        client_at(alloc, &bytes[6..])
    } else {
        request_of(alloc, bytes)
    }
}
