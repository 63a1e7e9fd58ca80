//! The faults of stream parts.

ghost use Rattle.std.specs.Prelude.{◌≡◌, ◌==◌, ◌||◌};
ghost use Rattle.std.specs.List.{slice_split, list_any};
ghost use Rattle.fsa_types.specs.CaseTable.{up, ascii_pairs};
ghost use Rattle.fsa_types.specs.Paths.{is_colon, is_bad_stream, is_data, stream_fault};
ghost use Rattle.names.specs.NameFault.{FindsFault};

use crate::component::MOST_NAME_UNITS;
use crate::fault::NameFault;
use crate::unit_split::{COLON, split_once};

// `$DATA`
const DATA: [u16; 5] = [0x24, 0x44, 0x41, 0x54, 0x41];

/// Whether the stream part of the last piece of a path is sound, or `BadStream`; a piece without a
/// stream part is sound. It takes time linear in the piece.
pub(crate) fn check_stream(piece: &[u16]) -> Result<(), NameFault>
    ensures { FindsFault (stream_fault (slice_split is_colon piece.now)) result }
{
    let Some((_, part)) = split_once(piece, COLON) else {
        return Ok(());
    };
    let Some((stream, kind)) = split_once(part, COLON) else {
        return if part.is_empty() || is_bad_stream(part) {
            Err(NameFault::BadStream)
        } else {
            Ok(())
        };
    };
    if let Some(_more) = split_once(kind, COLON) {
        return Err(NameFault::BadStream);
    }
    if is_bad_stream(stream) || !is_data(kind) {
        return Err(NameFault::BadStream);
    }
    Ok(())
}

// Whether the name of a stream has too many units, or one that is 0 or `/`.
fn is_bad_stream(stream: &[u16]) -> bool
    ensures { result ≡ is_bad_stream stream.now }
{
    stream.len() > MOST_NAME_UNITS || has_bad_unit(stream)
}

// Whether some unit is 0 or `/`.
fn has_bad_unit(stream: &[u16]) -> bool
    ensures { result ≡ list_any (λ unit. unit == 0 || unit == 47) stream.now }
{
    stream.iter().any(|unit| *unit == 0 || *unit == 0x2F)
}

// Whether the type of a stream is `$DATA`, in any case of its letters.
fn is_data(kind: &[u16]) -> bool
    ensures { result ≡ is_data kind.now }
{
    let upper = kind.iter().map(|unit| ascii_upper(*unit));
    upper.cmp(DATA.iter().copied()).is_eq()
}

// A letter from `a` to `z` as a capital, and each other unit as it is.
fn ascii_upper(unit: u16) -> u16
    ensures { result ≡ up ascii_pairs unit }
{
    match unit {
        0x61..=0x7A => unit - 0x20,
        _ => unit,
    }
}
