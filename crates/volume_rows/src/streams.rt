//! Streams of a file.

ghost use Rattle.std.specs.Prelude.{◌≡◌, ◌==◌};
ghost use Rattle.fsa_model.specs.Lookups.{is_stream_named};

use crate::rows::StreamRow;
use fsa_types::UpcaseTable;

/// Whether a stream has this name in this file.
pub fn is_stream_named(table: &UpcaseTable, file: u64, units: &[u16], stream: &StreamRow) -> bool
    ensures { result ≡ is_stream_named table.now file units.now stream.now.stream }
{
    stream.info.file == file && table.same_name(stream.info.name.units(), units)
}
