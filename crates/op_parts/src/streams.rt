//! What a stream is.

ghost use Rattle.std.specs.Prelude.{◌≡◌};
ghost use Rattle.fsa_model.specs.Close.{named_stream};
ghost use Rattle.fsa_model.specs.Lookups.{is_marked, is_named_stream};

use volume_state::{HandleRow, Volume};

/// Whether a stream is marked for deletion; `false` where there is no such stream.
pub fn is_marked(volume: &Volume, stream: u64) -> bool
    ensures { result ≡ is_marked volume.now.content stream }
{
    match volume.stream(stream) {
        None => false,
        Some(info) => info.deleted,
    }
}

/// Whether a stream is a named one, and no default stream; `false` where there is no such stream.
pub fn is_named_stream(volume: &Volume, stream: u64) -> bool
    ensures { result ≡ is_named_stream volume.now.content stream }
{
    match volume.stream(stream) {
        None => false,
        Some(info) => info.name.units().len() != 0,
    }
}

/// The stream of a handle, where it is a named one.
pub fn named_stream(volume: &Volume, handle: &HandleRow) -> Option<u64>
    ensures { result ≡ named_stream volume.now.content handle.now }
{
    match handle.stream {
        None => None,
        Some(stream) => {
            if is_named_stream(volume, stream) {
                Some(stream)
            } else {
                None
            }
        }
    }
}
