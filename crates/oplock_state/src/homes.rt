//! The keys under which tables of oplocks stand, and room is promised: the homes of oplocks. The home of those on a
//! stream is 2 times the stream's number. An odd number, 2 times a directory's file number and 1, is kept for the
//! oplocks on a directory, so that no directory has a home of a stream.

ghost use Rattle.std.specs.Prelude.{◌≡◌, ◌<◌, ◌^◌};
ghost use Rattle.oplock_state.specs.Homes.{home_of_handle, home_of_stream, HomesFit};
ghost use Rattle.volume_tables.specs.HandleTable.{stream_of_handle};

use volume_tables::HandleTable;

// The home of the oplocks on a stream. Its number has to be below 2^63.
pub(crate) fn home_of_stream(stream: u64) -> u64
    requires fits { home_of_stream stream < 2 ^ 64 }
    ensures { result ≡ home_of_stream stream }
{
    2 * stream
}

// The stream of a handle, where it has one.
fn stream_of(handles: &HandleTable, handle: u64) -> Option<u64>
    ensures { result ≡ stream_of_handle handles.now.rows handle }
{
    let row = handles.get(handle)?;
    row.stream
}

// The home of a handle's oplock; `None` exactly where there is no such handle, or it has no stream.
pub(crate) fn home_of_handle(handles: &HandleTable, handle: u64) -> Option<u64>
    requires fit { HomesFit handles.now.rows }
    ensures { result ≡ home_of_handle handles.now.rows handle }
{
    let stream = stream_of(handles, handle)?;
    Some(home_of_stream(stream))
}
