//! The streams of a file.

ghost use Rattle.std.specs.Prelude.{◌≡◌, [], IfOk, IfSome, IsTrue, Some, length};
ghost use Rattle.fsa_types.specs.PackedRows.{stream_row};
ghost use Rattle.fsa_types.specs.Rows.{lives, row_of};
ghost use Rattle.fsa_model.specs.QueryInfo.{query_streams, query_streams_by, stream_rows, streams_reply};
ghost use Rattle.fsa_model.specs.ShownNumbers.{space_shown};
ghost use Rattle.op_info.specs.Streams.{IsWalked};
ghost use Rattle.volume_state.specs.Tried.{Leaves};

use fsa_types::{Body, Bytes, Name, NoMemory, PackKind, Reply, Status};
use op_parts::{length_shown, space_shown};
use pack_info::{StreamInfoRow, pack_streams};
use std::alloc::Global;
use volume_state::{HandleRow, Tried, Volume};

// The row of a stream, which there has to be.
fn row_of_stream(alloc: Global, volume: &Volume, stream: u64) -> Result<StreamInfoRow, NoMemory>
    requires lives { IsTrue (lives volume.now.content.streams stream) }
    ensures { IfOk result (λ row. IfSome (row_of volume.now.content.streams stream) (λ s. row ≡ stream_row (length s.bytes) (space_shown volume.now.content (Some stream)) s.name)) }
{
    let length = length_shown(volume, Some(stream));
    let room = space_shown(volume, Some(stream));
    let Some(info) = volume.stream(stream) else {
        unreachable!()
    };
    let name = Name::copy_of(alloc, info.name.units())?;
    Ok(StreamInfoRow { length, room, name })
}

// The units of the name of a stream, which there has to be.
fn units_of(volume: &Volume, stream: u64) -> &[u16]
    requires lives { IsTrue (lives volume.now.content.streams stream) }
    ensures { IfSome (row_of volume.now.content.streams stream) (λ s. result.now ≡ s.name) }
{
    let Some(info) = volume.stream(stream) else {
        unreachable!()
    };
    info.name.units()
}

// The row of the default stream, where there is one.
fn default_row(alloc: Global, volume: &Volume, file: u64) -> Result<Vec<StreamInfoRow>, NoMemory>
    ensures { IfOk result (λ rows. IsWalked volume.now.content file rows.items []) }
{
    let mut rows = Vec::new(alloc);
    match volume.default_stream(file) {
        None => Ok(rows),
        Some(stream) => {
            let row = row_of_stream(alloc, volume, stream)?;
            rows.push(row)?;
            Ok(rows)
        }
    }
}

// The rows of all streams of a file, in the order of their names.
fn stream_rows(alloc: Global, volume: &Volume, file: u64) -> Result<Vec<StreamInfoRow>, NoMemory>
    ensures { IfOk result (λ rows. rows.items ≡ stream_rows volume.now.content file) }
{
    let mut rows = default_row(alloc, volume, file)?;
    let mut units: &[u16] = &[];
    'names: while let Some(stream) = volume.stream_after(file, units) {
        let row = row_of_stream(alloc, volume, stream)?;
        rows.push(row)?;
        units = units_of(volume, stream);
    }
    Ok(rows)
}

// These rows, packed.
fn streams_reply(status: Status, bytes: Bytes) -> Tried
    ensures { result ≡ Tried.Done (record { status = status; body = Body.Packed PackKind.Streams bytes }) }
{
    Tried::Done(Reply {
        status,
        body: Body::Packed(PackKind::Streams, bytes),
    })
}

// All rows; or where not all fit, the whole ones that do.
#[tactic(auto, unfolding(fsa_model::specs::QueryInfo::query_streams))]
fn query_streams(alloc: Global, volume: &Volume, file: u64, room: u32) -> Tried
    ensures leaves { Leaves (query_streams volume.now.content file room) volume.now volume.now result }
{
    let Ok(rows) = stream_rows(alloc, volume, file) else {
        return Tried::NoMemory;
    };
    let Ok((bytes, count)) = pack_streams(alloc, &rows, room) else {
        return Tried::NoMemory;
    };
    if count == rows.len() {
        streams_reply(Status::Success, bytes)
    } else {
        streams_reply(Status::BufferOverflow, bytes)
    }
}

/// The streams of the handle's file, packed, as many as fit, after [MS-FSCC] 'FileStreamInformation':
/// BUFFER_OVERFLOW where not all do. A directory has none, and the answer no bytes then. `NoMemory` where
/// there is none.
#[tactic(auto, unfolding(fsa_model::specs::QueryInfo::query_streams_by))]
pub fn query_streams_by(
    alloc: Global,
    volume: &Volume,
    handle: &HandleRow,
    file: u64,
    room: u32,
) -> Tried
    ensures leaves { Leaves (query_streams_by volume.now.content handle.now file room) volume.now volume.now result }
{
    if handle.stream.is_none() {
        return Tried::ends(Status::Success);
    }
    query_streams(alloc, volume, file, room)
}
