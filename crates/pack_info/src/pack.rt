//! Buffers of entries, written.

ghost use Rattle.std.specs.Prelude.{◌≡◌, ◌+◌, ◌<◌, ◌≤◌, ◌^◌, ◌++◌, length, take, map, IfOk, OnOk};
ghost use Rattle.fsa_types.specs.declared.reply.PackKind.TheVariants.{Streams, Changes};
ghost use Rattle.fsa_types.specs.PackedRows.{pack_kind};
ghost use Rattle.fsa_types.specs.Packing.{entries_bytes, bytes, fitting, packed};
ghost use Rattle.pack_info.specs.Entries.{AreEntries, AreWritable, IsFitting, rows_as_entries};

use crate::entry::{push_entry, size_of_name};
use crate::layout::{numbers_fit, round_up, size_of_head};
use crate::rows::{ChangeRow, DirRow, Row, StreamInfoRow};
use fsa_types::{Bytes, DirKind, NoMemory, PackKind};
use std::alloc::Global;

// How many rows fit.
fn count_fitting<T: Row>(kind: PackKind, rows: &[T], room: u32) -> usize
    ensures { IsFitting kind (rows_as_entries T.row_of kind rows.now) room result }
{
    let room = room as usize;
    let mut rest = rows;
    let mut used: usize = 0;
    let mut count: usize = 0;
    'rows: while let Some((row, more)) = rest.split_first() {
        let units = row.units();
        if units.len() > room {
            return count;
        }
        let size = size_of_head(kind) + size_of_name(kind, units);
        if used + size > room {
            return count;
        }
        used += round_up(kind, size);
        count += 1;
        rest = more;
    }
    count
}

// The buffer of these rows.
fn write_rows<T: Row>(alloc: Global, kind: PackKind, rows: &[T]) -> Result<Vec<u8>, NoMemory>
    requires { AreWritable kind (rows_as_entries T.row_of kind rows.now) }
    ensures bytes { IfOk result (λ out. out.items ≡ entries_bytes kind (rows_as_entries T.row_of kind rows.now)) }
    ensures entries { OnOk result (AreEntries kind (rows_as_entries T.row_of kind rows.now)) }
{
    let mut out = Vec::new(alloc);
    let mut rest = rows;
    'rows: while let Some((row, more)) = rest.split_first() {
        let numbers = row.numbers();
        numbers_fit(&numbers);
        push_entry(&mut out, kind, &numbers, row.units(), more.is_empty())?;
        rest = more;
    }
    Ok(out)
}

// The buffer of the rows that fit, and their number.
fn pack<T: Row>(
    alloc: Global,
    kind: PackKind,
    rows: &[T],
    room: u32,
) -> Result<(Bytes, usize), NoMemory>
    ensures count { IfOk result (λ made. IsFitting kind (rows_as_entries T.row_of kind rows.now) room made.1) }
    ensures bytes { IfOk result (λ made. made.0 ≡ entries_bytes kind (rows_as_entries T.row_of kind (take made.1 rows.now))) }
    ensures entries { IfOk result (λ made. AreEntries kind (rows_as_entries T.row_of kind (take made.1 rows.now))) }
{
    let count = count_fitting(kind, rows, room);
    let out = write_rows(alloc, kind, &rows[..count])?;
    Ok((Bytes::from(out), count))
}

/// The buffer of these changes, after [MS-FSCC] 'FILE_NOTIFY_INFORMATION'. The lengths of each entry have to
/// fit 32 bits: it is so where each name has fewer than 2^31 - 8 units, and where all of them take less than
/// 2^32 bytes.
pub fn pack_changes(alloc: Global, rows: &[ChangeRow]) -> Result<Bytes, NoMemory>
    requires { AreWritable Changes (map (packed Changes) rows.now) }
    ensures bytes { IfOk result (λ made. made ≡ bytes Changes rows.now) }
    ensures entries { OnOk result (AreEntries Changes (map (packed Changes) rows.now)) }
{
    let out = write_rows(alloc, PackKind::Changes, rows)?;
    Ok(Bytes::from(out))
}

/// The buffer of the streams that fit into `room` bytes, and how many they are, after [MS-FSCC]
/// 'FileStreamInformation'.
pub fn pack_streams(
    alloc: Global,
    rows: &[StreamInfoRow],
    room: u32,
) -> Result<(Bytes, usize), NoMemory>
    ensures count { IfOk result (λ made. made.1 ≡ fitting Streams rows.now room) }
    ensures bytes { IfOk result (λ made. made.0 ≡ bytes Streams (take made.1 rows.now)) }
    ensures entries { IfOk result (λ made. AreEntries Streams (map (packed Streams) (take made.1 rows.now))) }
{
    let (made, count) = pack(alloc, PackKind::Streams, rows, room)?;
    Ok((made, count))
}

/// The layout of the entries of a query of a directory of this kind.
pub fn pack_kind(kind: DirKind) -> PackKind
    ensures { result ≡ pack_kind kind }
{
    match kind {
        DirKind::Names => PackKind::Names,
        DirKind::Dir => PackKind::Dir,
        DirKind::Full => PackKind::Full,
        DirKind::IdFull => PackKind::IdFull,
    }
}

/// The buffer of the entries of a directory that fit into `room` bytes, and how many they are, after
/// [MS-FSCC] 'FileNamesInformation' to 'FileIdFullDirectoryInformation'.
pub fn pack_entries(
    alloc: Global,
    kind: DirKind,
    rows: &[DirRow],
    room: u32,
) -> Result<(Bytes, usize), NoMemory>
    ensures count { IfOk result (λ made. made.1 ≡ fitting (pack_kind kind) rows.now room) }
    ensures bytes { IfOk result (λ made. made.0 ≡ bytes (pack_kind kind) (take made.1 rows.now)) }
    ensures entries { IfOk result (λ made. AreEntries (pack_kind kind) (map (packed (pack_kind kind)) (take made.1 rows.now))) }
{
    let (made, count) = pack(alloc, pack_kind(kind), rows, room)?;
    Ok((made, count))
}
