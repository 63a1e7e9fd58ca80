//! Entries as they are packed, and where the enumeration stands after each.

ghost use Rattle.std.specs.Prelude.{◌≡◌, IfOk, map};
ghost use Rattle.fsa_types.specs.PackedRows.{pack_kind};
ghost use Rattle.fsa_types.specs.Packing.{packed};
ghost use Rattle.fsa_model.specs.QueryDir.{entry_row, entry_rows};
ghost use Rattle.fsa_model.specs.ShownNumbers.{listed_numbers};
ghost use Rattle.op_dir.specs.Places.{place_entry};
ghost use Rattle.volume_rows.specs.Cursors.{cursor_of};

use crate::places::{DOT, DOT_DOT, Place, parent_directory};
use fsa_types::{DirKind, Name, NoMemory, TryCopy};
use op_parts::{length_shown, shown_attributes, space_shown};
use pack_info::DirRow;
use std::alloc::Global;
use volume_state::{Cursor, Volume};

// A row without numbers. `NoMemory` where there is none for the name.
fn name_row(alloc: Global, units: &[u16]) -> Result<DirRow, NoMemory>
    ensures { IfOk result (λ row. row.name ≡ units.now) }
{
    let name = Name::copy_of(alloc, units)?;
    Ok(DirRow {
        creation: 0,
        access: 0,
        write: 0,
        change: 0,
        length: 0,
        room: 0,
        attributes: 0,
        file: 0,
        name,
    })
}

// The row of a file under this name. `NoMemory` where there is none for the name.
fn row_of(alloc: Global, volume: &Volume, file: u64, units: &[u16]) -> Result<DirRow, NoMemory>
    ensures { IfOk result (λ row. row ≡ record { numbers = listed_numbers volume.now.content file; name = units.now }) }
{
    let name = Name::copy_of(alloc, units)?;
    let stream = volume.default_stream(file);
    let (creation, access, write, change) = match volume.file(file) {
        None => (0, 0, 0, 0),
        Some(row) => (row.creation, row.access, row.write, row.change),
    };
    Ok(DirRow {
        creation,
        access,
        write,
        change,
        length: length_shown(volume, stream),
        room: space_shown(volume, stream),
        attributes: shown_attributes(volume, file),
        file,
        name,
    })
}

/// The row of a file under this name, with the numbers that a query of this kind gives. `NoMemory` where there is none
/// for the name.
pub(crate) fn row_for(
    alloc: Global,
    volume: &Volume,
    kind: DirKind,
    file: u64,
    units: &[u16],
) -> Result<DirRow, NoMemory>
    ensures { IfOk result (λ row. packed (pack_kind kind) row ≡ packed (pack_kind kind) (record { numbers = listed_numbers volume.now.content file; name = units.now })) }
{
    match kind {
        DirKind::Names => name_row(alloc, units),
        DirKind::Dir | DirKind::Full | DirKind::IdFull => row_of(alloc, volume, file, units),
    }
}

// The row of the entry at a place, with the numbers that a query of this kind gives.
fn entry_row(
    alloc: Global,
    volume: &Volume,
    dir: u64,
    kind: DirKind,
    place: Place,
) -> Result<DirRow, NoMemory>
    ensures { IfOk result (λ row. packed (pack_kind kind) row ≡ packed (pack_kind kind) (entry_row volume.now.content (place_entry volume.now.content dir place))) }
{
    match place {
        Place::Dot => row_for(alloc, volume, kind, dir, &DOT),
        Place::DotDot => row_for(alloc, volume, kind, parent_directory(volume, dir), &DOT_DOT),
        Place::Link(id) => match volume.link(id) {
            None => row_for(alloc, volume, kind, dir, &DOT),
            Some(link) => row_for(alloc, volume, kind, link.file, link.name.units()),
        },
    }
}

/// The rows of the entries at these places of a directory, as a query of this kind packs them. `NoMemory` where
/// there is none for them.
pub(crate) fn entry_rows(
    alloc: Global,
    volume: &Volume,
    dir: u64,
    kind: DirKind,
    places: &[Place],
) -> Result<Vec<DirRow>, NoMemory>
    ensures { IfOk result (λ rows. map (packed (pack_kind kind)) rows.items ≡ map (packed (pack_kind kind)) (entry_rows volume.now.content (map (place_entry volume.now.content dir) places.now))) }
{
    let mut rows = Vec::new(alloc);
    for place in places {
        rows.push(entry_row(alloc, volume, dir, kind, *place)?)?;
    }
    Ok(rows)
}

/// Where an enumeration stands after the entry at this place. `NoMemory` where there is none for the name.
pub(crate) fn cursor_after(
    alloc: Global,
    volume: &Volume,
    dir: u64,
    place: Place,
) -> Result<Cursor, NoMemory>
    ensures { IfOk result (λ cursor. cursor_of cursor ≡ (place_entry volume.now.content dir place).place) }
{
    let _dir = dir;
    match place {
        Place::Dot => Ok(Cursor::Dot),
        Place::DotDot => Ok(Cursor::DotDot),
        Place::Link(id) => match volume.link(id) {
            None => Ok(Cursor::Dot),
            Some(link) => Ok(Cursor::After(link.name.copy(alloc)?)),
        },
    }
}
