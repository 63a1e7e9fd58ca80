//! The entries of a directory that are still to come, by where they stand.

ghost use Rattle.std.specs.Prelude.{◌≡◌, ◌-◌, ◌++◌, ◌∷◌, ◌&&◌, [], IfOk, OnOk, filter, map, if◌then◌else◌};
ghost use Rattle.fsa_types.specs.PackedRows.{pack_kind};
ghost use Rattle.fsa_types.specs.Match.{matches};
ghost use Rattle.fsa_types.specs.Packing.{packed};
ghost use Rattle.fsa_model.specs.QueryDir.{dot_dot_entry, dot_entry, dots, entry_rows, is_still_to_come, left_to_list, link_entry, listed_links, parent_directory};
ghost use Rattle.fsa_model.specs.Volume.{After};
ghost use Rattle.op_dir.specs.Filling.{Fills, padded_size};
ghost use Rattle.op_dir.specs.Places.{place_entry, is_listed, is_wanted};
ghost use Rattle.volume_rows.specs.Cursors.{cursor_of};
ghost use Rattle.volume_state.specs.Children.{links_under};

use crate::kinds::{head_size, left_behind};
use crate::rows::{entry_rows, row_for};
use fsa_types::{DirKind, NoMemory};
use name_match::Expression;
use pack_info::DirRow;
use std::alloc::Global;
use volume_state::{Cursor, LinkRow, Volume};

/// Where an entry of a directory stands.
#[derive(Clone, Copy)]
pub(crate) enum Place {
    /// It is `.`.
    Dot,
    /// It is `..`.
    DotDot,
    /// It is the link of this number.
    Link(u64),
}

/// The units of `.`.
pub(crate) const DOT: [u16; 1] = [0x2E];

/// The units of `..`.
pub(crate) const DOT_DOT: [u16; 2] = [0x2E, 0x2E];

/// The directory that a directory is in; of the root it is the root.
pub(crate) fn parent_directory(volume: &Volume, dir: u64) -> u64
    ensures { result ≡ parent_directory volume.now.content dir }
{
    match volume.link_of(dir) {
        None => dir,
        Some(link) => link.parent,
    }
}

// Whether `.` of a directory is still to come, and matches.
fn is_dot_wanted(volume: &Volume, dir: u64, expression: &Expression, cursor: &Cursor) -> bool
    ensures { result ≡ is_wanted volume.now.content expression.now (cursor_of cursor.now) (dot_entry dir) }
{
    let _dir = dir;
    match cursor {
        Cursor::Start => expression.matches(volume.table(), &DOT),
        Cursor::Dot | Cursor::DotDot | Cursor::After(_) => false,
    }
}

// Whether `..` of a directory is still to come, and matches.
fn is_dot_dot_wanted(volume: &Volume, dir: u64, expression: &Expression, cursor: &Cursor) -> bool
    ensures { result ≡ is_wanted volume.now.content expression.now (cursor_of cursor.now) (dot_dot_entry volume.now.content dir) }
{
    let _dir = dir;
    match cursor {
        Cursor::Start | Cursor::Dot => expression.matches(volume.table(), &DOT_DOT),
        Cursor::DotDot | Cursor::After(_) => false,
    }
}

// Puts a place at the end, where it is wanted.
fn push_wanted(places: &mut Vec<Place>, place: Place, wanted: bool) -> Result<(), NoMemory>
    ensures { OnOk result (places.new.items ≡ (if wanted then places.old.items ++ place ∷ [] else places.old.items)) }
{
    if wanted {
        places.push(place)?;
    }
    Ok(())
}

// `.` and `..`, where they are still to come and match; the root has neither.
fn dots_left(
    alloc: Global,
    volume: &Volume,
    dir: u64,
    expression: &Expression,
    cursor: &Cursor,
) -> Result<Vec<Place>, NoMemory>
    ensures { IfOk result (λ places. map (place_entry volume.now.content dir) places.items ≡ filter (is_wanted volume.now.content expression.now (cursor_of cursor.now)) (dots volume.now.content dir)) }
{
    let mut places = Vec::new(alloc);
    if dir == volume.root() {
        return Ok(places);
    }
    let dot = is_dot_wanted(volume, dir, expression, cursor);
    let dot_dot = is_dot_dot_wanted(volume, dir, expression, cursor);
    push_wanted(&mut places, Place::Dot, dot)?;
    push_wanted(&mut places, Place::DotDot, dot_dot)?;
    Ok(places)
}

// The numbers of links of a directory, marked or not, among which all stand that are still to come and match: those
// that begin as the expression does.
fn links_left<'a>(
    volume: &'a Volume,
    dir: u64,
    expression: &Expression,
    cursor: &Cursor,
) -> &'a [u64]
    ensures { filter (is_listed volume.now.content expression.now) (links_under volume.now.content result.now) ≡ filter (λ entry. is_still_to_come volume.now.content.table (cursor_of cursor.now) (After entry.1.name) && matches volume.now.content.table expression.now entry.1.name) (listed_links volume.now.content dir) }
{
    let units = expression.beginning();
    match cursor {
        Cursor::After(name) => volume.children_after(dir, Some(name.units()), units),
        Cursor::Start | Cursor::Dot | Cursor::DotDot => volume.children_after(dir, None, units),
    }
}

// Whether a link isn't marked for deletion, and matches.
fn is_listed(volume: &Volume, expression: &Expression, id: u64, link: &LinkRow) -> bool
    ensures { result ≡ is_listed volume.now.content expression.now (id, link.now) }
{
    let _id = id;
    !link.deleted && expression.matches(volume.table(), link.name.units())
}

// Puts a link at the end, where it lives, isn't marked and matches, and its row. Gives what is left of a room behind it.
fn push_link(
    alloc: Global,
    volume: &Volume,
    dir: u64,
    kind: DirKind,
    expression: &Expression,
    id: u64,
    left: u32,
    places: &mut Vec<Place>,
    rows: &mut Vec<DirRow>,
) -> Result<u32, NoMemory>
    ensures entries { OnOk result (map (place_entry volume.now.content dir) places.new.items ≡ map (place_entry volume.now.content dir) places.old.items ++ map link_entry (filter (is_listed volume.now.content expression.now) (links_under volume.now.content (id ∷ [])))) }
    ensures rows { OnOk result (map (packed (pack_kind kind)) rows.new.items ≡ map (packed (pack_kind kind)) rows.old.items ++ map (packed (pack_kind kind)) (entry_rows volume.now.content (map link_entry (filter (is_listed volume.now.content expression.now) (links_under volume.now.content (id ∷ [])))))) }
    ensures left { IfOk result (λ behind. behind ≡ left - padded_size (pack_kind kind) (map link_entry (filter (is_listed volume.now.content expression.now) (links_under volume.now.content (id ∷ []))))) }
{
    let _dir = dir;
    let Some(link) = volume.link(id) else {
        return Ok(left);
    };
    if !is_listed(volume, expression, id, link) {
        return Ok(left);
    }
    let units = link.name.units();
    places.push(Place::Link(id))?;
    rows.push(row_for(alloc, volume, kind, link.file, units)?)?;
    Ok(left_behind(kind, left, units))
}

// Puts those of some links that aren't marked and match at the end, and their rows, until these links alone fill the
// room.
fn push_links(
    alloc: Global,
    volume: &Volume,
    dir: u64,
    kind: DirKind,
    expression: &Expression,
    links: &[u64],
    room: u32,
    places: &mut Vec<Place>,
    rows: &mut Vec<DirRow>,
) -> Result<(), NoMemory>
    requires rows { map (packed (pack_kind kind)) rows.old.items ≡ map (packed (pack_kind kind)) (entry_rows volume.now.content (map (place_entry volume.now.content dir) places.old.items)) }
    ensures fills { OnOk result (Fills (pack_kind kind) room (map (place_entry volume.now.content dir) places.new.items) (map (place_entry volume.now.content dir) places.old.items ++ map link_entry (filter (is_listed volume.now.content expression.now) (links_under volume.now.content links.now)))) }
    ensures rows { OnOk result (map (packed (pack_kind kind)) rows.new.items ≡ map (packed (pack_kind kind)) (entry_rows volume.now.content (map (place_entry volume.now.content dir) places.new.items))) }
{
    let mut left = room;
    'links: for id in links {
        if left < head_size(kind) {
            return Ok(());
        }
        left = push_link(
            alloc, volume, dir, kind, expression, *id, left, places, rows,
        )?;
    }
    Ok(())
}

/// The first entries of a directory that are still to come and match, by where they stand, and their rows: as many as
/// fill the room. `NoMemory` where there is none for them.
pub(crate) fn places_left(
    alloc: Global,
    volume: &Volume,
    dir: u64,
    kind: DirKind,
    expression: &Expression,
    cursor: &Cursor,
    room: u32,
) -> Result<(Vec<Place>, Vec<DirRow>), NoMemory>
    ensures fills { IfOk result (λ made. Fills (pack_kind kind) room (map (place_entry volume.now.content dir) made.0.items) (left_to_list volume.now.content dir expression.now (cursor_of cursor.now))) }
    ensures rows { IfOk result (λ made. map (packed (pack_kind kind)) made.1.items ≡ map (packed (pack_kind kind)) (entry_rows volume.now.content (map (place_entry volume.now.content dir) made.0.items))) }
{
    let mut places = dots_left(alloc, volume, dir, expression, cursor)?;
    let mut rows = entry_rows(alloc, volume, dir, kind, &places)?;
    let links = links_left(volume, dir, expression, cursor);
    push_links(
        alloc,
        volume,
        dir,
        kind,
        expression,
        links,
        room,
        &mut places,
        &mut rows,
    )?;
    Ok((places, rows))
}
