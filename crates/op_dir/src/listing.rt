//! As many entries as fit into the room.

ghost use Rattle.std.specs.Prelude.{◌≡◌, ◌≤◌, IfOk, map};
ghost use Rattle.fsa_types.specs.PackedRows.{pack_kind};
ghost use Rattle.fsa_types.specs.Packing.{head_size, packed};
ghost use Rattle.fsa_model.specs.QueryDir.{entry_rows, left_to_list};
ghost use Rattle.fsa_model.specs.Volume.{Cursor as Stand};
ghost use Rattle.op_dir.specs.Listing.{Lists};
ghost use Rattle.op_dir.specs.Places.{place_entry};
ghost use Rattle.volume_rows.specs.Cursors.{cursor_of};

use crate::places::{Place, places_left};
use crate::rows::cursor_after;
use fsa_types::{Bytes, DirKind, NoMemory};
use name_match::Expression;
use pack_info::{DirRow, pack_entries};
use std::alloc::Global;
use volume_state::{Cursor, Volume};

/// What a query comes to.
#[derive(Drop)]
pub(crate) enum Listing {
    /// Nothing is left.
    NoneLeft,
    /// The first entry doesn't fit.
    NoneFits,
    /// As many as fit, packed, and where the enumeration stands after them.
    Given(Cursor, Bytes),
}

// The entries at these places, of which these are the rows, as many as fit into the room.
fn pack_places(
    alloc: Global,
    volume: &Volume,
    dir: u64,
    kind: DirKind,
    places: &[Place],
    rows: &[DirRow],
    room: u32,
) -> Result<Listing, NoMemory>
    requires rows { map (packed (pack_kind kind)) rows.now ≡ map (packed (pack_kind kind)) (entry_rows volume.now.content (map (place_entry volume.now.content dir) places.now)) }
    ensures { IfOk result (λ listing. (cursor : Stand) → Lists volume.now.content kind cursor (map (place_entry volume.now.content dir) places.now) room listing) }
{
    if places.is_empty() {
        return Ok(Listing::NoneLeft);
    }
    let (bytes, count) = pack_entries(alloc, kind, rows, room)?;
    if count == 0 {
        return Ok(Listing::NoneFits);
    }
    let last = count - 1;
    let after = cursor_after(alloc, volume, dir, places[last])?;
    Ok(Listing::Given(after, bytes))
}

/// The entries of a directory that are still to come behind the cursor and match, as many as fit into the room. There
/// has to be room for what stands before a name. `NoMemory` where there is none for them.
pub(crate) fn list(
    alloc: Global,
    volume: &Volume,
    dir: u64,
    kind: DirKind,
    expression: &Expression,
    cursor: &Cursor,
    room: u32,
) -> Result<Listing, NoMemory>
    requires room { head_size (pack_kind kind) ≤ room }
    ensures { IfOk result (λ listing. Lists volume.now.content kind (cursor_of cursor.now) (left_to_list volume.now.content dir expression.now (cursor_of cursor.now)) room listing) }
{
    let (places, rows) = places_left(alloc, volume, dir, kind, expression, cursor, room)?;
    pack_places(alloc, volume, dir, kind, &places, &rows, room)
}
