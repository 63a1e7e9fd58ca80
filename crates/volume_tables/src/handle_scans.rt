//! What is asked of handles: of those that an index names, or of all.

ghost use Rattle.std.specs.Prelude.{◌≡◌, ◌==◌, ◌&&◌, Some, false, filter, find, if◌then◌else◌, length, not, option_map, slice_get};
ghost use Rattle.std.specs.List.{list_any};
ghost use Rattle.std.specs.Option.{option_map_or};
ghost use Rattle.fsa_types.specs.Oplocks.{is_same_key};
ghost use Rattle.fsa_types.specs.Rows.{row_of};
ghost use Rattle.fsa_types.specs.Sharing.{clash};
ghost use Rattle.fsa_model.specs.Lookups.{has_row, is_one_of, is_open_on};
ghost use Rattle.key_index.specs.RowsByKey.{row_passes};

use fsa_types::HandleSet;
use object_tables::Table;
use volume_rows::{HandleRow, LinksByFile, is_clashing, is_one_of, is_same_key};

// Whether the handle of this number is there, and of the set.
fn is_one_at(table: &Table<HandleRow>, id: u64, links: &LinksByFile, on: HandleSet) -> bool
    ensures { result ≡ option_map_or (λ row. is_one_of links.now.rows on row) (row_of table.now.rows id) false }
{
    match table.get(id) {
        None => false,
        Some(row) => is_one_of(links, on, row),
    }
}

// Whether there is a handle at this place, and it is of the set.
fn is_one_in(table: &Table<HandleRow>, place: usize, links: &LinksByFile, on: HandleSet) -> bool
    ensures { result ≡ option_map_or (λ entry. is_one_of links.now.rows on entry.1) (slice_get table.now.rows place) false }
{
    match table.entry_at(place) {
        None => false,
        Some((_, row)) => is_one_of(links, on, row),
    }
}

// 1 where there is a handle at this place and it is of the set, and else 0.
fn one_in(table: &Table<HandleRow>, place: usize, links: &LinksByFile, on: HandleSet) -> usize
    ensures { result ≡ if option_map_or (λ entry. is_one_of links.now.rows on entry.1) (slice_get table.now.rows place) false then 1 else 0 }
{
    if is_one_in(table, place, links, on) {
        1
    } else {
        0
    }
}

/// How many of these handles are of the set.
pub fn count_among(
    table: &Table<HandleRow>,
    entries: &[(u64, u64)],
    links: &LinksByFile,
    on: HandleSet,
) -> usize
    ensures { result ≡ length (filter (row_passes table.now.rows (λ entry. is_one_of links.now.rows on entry.1)) entries.now) }
{
    entries
        .iter()
        .filter(|entry| is_one_at(table, entry.1, links, on))
        .count()
}

/// How many handles are of the set. It looks at all of them.
pub fn count_all(table: &Table<HandleRow>, links: &LinksByFile, on: HandleSet) -> usize
    ensures { result ≡ length (filter (λ entry. is_one_of links.now.rows on entry.1) table.now.rows) }
{
    let mut count = 0;
    for place in 0..table.len() {
        count += one_in(table, place, links, on);
    }
    count
}

// Whether there is a handle at this place, it is of the set, and clashes.
fn clashes_in(
    table: &Table<HandleRow>,
    place: usize,
    links: &LinksByFile,
    on: HandleSet,
    access: u32,
    share: u32,
) -> bool
    ensures { result ≡ option_map_or (λ entry. is_one_of links.now.rows on entry.1 && clash access share entry.1.access entry.1.share) (slice_get table.now.rows place) false }
{
    match table.entry_at(place) {
        None => false,
        Some((_, row)) => is_clashing(links, on, access, share, row),
    }
}

/// Whether some handle is of the set and clashes. It looks at all of them.
pub fn some_clash(
    table: &Table<HandleRow>,
    links: &LinksByFile,
    on: HandleSet,
    access: u32,
    share: u32,
) -> bool
    ensures { result ≡ has_row (λ handle. is_one_of links.now.rows on handle && clash access share handle.access handle.share) table.now.rows }
{
    for place in 0..table.len() {
        if clashes_in(table, place, links, on, access, share) {
            return true;
        }
    }
    false
}

// Whether the handle of this number is there, open on the stream, and has another key than that handle.
fn is_other_at(table: &Table<HandleRow>, id: u64, handle: u64, key: u64, stream: u64) -> bool
    ensures { result ≡ option_map_or (λ row. is_open_on stream row && not (is_same_key id row.key (Some handle) key)) (row_of table.now.rows id) false }
{
    match table.get(id) {
        None => false,
        Some(row) => { row.stream == Some(stream) && !is_same_key(id, row.key, Some(handle), key) }
    }
}

/// Whether some of these handles is open on the stream, and has another key than that handle.
pub fn some_other_among(
    table: &Table<HandleRow>,
    entries: &[(u64, u64)],
    handle: u64,
    key: u64,
    stream: u64,
) -> bool
    ensures { result ≡ list_any (row_passes table.now.rows (λ entry. is_open_on stream entry.1 && not (is_same_key entry.0 entry.1.key (Some handle) key))) entries.now }
{
    entries
        .iter()
        .any(|entry| is_other_at(table, entry.1, handle, key, stream))
}
