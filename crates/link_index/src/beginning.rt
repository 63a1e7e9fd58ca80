//! The links whose names begin with given units, among links in the order of names.

ghost use Rattle.std.specs.Prelude.{◌≡◌, ◌≤◌, filter, false, length, map, true};
ghost use Rattle.std.specs.List.Sorted.{IsPartitionPoint};
ghost use Rattle.std.specs.Ordering.{is_ge, is_gt};
ghost use Rattle.link_index.specs.Keyed.{AreInKeyOrder};
ghost use Rattle.link_index.specs.Beginnings.{begins_with, cmp_beginning, name_key};
ghost use Rattle.link_index.specs.Directory.{link_numbered, links_at};

use fsa_types::UpcaseTable;
use object_tables::Table;
use std::cmp::Ordering;
use volume_rows::LinkRow;

/// Of numbers whose links are in the order of names, those of links whose names begin with these units. They stand
/// together.
pub(crate) fn beginning_with<'a>(
    numbers: &'a [u64],
    links: &Table<LinkRow>,
    upcase: &UpcaseTable,
    units: &[u16],
) -> &'a [u64]
    requires { AreInKeyOrder (name_key upcase.now) (links_at links.now.rows numbers.now) }
    ensures { result.now ≡ map (λ entry. entry.0) (filter (λ entry. begins_with upcase.now units.now entry.1.name) (links_at links.now.rows numbers.now)) }
{
    let end = end_place(numbers, links, upcase, units);
    let begin = first_place(numbers, links, upcase, units).min(end);
    &numbers[begin..end]
}

// Where those end whose names begin with less than the units.
fn first_place(
    numbers: &[u64],
    links: &Table<LinkRow>,
    upcase: &UpcaseTable,
    units: &[u16],
) -> usize
    requires { AreInKeyOrder (name_key upcase.now) (links_at links.now.rows numbers.now) }
    ensures bound { result ≤ length numbers.now }
    ensures point { IsPartitionPoint (λ id. is_gt (cmp_beginning upcase.now units.now (link_numbered links.now.rows id).1.name) ≡ true) (λ id. is_gt (cmp_beginning upcase.now units.now (link_numbered links.now.rows id).1.name) ≡ false) numbers.now result }
{
    numbers.partition_point(|id| cmp_number(links, upcase, *id, units).is_gt())
}

// Where those end whose names begin with the units or with less.
fn end_place(numbers: &[u64], links: &Table<LinkRow>, upcase: &UpcaseTable, units: &[u16]) -> usize
    requires { AreInKeyOrder (name_key upcase.now) (links_at links.now.rows numbers.now) }
    ensures bound { result ≤ length numbers.now }
    ensures point { IsPartitionPoint (λ id. is_ge (cmp_beginning upcase.now units.now (link_numbered links.now.rows id).1.name) ≡ true) (λ id. is_ge (cmp_beginning upcase.now units.now (link_numbered links.now.rows id).1.name) ≡ false) numbers.now result }
{
    numbers.partition_point(|id| cmp_number(links, upcase, *id, units).is_ge())
}

// How units compare with the beginning of the name of a number's link.
fn cmp_number(links: &Table<LinkRow>, upcase: &UpcaseTable, id: u64, units: &[u16]) -> Ordering
    ensures { result ≡ cmp_beginning upcase.now units.now (link_numbered links.now.rows id).1.name }
{
    match links.get(id) {
        None => cmp_beginning(upcase, units, &[]),
        Some(row) => cmp_beginning(upcase, units, row.name.units()),
    }
}

// How units compare with the beginning of a name.
fn cmp_beginning(upcase: &UpcaseTable, units: &[u16], name: &[u16]) -> Ordering
    ensures { result ≡ cmp_beginning upcase.now units.now name.now }
{
    let most = units.len().min(name.len());
    upcase.cmp_name(units, &name[..most])
}
