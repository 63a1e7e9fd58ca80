//! Where a number stands among others that rise.

ghost use Rattle.std.specs.Prelude.{ℕ, AllPairs, ◌≡◌, ◌≤◌, ◌<◌, ◌-◌, ◌==◌, IfSome, Some, true, length, option_map, position, slice_get, slice_index_or};
ghost use Rattle.std.specs.List.Sorted.{IsPartitionPoint};

/// The place of the row of this number, among rows whose numbers rise.
pub fn place_of<T>(rows: &[(u64, T)], id: u64) -> Option<usize>
    requires rising { AllPairs (λ a b. a.0 < b.0) rows.now }
    ensures { result ≡ position (λ entry. entry.0 == id) rows.now }
{
    if let Some(place) = place_before_last(rows, id) {
        return Some(place);
    }
    if let Some(place) = place_behind_first(rows, id) {
        return Some(place);
    }
    rows.binary_search_by_key(&id, |entry| entry.0).ok()
}

// The place of the row of this number, where each number from it on up to the last row's has a row.
fn place_before_last<T>(rows: &[(u64, T)], id: u64) -> Option<usize>
    requires rising { AllPairs (λ a b. a.0 < b.0) rows.now }
    ensures { IfSome result (λ place. position (λ entry. entry.0 == id) rows.now ≡ Some place) }
{
    let (last, before) = rows.split_last()?;
    let back = last.0.checked_sub(id)?;
    let place = (before.len() as u64).checked_sub(back)? as usize;
    if rows[place].0 == id {
        Some(place)
    } else {
        None
    }
}

// The place of the row of this number, where each number from the first row's up to it has a row.
fn place_behind_first<T>(rows: &[(u64, T)], id: u64) -> Option<usize>
    requires rising { AllPairs (λ a b. a.0 < b.0) rows.now }
    ensures { IfSome result (λ place. position (λ entry. entry.0 == id) rows.now ≡ Some place) }
{
    let (first, _) = rows.split_first()?;
    let place = id.checked_sub(first.0)? as usize;
    if place < rows.len() && rows[place].0 == id {
        Some(place)
    } else {
        None
    }
}

/// Where the rows of numbers up to this one end, among rows whose numbers rise.
pub fn end_of<T>(rows: &[(u64, T)], after: u64) -> usize
    requires rising { AllPairs (λ a b. a.0 < b.0) rows.now }
    ensures bound { result ≤ length rows.now }
    ensures point { IsPartitionPoint (λ e. e.0 ≤ after) (λ e. after < e.0) rows.now result }
{
    let place = end_before_last(rows, after);
    if is_end_at(rows, place, after) {
        return place;
    }
    rows.partition_point(|row| row.0 <= after)
}

// Where the rows of numbers up to this one end, if each number behind it up to the last row's has a row.
fn end_before_last<T>(rows: &[(u64, T)], after: u64) -> usize
    ensures { result ≤ length rows.now }
{
    let Some(last) = rows.last() else {
        return 0;
    };
    let back = last.0.saturating_sub(after);
    (rows.len() as u64).saturating_sub(back) as usize
}

// Whether the rows of numbers up to this one are known to end at a place.
fn is_end_at<T>(rows: &[(u64, T)], place: usize, after: u64) -> bool
    requires rising { AllPairs (λ a b. a.0 < b.0) rows.now }
    requires bound { place ≤ length rows.now }
    ensures { result ≡ true → IsPartitionPoint (λ e. e.0 ≤ after) (λ e. after < e.0) rows.now place }
{
    is_up_to_before(rows, place, after) && is_above_at(rows, place, after)
}

// Whether the row before a place, where there is one, has a number up to this one.
fn is_up_to_before<T>(rows: &[(u64, T)], place: usize, after: u64) -> bool
    requires { place ≤ length rows.now }
    ensures { result ≡ true → 0 < place → (d : ℕ × T) → (slice_index_or rows.now (place - 1) d).0 ≤ after }
{
    if place == 0 {
        return true;
    }
    rows[place - 1].0 <= after
}

// Whether the row at a place, where there is one, has a number above this one.
fn is_above_at<T>(rows: &[(u64, T)], place: usize, after: u64) -> bool
    ensures { result ≡ true → place < length rows.now → (d : ℕ × T) → after < (slice_index_or rows.now place d).0 }
{
    if place < rows.len() {
        after < rows[place].0
    } else {
        true
    }
}

/// The number of the row at this place.
pub fn number_at<T>(rows: &[(u64, T)], place: usize) -> Option<u64>
    ensures { result ≡ option_map (λ row. row.0) (slice_get rows.now place) }
{
    match rows.get(place) {
        None => None,
        Some(row) => Some(row.0),
    }
}
