//! Where the entries of a key stand among entries in the order of keys.

ghost use Rattle.std.specs.Prelude.{ℕ, ◌≡◌, ◌≤◌, ◌<◌, ◌+◌, ◌-◌, ◌++◌, true, false, not, All, drop, filter, length, option_map, position, slice_get, slice_index_or, take};
ghost use Rattle.std.specs.List.Sorted.{IsNonDecreasingBy, IsPartitionPoint};
ghost use Rattle.key_index.specs.Index.{AreNumbersRising, entries_under, has_key, is_entry};

/// Where the entries of lower keys end.
pub(crate) fn begin_of(entries: &[(u64, u64)], key: u64) -> usize
    requires rising { IsNonDecreasingBy (λ e. e.0) entries.now }
    ensures bound { result ≤ length entries.now }
    ensures point { IsPartitionPoint (λ e. e.0 < key) (λ e. key ≤ e.0) entries.now result }
{
    let place = begin_before_last(entries, key);
    if is_begin_at(entries, place, key) {
        return place;
    }
    let place = begin_behind_first(entries, key);
    if is_begin_at(entries, place, key) {
        return place;
    }
    entries.partition_point(|entry| entry.0 < key)
}

// Where the entries of lower keys end, if each number from this one up to the last entry's key is a key with one entry.
fn begin_before_last(entries: &[(u64, u64)], key: u64) -> usize
    ensures { result ≤ length entries.now }
{
    let Some(last) = entries.last() else {
        return 0;
    };
    if last.0 < key {
        return entries.len();
    }
    (entries.len() as u64 - 1).saturating_sub(last.0 - key) as usize
}

// Where the entries of lower keys end, if each number from the first entry's key up to this one is a key with one
// entry.
fn begin_behind_first(entries: &[(u64, u64)], key: u64) -> usize
    ensures { result ≤ length entries.now }
{
    let Some(first) = entries.first() else {
        return 0;
    };
    (entries.len() as u64).min(key.saturating_sub(first.0)) as usize
}

// Whether the entries of lower keys are known to end at a place.
fn is_begin_at(entries: &[(u64, u64)], place: usize, key: u64) -> bool
    requires rising { IsNonDecreasingBy (λ e. e.0) entries.now }
    requires bound { place ≤ length entries.now }
    ensures { result ≡ true → IsPartitionPoint (λ e. e.0 < key) (λ e. key ≤ e.0) entries.now place }
{
    is_lower_before(entries, place, key) && is_no_lower_at(entries, place, key)
}

// Whether the entry before a place, where there is one, has a lower key.
fn is_lower_before(entries: &[(u64, u64)], place: usize, key: u64) -> bool
    requires { place ≤ length entries.now }
    ensures { result ≡ true → 0 < place → (d : ℕ × ℕ) → (slice_index_or entries.now (place - 1) d).0 < key }
{
    if place == 0 {
        return true;
    }
    entries[place - 1].0 < key
}

// Whether the entry at a place, where there is one, has no lower key.
fn is_no_lower_at(entries: &[(u64, u64)], place: usize, key: u64) -> bool
    ensures { result ≡ true → place < length entries.now → (d : ℕ × ℕ) → key ≤ (slice_index_or entries.now place d).0 }
{
    if place < entries.len() {
        key <= entries[place].0
    } else {
        true
    }
}

/// Where the entries of keys up to this one end.
pub(crate) fn end_of(entries: &[(u64, u64)], key: u64) -> usize
    requires rising { IsNonDecreasingBy (λ e. e.0) entries.now }
    ensures bound { result ≤ length entries.now }
    ensures point { IsPartitionPoint (λ e. e.0 ≤ key) (λ e. key < e.0) entries.now result }
{
    entries.partition_point(|entry| entry.0 <= key)
}

// Where the entries of keys up to this one end, looked for from the first on by steps that double, since a key has few.
fn near_end_of(entries: &[(u64, u64)], key: u64) -> usize
    requires rising { IsNonDecreasingBy (λ e. e.0) entries.now }
    ensures bound { result ≤ length entries.now }
    ensures point { IsPartitionPoint (λ e. e.0 ≤ key) (λ e. key < e.0) entries.now result }
{
    let (near, _) = entries.split_at(reach_of(entries, key));
    end_of(near, key)
}

// A place behind which no entry has a key up to this one.
fn reach_of(entries: &[(u64, u64)], key: u64) -> usize
    ensures bound { result ≤ length entries.now }
    ensures behind { result < length entries.now → (d : ℕ × ℕ) → key < (slice_index_or entries.now result d).0 }
{
    let mut reach = 1;
    'far: while is_up_to_at(entries, reach, key) {
        reach = reach.saturating_mul(2);
    }
    reach.min(entries.len())
}

// Whether there is an entry at a place, and it has this key or a lower one.
fn is_up_to_at(entries: &[(u64, u64)], place: usize, key: u64) -> bool
    ensures there { result ≡ true → place < length entries.now }
    ensures above { result ≡ false → place < length entries.now → (d : ℕ × ℕ) → key < (slice_index_or entries.now place d).0 }
{
    if place < entries.len() {
        entries[place].0 <= key
    } else {
        false
    }
}

/// Where the entries of a key begin, and these. A place among them is one behind the beginning.
pub(crate) fn part_at(entries: &[(u64, u64)], key: u64) -> (usize, &[(u64, u64)])
    requires rising { IsNonDecreasingBy (λ e. e.0) entries.now }
    ensures bound { result.0 + length result.1.now ≤ length entries.now }
    ensures part { result.1.now ≡ entries_under entries.now key }
    ensures places { (number : ℕ) → option_map (λ place. result.0 + place) (position (is_entry key number) result.1.now) ≡ position (is_entry key number) entries.now }
    ensures end { IsPartitionPoint (λ e. e.0 ≤ key) (λ e. key < e.0) entries.now (result.0 + length result.1.now) }
    ensures others { take result.0 entries.now ++ drop (result.0 + length result.1.now) entries.now ≡ filter (λ e. not (has_key key e)) entries.now }
{
    let begin = begin_of(entries, key);
    let (_, from) = entries.split_at(begin);
    let (part, _) = from.split_at(near_end_of(from, key));
    (begin, part)
}

/// The entries of a key.
pub(crate) fn part_of(entries: &[(u64, u64)], key: u64) -> &[(u64, u64)]
    requires rising { IsNonDecreasingBy (λ e. e.0) entries.now }
    ensures { result.now ≡ entries_under entries.now key }
{
    let (_, part) = part_at(entries, key);
    part
}

/// The number of the first entry of a key.
pub(crate) fn first_number(entries: &[(u64, u64)], key: u64) -> Option<u64>
    requires rising { IsNonDecreasingBy (λ e. e.0) entries.now }
    ensures { result ≡ option_map (λ e. e.1) (slice_get (entries_under entries.now key) 0) }
{
    match entries.get(begin_of(entries, key)) {
        None => None,
        Some(entry) => { if entry.0 == key { Some(entry.1) } else { None } }
    }
}

/// Whether numbers rose so far, and this one is no less than the last one of these.
pub(crate) fn stays_rising(part: &[(u64, u64)], number: u64, rising: bool) -> bool
    ensures before { result ≡ true → rising ≡ true }
    ensures behind { result ≡ true → (d : ℕ × ℕ) → 0 < length part.now → (slice_index_or part.now (length part.now - 1) d).1 ≤ number }
{
    rising && is_behind(part, number)
}

// Whether a number is no less than the last one of these.
fn is_behind(part: &[(u64, u64)], number: u64) -> bool
    ensures { result ≡ true → (d : ℕ × ℕ) → 0 < length part.now → (slice_index_or part.now (length part.now - 1) d).1 ≤ number }
{
    if part.is_empty() {
        return true;
    }
    part[part.len() - 1].1 <= number
}

/// The place of an entry, the first where there are several. Where the numbers of each key are known to rise it is
/// found by halves.
pub(crate) fn place_of(entries: &[(u64, u64)], key: u64, number: u64, rising: bool) -> Option<usize>
    requires keys { IsNonDecreasingBy (λ e. e.0) entries.now }
    requires numbers { rising ≡ true → AreNumbersRising entries.now }
    ensures { result ≡ position (is_entry key number) entries.now }
{
    let (begin, part) = part_at(entries, key);
    match place_in(part, key, number, rising) {
        Some(place) => Some(begin + place),
        None => None,
    }
}

// The place of an entry among those of its key.
fn place_in(part: &[(u64, u64)], key: u64, number: u64, rising: bool) -> Option<usize>
    requires keys { All (λ e. e.0 ≡ key) part.now }
    requires numbers { rising ≡ true → IsNonDecreasingBy (λ e. e.1) part.now }
    ensures { result ≡ position (is_entry key number) part.now }
{
    if rising {
        place_by_halves(part, key, number)
    } else {
        first_of(part, key, number)
    }
}

// Where the lesser numbers of a key end.
fn begin_of_number(part: &[(u64, u64)], number: u64) -> usize
    requires rising { IsNonDecreasingBy (λ e. e.1) part.now }
    ensures bound { result ≤ length part.now }
    ensures point { IsPartitionPoint (λ e. e.1 < number) (λ e. number ≤ e.1) part.now result }
{
    part.partition_point(|entry| entry.1 < number)
}

// The place of an entry among those of its key, whose numbers rise.
fn place_by_halves(part: &[(u64, u64)], key: u64, number: u64) -> Option<usize>
    requires keys { All (λ e. e.0 ≡ key) part.now }
    requires rising { IsNonDecreasingBy (λ e. e.1) part.now }
    ensures { result ≡ position (is_entry key number) part.now }
{
    let place = begin_of_number(part, number);
    if has_number_at(part, place, number) {
        Some(place)
    } else {
        None
    }
}

// Whether the entry at a place has this number.
fn has_number_at(part: &[(u64, u64)], place: usize, number: u64) -> bool
    ensures there { result ≡ true → place < length part.now × ((d : ℕ × ℕ) → (slice_index_or part.now place d).1 ≡ number) }
    ensures other { result ≡ false → place < length part.now → (d : ℕ × ℕ) → (slice_index_or part.now place d).1 ≡ number → ⊥ }
{
    if place < part.len() {
        part[place].1 == number
    } else {
        false
    }
}

// The place of an entry, the first where there are several, by a look at each.
fn first_of(entries: &[(u64, u64)], key: u64, number: u64) -> Option<usize>
    ensures { result ≡ position (is_entry key number) entries.now }
{
    entries
        .iter()
        .position(|entry| entry.0 == key && entry.1 == number)
}
