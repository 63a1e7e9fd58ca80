//! How calls ended, in order, found by their clients and numbers.

ghost use Rattle.std.specs.Prelude.{List, ℕ, ◌≡◌, ◌≤◌, ◌+◌, ◌++◌, ◌∷◌, [], find, length, option_and_then, slice_get, Some, IfOk, OnOk, if◌then◌else◌};
ghost use Rattle.std.specs.Option.{option_copied};
ghost use Rattle.fsa_types.specs.declared.reply.EndOf.{EndOf};
ghost use Rattle.fsa_model.specs.Once.{is_end};
ghost use Rattle.volume_breaks.specs.Ends.{AreEndsFound};

use fsa_types::{EndOf, NoMemory};
use object_tables::Series;
use pending_queue::{end_of, set_head, slot_of};
use std::alloc::Global;
use std::marker::Model;

/// How calls ended, in the order in which they did, with spare room. The end of a call is looked for among those
/// that have the slot of its number; there are half as many slots as there is room for ends.
pub struct EndTable {
    ends: Series<EndOf>,
    // For each end one more than the place of the last one before it that has the slot of its number; 0 where there
    // is none.
    links: Series<usize>,
    // For each slot one more than the place of the last end that has it; 0 where none does.
    heads: Vec<usize>,
    // For how many more ends there is room.
    room: usize,
}

// One drop of the whole, so that it is one step at each end of a function that holds one.
impl Drop for EndTable {
    fn drop(self) {
        let EndTable {
            ends: _,
            links: _,
            heads: _,
            room: _,
        } = self;
    }
}

impl Model for EndTable {
    ghost use Rattle.std.specs.Prelude.{◌≤◌};
    ghost use Rattle.fsa_types.specs.declared.reply.EndOf.{EndOf};
    ghost use Rattle.object_tables.specs.Series.{Items};
    ghost use Rattle.volume_breaks.specs.Ends.{AreEndsFound};

    ghost Value = { Items EndOf };

    ghost view = { λ t. record { items = t.ends.items; room = t.room } };

    ghost invariant = { λ t. AreEndsFound t.heads.items t.links.items t.ends.items × t.room ≤ t.ends.room × t.room ≤ t.links.room };
}

impl EndTable {
    /// No ends, and no room. It takes no memory.
    pub fn new(alloc: Global) -> EndTable
        ensures { result.items ≡ [] }
    {
        EndTable {
            ends: Series::new(alloc),
            links: Series::new(alloc),
            heads: Vec::new(alloc),
            room: 0,
        }
    }

    /// Takes room for `more` ends beside those that are there, or for as many more as there are ends and room already
    /// where these are more, so that room is seldom taken. `NoMemory` where there is none.
    pub fn reserve(&mut self, more: usize) -> Result<(), NoMemory>
        ensures items { self.new.items ≡ self.old.items }
        ensures room { OnOk result (more ≤ self.new.room) }
        ensures kept { self.old.room ≤ self.new.room }
    {
        if more <= self.room {
            return Ok(());
        }
        let room = room_of(more, self.ends.len().saturating_add(self.room));
        self.ends.reserve(room)?;
        let alloc = *self.heads.allocator();
        let (heads, links) = linked(alloc, self.ends.as_slice(), room)?;
        self.heads = heads;
        self.links = links;
        self.room = room;
        Ok(())
    }

    /// All ends in order.
    pub fn as_slice(&self) -> &[EndOf]
        ensures { result.now ≡ self.now.items }
    {
        self.ends.as_slice()
    }

    /// Puts an end behind all others. There has to be room for it. It takes no memory.
    pub fn push(&mut self, end: EndOf)
        requires { 1 ≤ self.old.room }
        ensures items { self.new.items ≡ self.old.items ++ end ∷ [] }
        ensures left { self.old.room ≤ self.new.room + 1 }
    {
        link(&mut self.heads, &mut self.links, end.number);
        self.ends.push(end);
        self.room -= 1;
    }

    /// The first end of the client's call of this number; `None` exactly where there is none. Only the ends that
    /// have the slot of this number are looked at.
    pub fn first_of(&self, client: u32, number: u32) -> Option<&EndOf>
        ensures { option_copied result ≡ find (is_end client number) self.now.items }
    {
        first_end(
            self.ends.as_slice(),
            &self.heads,
            self.links.as_slice(),
            client,
            number,
        )
    }
}

// Room for no less than `least`, and for as many as there are ends and room.
fn room_of(least: usize, there: usize) -> usize
    ensures { least ≤ result }
{
    least.max(there).max(16)
}

// The heads and the links of these ends, with room for so many more links.
fn linked(
    alloc: Global,
    ends: &[EndOf],
    room: usize,
) -> Result<(Vec<usize>, Series<usize>), NoMemory>
    ensures found { IfOk result (λ made. AreEndsFound made.0.items made.1.items ends.now) }
    ensures room { IfOk result (λ made. room ≤ made.1.room) }
{
    let Some(all) = room.checked_add(ends.len()) else {
        return Err(NoMemory);
    };
    let mut heads = vec![in alloc; 0; all / 2]?;
    let mut links = Series::new(alloc);
    links.reserve(all)?;
    link_all(&mut heads, &mut links, ends);
    Ok((heads, links))
}

// Links all of these ends, where none was linked.
fn link_all(heads: &mut Vec<usize>, links: &mut Series<usize>, ends: &[EndOf])
    requires none { AreEndsFound heads.old.items links.old.items [] }
    requires room { length ends.now ≤ links.old.room }
    ensures found { AreEndsFound heads.new.items links.new.items ends.now }
    ensures left { links.old.room ≤ links.new.room + length ends.now }
{
    for end in ends {
        link(heads, links, end.number);
    }
}

// Links one more end, of a call of this number, to the last one that has its slot. There has to be room for it.
fn link(heads: &mut Vec<usize>, links: &mut Series<usize>, number: u32)
    requires { 1 ≤ links.old.room }
    ensures found { (ends : List EndOf) (end : EndOf) → end.number ≡ number → AreEndsFound heads.old.items links.old.items ends → AreEndsFound heads.new.items links.new.items (ends ++ end ∷ []) }
    ensures left { links.old.room ≤ links.new.room + 1 }
{
    let own = slot_of(heads.len(), number as u64);
    let end = end_of(heads, own, links.len());
    links.push(end);
    set_head(heads, own, links.len());
}

// Whether this is the end of the client's call of this number.
fn is_end(end: &EndOf, client: u32, number: u32) -> bool
    ensures { result ≡ is_end client number end.now }
{
    end.client == client && end.number == number
}

// The place of an end where it is that of the client's call of this number, and else what was found.
fn found_at(
    found: Option<usize>,
    place: usize,
    end: &EndOf,
    client: u32,
    number: u32,
) -> Option<usize>
    ensures { result ≡ if is_end client number end.now then Some place else found }
{
    if is_end(end, client, number) {
        Some(place)
    } else {
        found
    }
}

// The place of the first end of the client's call of this number: goes from the last one that has its slot to the one
// before it, and so on.
fn first_place(
    ends: &[EndOf],
    heads: &[usize],
    links: &[usize],
    client: u32,
    number: u32,
) -> Option<usize>
    requires { AreEndsFound heads.now links.now ends.now }
    ensures { option_and_then (slice_get ends.now) result ≡ find (is_end client number) ends.now }
{
    let mut found = None;
    let mut end = end_of(heads, slot_of(heads.len(), number as u64), ends.len());
    while end > 0 {
        let place = end - 1;
        found = found_at(found, place, &ends[place], client, number);
        end = links[place];
    }
    found
}

// The first end of the client's call of this number.
fn first_end<'a>(
    ends: &'a [EndOf],
    heads: &[usize],
    links: &[usize],
    client: u32,
    number: u32,
) -> Option<&'a EndOf>
    requires { AreEndsFound heads.now links.now ends.now }
    ensures { option_copied result ≡ find (is_end client number) ends.now }
{
    match first_place(ends, heads, links, client, number) {
        None => None,
        Some(place) => ends.get(place),
    }
}
