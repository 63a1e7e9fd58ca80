//! Which handles a call opened, and which are open on a stream or by a link.

ghost use Rattle.std.specs.Prelude.{ℕ, ◌≡◌, ◌≤◌, ◌+◌, ◌++◌, ◌∷◌, [], List, OnOk, Some};
ghost use Rattle.fsa_types.specs.Rows.{row_of, without_row, IsNumbered};
ghost use Rattle.fsa_model.specs.Lookups.{is_opened_by, number_of};
ghost use Rattle.fsa_model.specs.Volume.{Handle};
ghost use Rattle.key_index.specs.Index.{entries_under};
ghost use Rattle.volume_tables.specs.HandleIndex.{AreIndexed, FitsKey, opening_key, stream_key};
ghost use Rattle.volume_tables.specs.HandleTable.{next_of};

use crate::call_key::call_key_of;
use fsa_types::NoMemory;
use key_index::KeyIndex;
use std::alloc::Global;
use std::marker::Model;
use volume_rows::HandleRow;

/// The numbers of handles, each under the client and number of the call that opened it, under its stream and under
/// its link, with room for more of them.
pub struct HandleIndex {
    calls: KeyIndex,
    streams: KeyIndex,
    links: KeyIndex,
    // How many more handles were promised.
    room: usize,
}

// One drop of the whole, so that it is one step at each end of a function that holds one.
impl Drop for HandleIndex {
    fn drop(self) {
        let HandleIndex {
            calls: _,
            streams: _,
            links: _,
            room: _,
        } = self;
    }
}

impl Model for HandleIndex {
    ghost use Rattle.std.specs.Prelude.{◌≤◌};
    ghost use Rattle.volume_tables.specs.HandleIndex.{IndexedHandles};

    ghost Value = { IndexedHandles };

    ghost view = { λ i. record { calls = i.calls.entries; streams = i.streams.entries; links = i.links.entries; room = i.room } };

    ghost invariant = { λ i. i.room ≤ i.calls.room × i.room ≤ i.streams.room × i.room ≤ i.links.room };
}

impl HandleIndex {
    /// An index without handles and without room. It takes no memory.
    pub fn new(alloc: Global) -> HandleIndex
        ensures { result ≡ record { calls = []; streams = []; links = []; room = 0 } }
    {
        HandleIndex {
            calls: KeyIndex::new(alloc),
            streams: KeyIndex::new(alloc),
            links: KeyIndex::new(alloc),
            room: 0,
        }
    }

    /// Takes room for `more` handles beside those that are there. `NoMemory` where there is none.
    pub fn reserve(&mut self, more: usize) -> Result<(), NoMemory>
        ensures handles { self.new ≡ record self.old { room = self.new.room } }
        ensures room { OnOk result (more ≤ self.new.room) }
        ensures kept { self.old.room ≤ self.new.room }
        ensures no_more { (bound : ℕ) → self.old.room ≤ bound → more ≤ bound → self.new.room ≤ bound }
    {
        if more <= self.room {
            return Ok(());
        }
        self.calls.reserve(more)?;
        self.streams.reserve(more)?;
        self.links.reserve(more)?;
        self.room = more;
        Ok(())
    }

    /// Puts a handle behind all others. There has to be room for it. It takes no memory.
    pub fn add(&mut self, id: u64, row: &HandleRow)
        requires { 1 ≤ self.old.room }
        ensures handles { (rows : List (ℕ × Handle)) → AreIndexed rows self.old → AreIndexed (rows ++ (id, row.now) ∷ []) self.new }
        ensures left { self.old.room ≡ self.new.room + 1 }
    {
        self.calls.add(opening_key(row), id);
        self.streams.add(stream_key(row), id);
        self.links.add(row.link, id);
        self.room -= 1;
    }

    /// Takes a handle out. It takes no memory, and leaves the room as it was.
    pub fn remove(&mut self, id: u64, row: &HandleRow)
        ensures handles { (rows : List (ℕ × Handle)) (last : ℕ) → IsNumbered rows last → row_of rows id ≡ Some row.now → AreIndexed rows self.old → AreIndexed (without_row rows id) self.new }
        ensures room { self.new.room ≡ self.old.room }
    {
        self.calls.remove(opening_key(row), id);
        self.streams.remove(stream_key(row), id);
        self.links.remove(row.link, id);
    }

    /// The handle that this call of this client opened; `None` exactly where there is none.
    pub fn opened_by(&self, client: u32, number: u32) -> Option<u64>
        ensures { (rows : List (ℕ × Handle)) → AreIndexed rows self.now → result ≡ number_of (is_opened_by client number) rows }
    {
        match self.calls.of(call_key_of(client, number)).first() {
            None => None,
            Some(entry) => Some(entry.1),
        }
    }

    /// That client's handle of the least number of a call above `after`; `None` exactly where there is none.
    pub fn next_of(&self, client: u32, after: u32) -> Option<u64>
        ensures { (rows : List (ℕ × Handle)) → AreIndexed rows self.now → result ≡ next_of rows client after }
    {
        match self.calls.after(call_key_of(client, after)) {
            None => None,
            Some((key, id)) => {
                if key <= call_key_of(client, u32::MAX) {
                    Some(id)
                } else {
                    None
                }
            }
        }
    }

    /// The handles on this stream, each with its number as the second; under 0 those without a stream too.
    pub fn on_stream(&self, stream: u64) -> &[(u64, u64)]
        ensures { result.now ≡ entries_under self.now.streams stream }
    {
        self.streams.of(stream)
    }

    /// The handles that were opened by this link, each with its number as the second.
    pub fn by_link(&self, link: u64) -> &[(u64, u64)]
        ensures { result.now ≡ entries_under self.now.links link }
    {
        self.links.of(link)
    }
}

// The client and the number of the call that opened a handle, as one number.
fn opening_key(row: &HandleRow) -> u64
    ensures key { result ≡ opening_key row.now }
    ensures fits { FitsKey row.now }
{
    call_key_of(row.client, row.number)
}

// The stream of a handle; 0 where it has none.
fn stream_key(row: &HandleRow) -> u64
    ensures { result ≡ stream_key row.now }
{
    row.stream.unwrap_or(0)
}
