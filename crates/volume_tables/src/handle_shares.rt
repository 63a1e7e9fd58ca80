//! What the handles on each stream and by each link do and share.

ghost use Rattle.std.specs.Prelude.{ℕ, ◌≡◌, ◌==◌, ◌≤◌, ◌<◌, ◌+◌, ◌-◌, ◌^◌, ◌++◌, ◌∷◌, ◌&&◌, [], List, Contains, OnOk, Some, false, length, true};
ghost use Rattle.std.specs.Option.{option_map_or};
ghost use Rattle.fsa_types.specs.Rows.{IsNumbered, row_of, without_row};
ghost use Rattle.fsa_types.specs.Sharing.{clash};
ghost use Rattle.fsa_model.specs.Lookups.{has_row, is_open_by, is_open_on};
ghost use Rattle.fsa_model.specs.Volume.{Handle};
ghost use Rattle.volume_tables.specs.HandleShares.{AreFew, AreShared, IsCounted};
ghost use Rattle.volume_tables.specs.ShareTable.{IsAdded, IsTaken, held_in};

use crate::share_table::ShareTable;
use fsa_types::NoMemory;
use std::alloc::Global;
use std::marker::Model;
use volume_rows::HandleRow;

/// The accesses and shares of handles, counted for each stream and for each link, with room for more handles.
pub struct HandleShares {
    streams: ShareTable,
    links: ShareTable,
}

// One drop of the whole, so that it is one step at each end of a function that holds one.
impl Drop for HandleShares {
    fn drop(self) {
        let HandleShares {
            streams: _,
            links: _,
        } = self;
    }
}

impl Model for HandleShares {
    ghost use Rattle.std.specs.Prelude.{min};
    ghost use Rattle.volume_tables.specs.HandleShares.{SharedHandles};

    ghost Value = { SharedHandles };

    ghost view = { λ s. record { streams = s.streams.rows; links = s.links.rows; room = min s.streams.room s.links.room } };
}

impl HandleShares {
    /// No handles and no room. It takes no memory.
    pub fn new(alloc: Global) -> HandleShares
        ensures streams { result.streams ≡ [] }
        ensures links { result.links ≡ [] }
    {
        HandleShares {
            streams: ShareTable::new(alloc),
            links: ShareTable::new(alloc),
        }
    }

    /// Takes room for `more` handles beside those that are there. `NoMemory` where there is none.
    pub fn reserve(&mut self, more: usize) -> Result<(), NoMemory>
        ensures handles { self.new ≡ record self.old { room = self.new.room } }
        ensures room { OnOk result (more ≤ self.new.room) }
        ensures kept { self.old.room ≤ self.new.room }
    {
        self.streams.reserve(more)?;
        self.links.reserve(more)
    }

    /// Counts a handle, on its stream where it has one, and by its link. There has to be room for it, and fewer than
    /// 2^64 - 1 handles on each stream and by each link. It takes no memory.
    pub fn hold(&mut self, row: &HandleRow)
        requires room { 1 ≤ self.old.room }
        requires few { AreFew self.old }
        ensures handles { (rows : List (ℕ × Handle)) (id : ℕ) → AreShared rows self.old → AreShared (rows ++ (id, row.now) ∷ []) self.new }
        ensures left { self.old.room ≤ self.new.room + 1 }
    {
        add_on(&mut self.streams, row.stream, row.access, row.share);
        self.links.add(row.link, row.access, row.share);
    }

    /// Counts a handle no more, which has to be counted. It takes no memory, and leaves the room as it was or larger.
    pub fn release(&mut self, row: &HandleRow)
        requires { IsCounted self.old row.now }
        ensures handles { (rows : List (ℕ × Handle)) (last : ℕ) (id : ℕ) → IsNumbered rows last → row_of rows id ≡ Some row.now → AreShared rows self.old → AreShared (without_row rows id) self.new }
        ensures room { self.old.room ≤ self.new.room }
    {
        remove_on(&mut self.streams, row.stream, row.access, row.share);
        self.links.remove(row.link, row.access, row.share);
    }

    /// Whether an open with these access and share masks clashes with some handle on this stream.
    pub fn clashes_on(&self, stream: u64, access: u32, share: u32) -> bool
        ensures { (rows : List (ℕ × Handle)) → AreShared rows self.now → result ≡ has_row (λ handle. is_open_on stream handle && clash access share handle.access handle.share) rows }
    {
        self.streams.clashes(stream, access, share)
    }

    /// Whether an open with these access and share masks clashes with some handle that was opened by this link.
    pub fn clashes_by(&self, link: u64, access: u32, share: u32) -> bool
        ensures { (rows : List (ℕ × Handle)) → AreShared rows self.now → result ≡ has_row (λ handle. is_open_by link handle && clash access share handle.access handle.share) rows }
    {
        self.links.clashes(link, access, share)
    }
}

// Adds an open under a stream, where there is one.
fn add_on(shares: &mut ShareTable, stream: Option<u64>, access: u32, share: u32)
    requires room { 1 ≤ shares.old.room }
    requires few { (key : ℕ) → length (held_in shares.old.rows key) < 2 ^ 64 - 1 }
    ensures added { IsAdded (λ key. option_map_or (λ own. own == key) stream false) shares.old.rows shares.new.rows (access, share) }
    ensures left { shares.old.room ≤ shares.new.room + 1 }
{
    match stream {
        None => {}
        Some(own) => shares.add(own, access, share),
    }
}

// Takes an open out from under a stream, where there is one.
fn remove_on(shares: &mut ShareTable, stream: Option<u64>, access: u32, share: u32)
    requires { (key : ℕ) → option_map_or (λ own. own == key) stream false ≡ true → Contains (held_in shares.old.rows key) (access, share) }
    ensures taken { IsTaken (λ key. option_map_or (λ own. own == key) stream false) shares.old.rows shares.new.rows (access, share) }
    ensures room { shares.old.room ≤ shares.new.room }
{
    match stream {
        None => {}
        Some(own) => shares.remove(own, access, share),
    }
}
