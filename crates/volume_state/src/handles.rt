//! Handles: the opens of clients.

ghost use Rattle.std.specs.Prelude.{ℕ, ◌≡◌, ◌≤◌, ◌<◌, ◌+◌, ◌-◌, ◌^◌, ◌==◌, ◌&&◌, not, IsTrue, IsSome, IfSome, None, is_some, true, option_map, find, length, nat_lt, filter};
ghost use Rattle.std.specs.Option.{option_copied};
ghost use Rattle.fsa_types.specs.Rows.{row_of, lives};
ghost use Rattle.fsa_model.specs.Edits.{with_handle, without_handle};
ghost use Rattle.fsa_model.specs.Lookups.{handle_of, is_opened_by, linked_file, next_handle_of, handles_on};
ghost use Rattle.fsa_model.specs.Sound.{is_of_living, has_its_stream};
ghost use Rattle.volume_state.specs.Living.{CanBeLinked};
ghost use Rattle.volume_state.specs.Room.{IsNoLess};

use crate::volume::Volume;
use crate::watch_row::{WatchRow, is_watch_of};
use object_tables::SpareList;
use volume_breaks::{release_breaks, release_locks};
use volume_rows::HandleRow;

impl Volume {
    /// The handle of this number; `None` exactly where there is none.
    pub fn handle(&self, id: u64) -> Option<&HandleRow>
        ensures row { option_copied result ≡ row_of self.now.content.handles id }
        ensures lives { lives self.now.content.handles id ≡ true → IsSome result }
        ensures living { IfSome result (λ row. IsTrue (is_of_living self.now.content.links self.now.content.streams row.now)) }
        ensures client { IfSome result (λ row. row.now.client < length self.now.content.clients) }
        ensures stream { IfSome result (λ row. IsTrue (has_its_stream self.now.content.files self.now.content.links row.now)) }

        // What has a stream is a file's, of which there can be a further link.
        ensures linked { IfSome result (λ row. is_some row.now.stream ≡ true → CanBeLinked self.now.content (linked_file self.now.content row.now.link)) }
    {
        self.handles.get(id)
    }

    /// The handle that this call of this client opened; `None` exactly where there is none.
    pub fn handle_of(&self, client: u32, number: u32) -> Option<u64>
        ensures found { result ≡ handle_of self.now.content client number }
        ensures lives { IfSome result (λ id. IsTrue (lives self.now.content.handles id)) }
        ensures opened { IfSome result (λ id. IfSome (row_of self.now.content.handles id) (λ row. IsTrue (is_opened_by client number row))) }
    {
        self.handles.opened_by(client, number)
    }

    /// Adds a handle, and gives its number.
    pub fn add_handle(&mut self, row: HandleRow) -> u64
        requires room { 1 ≤ self.old.spare.handles }
        requires ids_left { self.old.content.last_handle + 1 < 2 ^ 32 - 1 }
        requires living { IsTrue (is_of_living self.old.content.links self.old.content.streams row) }
        requires stream { IsTrue (has_its_stream self.old.content.files self.old.content.links row) }
        requires new { handle_of self.old.content row.client row.number ≡ None }
        requires client { row.client < length self.old.content.clients }
        ensures content { self.new.content ≡ with_handle self.old.content row }
        ensures beside { self.new.beside ≡ self.old.beside }
        ensures others { self.new.spare ≡ record self.old.spare { handles = self.new.spare.handles } }
        ensures left { self.old.spare.handles ≤ self.new.spare.handles + 1 }
        ensures id { result ≡ self.old.content.last_handle + 1 }
    {
        self.handles.add(row)
    }

    /// Takes a handle out, with its locks, its oplock and break, and its watch. No call waits for these
    /// any more.
    pub fn drop_handle(&mut self, handle: u64)
        ensures content { self.new.content ≡ without_handle self.old.content handle }
        ensures beside { self.new.beside ≡ self.old.beside }
        ensures room { IsNoLess self.old.spare self.new.spare }
    {
        release_locks(&mut self.pending, self.handles.locks_beside(handle), handle);
        release_breaks(&mut self.pending, self.oplocks.as_slice(), handle);
        self.oplocks.drop_of(&self.handles, handle);
        self.handles.remove(handle);
        drop_watch(&mut self.watches, handle);
    }
}

// Takes the watch of a handle out.
fn drop_watch(watches: &mut SpareList<WatchRow>, handle: u64)
    ensures watches { watches.new.items ≡ filter (λ row. not (row.handle == handle)) watches.old.items }
    ensures room { watches.new.room ≡ watches.old.room }
{
    watches.retain(|row| !is_watch_of(row, handle));
}
