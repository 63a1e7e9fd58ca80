//! Handles of a stream, of a link, or below a directory.

ghost use Rattle.std.specs.Prelude.{ℕ, ◌≡◌, ◌==◌, ◌&&◌, not, nat_lt, length, filter, find, option_map, false, AllPairs, IsTrue, IfSome, IfNone};
ghost use Rattle.std.specs.Option.{option_copied};
ghost use Rattle.fsa_types.specs.Rows.{row_of, lives, IsNumbered};
ghost use Rattle.fsa_types.specs.Sharing.{clash};
ghost use Rattle.fsa_model.specs.Lookups.{handles_on, has_row, is_after, is_below, is_on, is_one_of, is_opened_by, clashes_on, leads_to, next_handle_of};

use crate::volume::Volume;
use fsa_types::HandleSet;

impl Volume {
    /// How many handles of the set there are.
    pub fn handles_on(&self, on: HandleSet) -> u32
        ensures { result ≡ length (handles_on self.now.content on) }
    {
        self.handles.count_on(self.links.by_file(), on) as u32
    }

    /// Whether an open with these access and share masks clashes with some handle of the set.
    pub fn clashes(&self, on: HandleSet, access: u32, share: u32) -> bool
        ensures { result ≡ clashes_on self.now.content on access share }
    {
        self.handles
            .some_clashes(self.links.by_file(), on, access, share)
    }

    /// That client's handle with the least number above `after`; `None` exactly where there is none.
    pub fn next_handle_of(&self, client: u32, after: u32) -> Option<u64>
        ensures found { result ≡ next_handle_of self.now.content client after }
        ensures lives { IfSome result (λ id. IsTrue (lives self.now.content.handles id)) }
        ensures after { IfSome result (λ id. IfSome (row_of self.now.content.handles id) (λ row. IsTrue (is_after client after row))) }
        ensures none { IfNone result (has_row (is_after client after) self.now.content.handles ≡ false) }

        // The numbers of handles rise, so a number has one row.
        ensures numbers { IsNumbered self.now.content.handles self.now.content.last_handle }

        // A client and a number name one handle.
        ensures differ { AllPairs (λ a b. is_opened_by b.1.client b.1.number a.1 ≡ false) self.now.content.handles }
    {
        self.handles.next_of(client, after)
    }
}
