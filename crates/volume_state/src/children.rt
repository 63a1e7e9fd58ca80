//! The links of a directory in the order of their names.

ghost use Rattle.std.specs.Prelude.{◌≡◌, filter, option_map};
ghost use Rattle.std.specs.Option.{option_copied};
ghost use Rattle.fsa_model.specs.Lookups.{link_of_file};
ghost use Rattle.fsa_model.specs.QueryDir.{listed_links};
ghost use Rattle.volume_rows.specs.Children.{is_name_after};
ghost use Rattle.link_index.specs.Beginnings.{begins_with};
ghost use Rattle.volume_state.specs.Children.{children_after, is_unmarked, links_under};

use crate::volume::Volume;
use volume_rows::LinkRow;

impl Volume {
    /// The first link of a file; a directory has one, and the root has none.
    pub fn link_of(&self, file: u64) -> Option<&LinkRow>
        ensures { option_copied result ≡ option_map (λ entry. entry.1) (link_of_file self.now.content.links file) }
    {
        self.links.by_file().first_of(file)
    }

    /// The numbers of the links of a directory, marked or not, whose names are greater than this one and begin with
    /// these units, in the order of their names; without a name to be behind, of all that begin so. Names and units
    /// compare upcased. The empty name is below all others, and each name begins with no units.
    pub fn children_after(&self, dir: u64, after: Option<&[u16]>, units: &[u16]) -> &[u64]
        ensures links { links_under self.now.content result.now ≡ filter (λ entry. begins_with self.now.content.table units.now entry.1.name) (children_after self.now.content dir (option_copied after.entry)) }

        // Those that aren't marked are those that are listed behind the name and begin so.
        ensures listed { filter is_unmarked (links_under self.now.content result.now) ≡ filter (λ entry. begins_with self.now.content.table units.now entry.1.name) (filter (λ entry. is_name_after self.now.content.table (option_copied after.entry) entry.1.name) (listed_links self.now.content dir)) }
    {
        self.links.children_beginning(dir, after, units)
    }
}
