//! The room that a note takes.

ghost use Rattle.std.specs.Prelude.{ℕ, ◌≡◌, ◌≤◌, ◌<◌, ◌+◌, ◌-◌, ◌^◌, length, IfSome, IfNone};
ghost use Rattle.fsa_model.specs.Changes.{units_noted, dirs_noted};
ghost use Rattle.volume_rows.specs.Noting.{suffix_of};
ghost use Rattle.volume_state.specs.Paths.{units_above, dirs_above, units_noted_in, dirs_in};

use crate::notes::name_of_stream;
use crate::volume::Volume;
use volume_rows::LinksByFile;

/// The room that a note of one change takes.
#[derive(Clone, Copy)]
pub struct NoteRoom {
    /// UTF-16 units of the path from the root, with its stream part.
    pub units: u64,
    /// Directories from which the change is seen, each ancestor.
    pub dirs: u64,
}

impl Volume {
    /// The room that a note takes of a link, of this stream of its file or else of the file, as things
    /// stand; none for link 0. `None` exactly where the units are 2^64 or more.
    pub fn note_room(&self, link: u64, stream: Option<u64>) -> Option<NoteRoom>
        ensures units { IfSome result (λ room. room.units ≡ units_noted self.now.content link stream) }
        ensures dirs { IfSome result (λ room. room.dirs ≡ dirs_noted self.now.content link stream) }
        ensures few { IfSome result (λ room. room.dirs ≤ 2 ^ 32) }
        ensures none { IfNone result (2 ^ 64 ≤ units_noted self.now.content link stream) }
    {
        let Some(row) = self.links.get(link) else {
            return Some(NoteRoom { units: 0, dirs: 0 });
        };
        let suffix = units_of(name_of_stream(&self.streams, stream));
        let name = row.name.units().len();
        room_above(self.links.by_file(), row.parent, (name + suffix) as u64)
    }

    /// The room that a note takes of a link that is to be made in this directory, as things stand, so
    /// many units being those of its name with its stream part. `None` exactly where all units are
    /// 2^64 or more.
    pub fn note_room_in(&self, parent: u64, units: u64) -> Option<NoteRoom>
        ensures units { IfSome result (λ room. room.units ≡ units_noted_in self.now.content parent units) }
        ensures dirs { IfSome result (λ room. room.dirs ≡ dirs_in self.now.content parent) }
        ensures few { IfSome result (λ room. room.dirs ≤ 2 ^ 32) }
        ensures none { IfNone result (2 ^ 64 ≤ units_noted_in self.now.content parent units) }
    {
        room_above(self.links.by_file(), parent, units)
    }
}

// How many units the suffix of a stream has.
fn units_of(stream: Option<&[u16]>) -> usize
    ensures { result ≡ length (suffix_of stream.entry) }
{
    match stream {
        None => 0,
        Some(units) => units.len() + 1,
    }
}

// The room for a note of so many units in this directory.
fn room_above(links: &LinksByFile, parent: u64, units: u64) -> Option<NoteRoom>
    ensures units { IfSome result (λ room. room.units ≡ units + units_above (length links.now.rows) links.now.rows parent) }
    ensures dirs { IfSome result (λ room. room.dirs ≡ 1 + dirs_above (length links.now.rows) links.now.rows parent) }
    ensures few { IfSome result (λ room. room.dirs ≤ 1 + length links.now.rows) }
    ensures none { IfNone result (2 ^ 64 ≤ units + units_above (length links.now.rows) links.now.rows parent) }
{
    let mut dir = parent;
    let mut more = links.len();
    let mut units = units;
    let mut dirs = 1;
    'up: loop {
        if more == 0 {
            return Some(NoteRoom { units, dirs });
        }
        let Some(link) = links.first_of(dir) else {
            return Some(NoteRoom { units, dirs });
        };
        units = units.checked_add(link.name.units().len() as u64 + 1)?;
        dirs += 1;
        dir = link.parent;
        more -= 1;
    }
}
