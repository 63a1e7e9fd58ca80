//! Changes that are noted.

ghost use Rattle.std.specs.Prelude.{ℕ, ◌≡◌, ◌≤◌, ◌+◌};
ghost use Rattle.fsa_model.specs.Changes.{with_change_noted, units_noted, dirs_noted, stream_suffix};
ghost use Rattle.volume_rows.specs.Noting.{suffix_of};
ghost use Rattle.volume_rows.specs.Streams.{streams_in};

use crate::volume::Volume;
use crate::watches::pass_change;
use volume_tables::StreamTable;

impl Volume {
    /// Notes a change of a link, of this stream of its file or else of the file, with this action and
    /// these filter bits, for every ancestor directory with the relative name at this moment. Of link
    /// 0 it notes nothing. Room has to be reserved for a change, the units of the link's path from the
    /// root with its stream part, and a directory for each ancestor.
    pub fn note(&mut self, link: u64, action: u32, bits: u32, stream: Option<u64>)
        requires changes { 1 ≤ self.old.spare.changes }
        requires units { units_noted self.old.content link stream ≤ self.old.spare.units }
        requires dirs { dirs_noted self.old.content link stream ≤ self.old.spare.dirs }
        ensures content { self.new.content ≡ with_change_noted self.old.content link action bits stream }
        ensures rest { self.new.content ≡ record self.old.content { changes = self.new.content.changes } }
        ensures beside { self.new.beside ≡ self.old.beside }
        ensures others { self.new.spare ≡ record self.old.spare { changes = self.new.spare.changes; units = self.new.spare.units; dirs = self.new.spare.dirs } }
        ensures left { self.old.spare.changes ≤ self.new.spare.changes + 1 }
        ensures units_left { self.old.spare.units ≤ self.new.spare.units + units_noted self.old.content link stream }
        ensures dirs_left { self.old.spare.dirs ≤ self.new.spare.dirs + dirs_noted self.old.content link stream }
    {
        let Some(row) = self.links.get(link) else {
            return;
        };
        let links = self.links.by_file();
        let suffix = name_of_stream(&self.streams, stream);
        let name = row.name.units();
        self.changes
            .note(links, row.parent, name, suffix, action, bits);
        pass_change(&mut self.watches, self.changes.log(), &self.pending);
    }
}

// The name of a stream, where one is asked for and there.
pub(crate) fn name_of_stream(streams: &StreamTable, stream: Option<u64>) -> Option<&[u16]>
    ensures { suffix_of result ≡ stream_suffix (streams_in streams.now.rows) stream }
{
    match stream {
        None => None,
        Some(id) => match streams.get(id) {
            None => None,
            Some(row) => Some(row.name()),
        },
    }
}
