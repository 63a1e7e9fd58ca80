//! The numbers of files, links, streams and handles, one after the other.

ghost use Rattle.object_tables.specs.Next.{IsNext};

use crate::volume::Volume;

impl Volume {
    /// The least file number above `after`; `None` exactly where there is none. It takes no memory.
    pub fn next_file(&self, after: u64) -> Option<u64>
        ensures { IsNext self.now.content.files after result }
    {
        self.files.next(after)
    }

    /// The least number above `after` that a link has; `None` exactly where there is none. It takes no memory.
    pub fn next_link(&self, after: u64) -> Option<u64>
        ensures { IsNext self.now.content.links after result }
    {
        self.links.next(after)
    }

    /// The least number above `after` that a stream has; `None` exactly where there is none. It takes no memory.
    pub fn next_stream(&self, after: u64) -> Option<u64>
        ensures { IsNext self.now.content.streams after result }
    {
        self.streams.next(after)
    }

    /// The least number above `after` that a handle has; `None` exactly where there is none. It takes no memory.
    pub fn next_handle(&self, after: u64) -> Option<u64>
        ensures { IsNext self.now.content.handles after result }
    {
        self.handles.next(after)
    }
}
