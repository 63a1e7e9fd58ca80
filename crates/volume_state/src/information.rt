//! The streams of a file in the order of their names.

ghost use Rattle.std.specs.Prelude.{◌≡◌, ◌∷◌, [], IsTrue, IfNone, IfSome};
ghost use Rattle.fsa_types.specs.Rows.{row_of, lives};
ghost use Rattle.fsa_model.specs.QueryInfo.{streams_of};
ghost use Rattle.fsa_model.specs.ShownNumbers.{default_stream};
ghost use Rattle.volume_state.specs.InOrder.{stream_after, streams_after};

use crate::volume::Volume;

impl Volume {
    /// The default stream of a file; `None` exactly where there is none. It is the first in the order of names.
    pub fn default_stream(&self, file: u64) -> Option<u64>
        ensures found { result ≡ default_stream self.now.content file }
        ensures lives { IfSome result (λ id. IsTrue (lives self.now.content.streams id)) }

        // Behind it come the streams whose names come after the empty one; where there is none, these are all.
        ensures first { IfSome result (λ id. IfSome (row_of self.now.content.streams id) (λ row. streams_of self.now.content file ≡ (id, row) ∷ streams_after self.now.content file [])) }
        ensures none { IfNone result (streams_of self.now.content file ≡ streams_after self.now.content file []) }
    {
        self.streams.named(self.links.table(), file, &[])
    }

    /// The stream of this file with the least name after this one, by upcased units; `None` exactly where
    /// there is none. So it is a named one.
    pub fn stream_after(&self, file: u64, units: &[u16]) -> Option<u64>
        ensures found { result ≡ stream_after self.now.content file units.now }
        ensures lives { IfSome result (λ id. IsTrue (lives self.now.content.streams id)) }

        // Behind it come the streams whose names come after its own; where there is none, none comes after this
        // name.
        ensures rest { IfSome result (λ id. IfSome (row_of self.now.content.streams id) (λ row. streams_after self.now.content file units.now ≡ (id, row) ∷ streams_after self.now.content file row.name)) }
        ensures none { IfNone result (streams_after self.now.content file units.now ≡ []) }
    {
        self.streams.after(self.links.table(), file, units)
    }
}
