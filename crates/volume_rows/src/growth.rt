//! The space that streams take.

ghost use Rattle.std.specs.Prelude.{◌≡◌, ◌<◌, ◌*◌, ◌^◌, length};
ghost use Rattle.fsa_types.specs.Clusters.{cluster_size, clusters_for};

use crate::rows::StreamRow;
use fsa_types::clusters_for;

/// The clusters of a stream.
pub fn clusters_of(stream: &StreamRow) -> u64
    ensures clusters { result ≡ clusters_for (length stream.now.stream.bytes) }
    ensures few { cluster_size * result < 2 ^ 64 }
{
    clusters_for(stream.length())
}
