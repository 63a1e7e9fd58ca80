//! Whether a stream may grow.

ghost use Rattle.std.specs.Prelude.{◌≡◌, ◌≤◌, ◌+◌, ◌^◌, nat_lt, IfNone, IsTrue};
ghost use Rattle.fsa_types.specs.Rows.{lives};
ghost use Rattle.fsa_types.specs.Clusters.{clusters_for};
ghost use Rattle.fsa_model.specs.Growth.{growth_fault, owner_of_stream};

use crate::bytes::length_of;
use fsa_types::{CLUSTER_SIZE, Status, clusters_for};
use op_parts::owner_of;
use volume_state::Volume;

// The clusters of the volume.
const MOST_CLUSTERS: u64 = 16384;

// Whether so much more would pass the limit.
fn passes(limit: u64, taken: u64, more: u64) -> bool
    ensures { result ≡ nat_lt limit (taken + more) }
{
    taken > limit || more > limit - taken
}

// The owner of the file of a stream.
fn owner_of_stream(volume: &Volume, stream: u64) -> u32
    ensures { result ≡ owner_of_stream volume.now.content stream }
{
    match volume.stream(stream) {
        None => 0,
        Some(info) => owner_of(volume, info.file),
    }
}

/// Why a stream can't have so many bytes, where clusters would be added: its owner's limit, or else
/// the space of the volume. There has to be such a stream.
#[tactic(auto, using(crate::proofs::GrowthLaws::space_fits))]
pub fn growth_fault(volume: &Volume, stream: u64, bytes: u64) -> Option<Status>
    requires lives { IsTrue (lives volume.now.content.streams stream) }
    requires place { bytes ≤ 2 ^ 63 }
    ensures fault { result ≡ growth_fault volume.now.content stream bytes }
    ensures fits { IfNone result (bytes ≤ 2 ^ 26) }
{
    let had = clusters_for(length_of(volume, stream));
    let wanted = clusters_for(bytes);
    if wanted <= had {
        return None;
    }
    let more = wanted - had;
    let owner = owner_of_stream(volume, stream);
    if passes(
        volume.limit(owner),
        volume.charge(owner),
        CLUSTER_SIZE * more,
    ) {
        return Some(Status::QuotaExceeded);
    }
    if passes(MOST_CLUSTERS, volume.clusters(), more) {
        return Some(Status::DiskFull);
    }
    None
}
