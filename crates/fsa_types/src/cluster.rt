//! The clusters that the space of the volume is counted in.

ghost use Rattle.std.specs.Prelude.{◌≡◌, ◌≤◌, ◌<◌, ◌*◌, ◌^◌};
ghost use Rattle.fsa_types.specs.Clusters.{cluster_size, clusters_for};

/// The bytes of a cluster, after [MS-FSA] 'Per Volume', ClusterSize.
pub const CLUSTER_SIZE: u64 = 4096;

/// The clusters that so many bytes take. The bytes are at most 2^63.
pub fn clusters_for(bytes: u64) -> u64
    requires { bytes ≤ 2 ^ 63 }
    ensures clusters { result ≡ clusters_for bytes }
    ensures few { cluster_size * result < 2 ^ 64 }
{
    (bytes + (CLUSTER_SIZE - 1)) / CLUSTER_SIZE
}
