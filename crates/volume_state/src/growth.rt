//! The space that streams take, what an owner is charged for it, and his limit.

ghost use Rattle.std.specs.Prelude.{ℕ, ◌≡◌, ◌<◌, ◌+◌, ◌*◌, ◌^◌, length, sum_by, option_map, IfOk, IfSome, IfNone, IsSome};
ghost use Rattle.fsa_types.specs.Rows.{row_of};
ghost use Rattle.fsa_types.specs.Clusters.{cluster_size, clusters_for};
ghost use Rattle.fsa_model.specs.Charge.{charge, charge_of_file, clusters, limit};
ghost use Rattle.tallies.specs.Charges.{sum_of};
ghost use Rattle.volume_rows.specs.Streams.{streams_in};
ghost use Rattle.volume_state.specs.Tallied.{part_of_stream, part_of_file, clusters_at};
ghost use Rattle.volume_tables.specs.Space.{HandsOver, MayResize, Resizes};

use crate::volume::Volume;
use fsa_types::{CLUSTER_SIZE, NoMemory};
use object_tables::Table;
use std::alloc::Global;
use volume_rows::{FileRow, StreamRow, clusters_of, find_limit};
use volume_tables::{SpaceTally, StreamTable};

impl Volume {
    /// How many clusters all streams take.
    pub fn clusters(&self) -> u64
        ensures { result ≡ clusters self.now.content }
    {
        self.space.clusters()
    }

    /// How many bytes an owner is charged: those of the clusters that the streams of his files take.
    pub fn charge(&self, owner: u32) -> u64
        ensures { result ≡ charge self.now.content owner }
    {
        self.space.charge(owner)
    }

    /// How many bytes an owner is charged for this file: those of the clusters that its streams take.
    pub fn charge_of_file(&self, file: u64) -> u64
        ensures { result ≡ charge_of_file self.now.content file }
    {
        CLUSTER_SIZE * self.streams.clusters_of_file(file)
    }

    /// How many bytes an owner may be charged; 2^64 - 1 where no limit of his is set.
    pub fn limit(&self, owner: u32) -> u64
        ensures { result ≡ limit self.now.content owner }
    {
        find_limit(self.limits.as_slice(), owner).unwrap_or(u64::MAX)
    }
}

// The tally of a volume that has the root alone, whose owner is 0.
pub(crate) fn space_of_root(alloc: Global) -> Result<SpaceTally, NoMemory>
    ensures charges { IfOk result (λ space. (owner : ℕ) → sum_of space.sums owner ≡ 0) }
    ensures clusters { IfOk result (λ space. space.clusters ≡ 0) }
    ensures owner { IfOk result (λ space. IsSome (row_of space.sums 0)) }
{
    let mut space = SpaceTally::new(alloc);
    space.reserve(1)?;
    space.admit(0);
    Ok(space)
}

// The owner of a stream's file, with the clusters of this stream.
fn part_of_row(files: &Table<FileRow>, stream: &StreamRow) -> Option<(u32, u64)>
    ensures { result ≡ option_map (λ file. (file.owner, clusters_for (length stream.now.stream.bytes))) (row_of files.now.rows stream.now.stream.file) }
{
    match files.get(stream.info.file) {
        None => None,
        Some(file) => Some((file.owner, clusters_of(stream))),
    }
}

// The owner who is charged for a stream, with its clusters; `None` exactly where there is no such stream, or
// its file is gone.
pub(crate) fn part_of_stream(
    files: &Table<FileRow>,
    streams: &StreamTable,
    stream: u64,
) -> Option<(u32, u64)>
    ensures { result ≡ part_of_stream files.now.rows (streams_in streams.now.rows) stream }
{
    match streams.get(stream) {
        None => None,
        Some(row) => part_of_row(files, row),
    }
}

// The owner who is charged for a file, with the clusters of its streams; `None` exactly where there is no such
// file.
pub(crate) fn part_of_file(
    files: &Table<FileRow>,
    streams: &StreamTable,
    file: u64,
) -> Option<(u32, u64)>
    requires fits { sum_by (λ entry. clusters_for (length entry.1.bytes)) (streams_in streams.now.rows) < 2 ^ 64 }
    ensures { result ≡ part_of_file files.now.rows (streams_in streams.now.rows) file }
{
    match files.get(file) {
        None => None,
        Some(row) => Some((row.owner, streams.clusters_of_file(file))),
    }
}

// The clusters of a stream; 0 where there is none.
pub(crate) fn clusters_at(streams: &StreamTable, stream: u64) -> u64
    ensures { result ≡ clusters_at (streams_in streams.now.rows) stream }
{
    match streams.get(stream) {
        None => 0,
        Some(row) => clusters_of(row),
    }
}

// The owner of a part is charged for so many clusters in place of those of the part.
pub(crate) fn resize(space: &mut SpaceTally, part: Option<(u32, u64)>, after: u64)
    requires { IfSome part (λ p. MayResize space.old p.0 p.1 after) }
    ensures some { IfSome part (λ p. Resizes space.old space.new p.0 p.1 after) }
    ensures none { IfNone part (space.new ≡ space.old) }
    ensures room { space.new.room ≡ space.old.room }
{
    if let Some((owner, clusters)) = part {
        space.resize(owner, clusters, after);
    }
}

// The charge for a part passes to another owner.
pub(crate) fn hand_over(space: &mut SpaceTally, part: Option<(u32, u64)>, to: u32)
    requires from { IfSome part (λ p. MayResize space.old p.0 p.1 0) }
    requires to { IsSome (row_of space.old.sums to) }
    requires fits { IfSome part (λ p. sum_of space.old.sums to + cluster_size * p.1 < 2 ^ 64) }
    ensures some { IfSome part (λ p. HandsOver space.old space.new p.0 to p.1) }
    ensures none { IfNone part (space.new ≡ space.old) }
    ensures room { space.new.room ≡ space.old.room }
{
    if let Some((owner, clusters)) = part {
        space.hand_over(owner, to, clusters);
    }
}
