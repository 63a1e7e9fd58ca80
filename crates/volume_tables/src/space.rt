//! The space that streams take: what each owner is charged for it, and how much it is in all.

ghost use Rattle.std.specs.Prelude.{ℕ, ◌≡◌, ◌≤◌, ◌<◌, ◌+◌, ◌*◌, ◌^◌, [], IsSome, OnOk};
ghost use Rattle.fsa_types.specs.Clusters.{cluster_size};
ghost use Rattle.fsa_types.specs.Rows.{row_of};
ghost use Rattle.tallies.specs.Charges.{sum_of};
ghost use Rattle.volume_tables.specs.Space.{Admits, HandsOver, MayResize, Resizes};

use fsa_types::{CLUSTER_SIZE, NoMemory};
use std::alloc::Global;
use std::marker::Model;
use tallies::Charges;

/// What each owner is charged, in bytes, and how many clusters all streams take. An owner is
/// the number of a SID, and has to be admitted before he is charged.
#[derive(Drop)]
pub struct SpaceTally {
    charges: Charges,
    clusters: u64,
}

impl Model for SpaceTally {
    ghost use Rattle.volume_tables.specs.Space.{Space};

    ghost Value = { Space };

    ghost view = { λ t. record { sums = t.charges.sums; room = t.charges.room; clusters = t.clusters } };
}

impl SpaceTally {
    /// Nobody is charged anything, and there are no clusters. It takes no memory.
    pub fn new(alloc: Global) -> SpaceTally
        ensures sums { result.sums ≡ [] }
        ensures clusters { result.clusters ≡ 0 }
    {
        SpaceTally {
            charges: Charges::new(alloc),
            clusters: 0,
        }
    }

    /// Takes room for `more` owners beside those that are there. `NoMemory` where there is none.
    pub fn reserve(&mut self, more: usize) -> Result<(), NoMemory>
        ensures space { self.new ≡ record self.old { room = self.new.room } }
        ensures room { OnOk result (more ≤ self.new.room) }
        ensures kept { self.old.room ≤ self.new.room }
    {
        self.charges.reserve(more)
    }

    /// What an owner is charged, in bytes; 0 where he was never charged.
    pub fn charge(&self, owner: u32) -> u64
        ensures { result ≡ sum_of self.now.sums owner }
    {
        self.charges.of(owner)
    }

    /// How many clusters all streams take.
    pub fn clusters(&self) -> u64
        ensures { result ≡ self.now.clusters }
    {
        self.clusters
    }

    /// An owner can be charged from now on. There has to be room for one more.
    pub fn admit(&mut self, owner: u32)
        requires room { 1 ≤ self.old.room }
        ensures { Admits self.old self.new owner }
    {
        let bytes = self.charges.of(owner);
        let Ok(()) = self.charges.set(owner, bytes) else {
            unreachable!()
        };
    }

    /// What took so many clusters of an owner's, `before`, takes `after` from now on. The owner has to be
    /// admitted, and charged for the clusters before; the sums have to fit. It takes no memory.
    pub fn resize(&mut self, owner: u32, before: u64, after: u64)
        requires { MayResize self.old owner before after }
        ensures { Resizes self.old self.new owner before after }
    {
        let bytes = self.charges.of(owner) + CLUSTER_SIZE * after - CLUSTER_SIZE * before;
        let Ok(()) = self.charges.set(owner, bytes) else {
            unreachable!()
        };
        self.clusters = self.clusters + after - before;
    }

    /// The charge for so many clusters passes from one owner to another, who may be the same. Both have to be
    /// admitted, the one has to be charged for them, and the sums have to fit. It takes no memory.
    pub fn hand_over(&mut self, from: u32, to: u32, clusters: u64)
        requires from { MayResize self.old from clusters 0 }
        requires to { IsSome (row_of self.old.sums to) }
        requires fits { sum_of self.old.sums to + cluster_size * clusters < 2 ^ 64 }
        ensures { HandsOver self.old self.new from to clusters }
    {
        self.resize(from, clusters, 0);
        self.resize(to, 0, clusters);
    }
}
