//! The counters of the opens that are held on one stream or directory.

ghost use Rattle.std.specs.Prelude.{◌≡◌, ◌==◌, ◌&&◌, ◌||◌, ◌<◌, ◌-◌, ◌^◌, ◌++◌, ◌∷◌, [], List, ℕ, length, Contains, IsPermutation};
ghost use Rattle.std.specs.List.{list_any};
ghost use Rattle.fsa_types.specs.Sharing.{clash, clashes, takes_part};
ghost use Rattle.tallies.specs.Counts.{counts_of, meets_refusers, meets_users};
ghost use Rattle.tallies.specs.Held.{without_open};

use crate::held::HeldOpens;
use crate::sharing::{
    deletes, reads, refuses_delete, refuses_read, refuses_write, shares_delete, shares_read,
    shares_write, takes_part, writes,
};
use std::marker::Model;

/// The opens that are held on one stream or directory, as counts of their access and of what they
/// keep from others, after [MS-FSA] 'Algorithm to Check Sharing Access to an Existing Stream or
/// Directory'. Contracts see the list of the pairs that are held, each of an access mask and a share
/// mask.
#[derive(Drop)]
pub struct ShareCounts {
    // The list that contracts see.
    held: HeldOpens,
    // All of them.
    opens: u64,
    // Those with each access.
    readers: u64,
    writers: u64,
    deleters: u64,
    // Those that have some of these accesses and don't share this one.
    read_refusers: u64,
    write_refusers: u64,
    delete_refusers: u64,
}

impl Model for ShareCounts {
    ghost use Rattle.std.specs.Prelude.{ℕ, List};

    ghost Value = { List (ℕ × ℕ) };

    ghost use Rattle.tallies.specs.Counters.{AreCounts};

    ghost view = { λ counters. counters.held.pairs };

    ghost invariant = { AreCounts };
}

impl ShareCounts {
    /// No open is held.
    pub fn new() -> ShareCounts
        ensures { result ≡ [] }
    {
        ShareCounts {
            held: HeldOpens::none(),
            opens: 0,
            readers: 0,
            writers: 0,
            deleters: 0,
            read_refusers: 0,
            write_refusers: 0,
            delete_refusers: 0,
        }
    }

    /// Whether no open is held.
    pub fn is_empty(&self) -> bool
        ensures { result ≡ (length self.now == 0) }
    {
        self.opens == 0
    }

    /// Adds an open, by its access mask without generic rights and by its share mask. Fewer than
    /// 2^64 - 1 opens have to be held.
    pub fn add(&mut self, access: u32, share: u32)
        requires { length self.old < 2 ^ 64 - 1 }
        ensures { self.new ≡ self.old ++ (access, share) ∷ [] }
    {
        self.opens += 1;
        self.readers += reads(access) as u64;
        self.writers += writes(access) as u64;
        self.deleters += deletes(access) as u64;
        self.read_refusers += refuses_read(access, share) as u64;
        self.write_refusers += refuses_write(access, share) as u64;
        self.delete_refusers += refuses_delete(access, share) as u64;
        self.held = HeldOpens::with(&self.held, &(access, share));
    }

    /// Removes an open with these two masks, which has to be held. Of several that have them the
    /// first goes, and the others stay.
    pub fn remove(&mut self, access: u32, share: u32)
        requires { Contains self.old (access, share) }
        ensures first { self.new ≡ without_open self.old (access, share) }
        ensures others { IsPermutation self.old ((access, share) ∷ self.new) }
    {
        self.opens -= 1;
        self.readers -= reads(access) as u64;
        self.writers -= writes(access) as u64;
        self.deleters -= deletes(access) as u64;
        self.read_refusers -= refuses_read(access, share) as u64;
        self.write_refusers -= refuses_write(access, share) as u64;
        self.delete_refusers -= refuses_delete(access, share) as u64;
        self.held = HeldOpens::without(&self.held, &(access, share));
    }

    /// Whether an open with this access mask, without generic rights, and this share mask clashes
    /// with some open that is held: both have some of read access (READ_DATA or EXECUTE), write
    /// access (WRITE_DATA or APPEND_DATA) and delete access (DELETE), and one has an access that the
    /// other doesn't share.
    pub fn clashes(&self, access: u32, share: u32) -> bool
        ensures found { result ≡ clashes self.now access share }
        // It makes no difference which of two opens is there first.
        ensures symmetric { result ≡ list_any (λ other. clash other.0 other.1 access share) self.now }
        // Nor does it in which order opens were added.
        ensures any_order { (held : List (ℕ × ℕ)) → IsPermutation self.now held
            → result ≡ clashes held access share }
    {
        self.meet(access, share)
    }

    // Whether the counts tell of an open that clashes with one of this access and this share.
    fn meet(&self, access: u32, share: u32) -> bool
        ensures { result
            ≡ (meets_refusers (counts_of self.now) access
            || takes_part access && meets_users (counts_of self.now) share) }
    {
        self.refuse_some(access) || takes_part(access) && self.have_unshared(share)
    }

    // Whether some open that is held keeps from others an access that is in this mask.
    fn refuse_some(&self, access: u32) -> bool
        ensures { result ≡ meets_refusers (counts_of self.now) access }
    {
        reads(access) && self.read_refusers != 0
            || writes(access) && self.write_refusers != 0
            || deletes(access) && self.delete_refusers != 0
    }

    // Whether some open that is held has an access that this share mask leaves out.
    fn have_unshared(&self, share: u32) -> bool
        ensures { result ≡ meets_users (counts_of self.now) share }
    {
        self.readers != 0 && !shares_read(share)
            || self.writers != 0 && !shares_write(share)
            || self.deleters != 0 && !shares_delete(share)
    }
}
