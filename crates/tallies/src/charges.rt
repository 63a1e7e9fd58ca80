//! The sums that owners are charged.

ghost use Rattle.std.specs.Prelude.{ℕ, AllPairs, ◌≡◌, ◌≤◌, ◌<◌, ◌+◌, ◌==◌, [], Some, None, false, IsOk, IfOk, IfErr, IsSome, OnOk, OnErr};
ghost use Rattle.fsa_types.specs.Rows.{row_of};
ghost use Rattle.tallies.specs.Charges.{sum_of};
ghost use Rattle.fsa_types.specs.Places.{IsAt, StandsAt};

use fsa_types::NoMemory;
use std::alloc::{AllocFailed, Global};
use std::marker::Model;

/// What each owner is charged, in bytes. An owner is the number of a SID.
#[derive(Drop)]
pub struct Charges {
    // By rising owner.
    sums: Vec<(u32, u64)>,
}

impl Model for Charges {
    ghost use Rattle.std.specs.Prelude.{AllPairs, ◌-◌, ◌<◌};
    ghost use Rattle.std.specs.Vec.{vec_capacity, vec_len};
    ghost use Rattle.tallies.specs.Charges.{Sums};

    ghost Value = { Sums };

    ghost view = { λ c. record { sums = c.sums.items; room = vec_capacity c.sums - vec_len c.sums } };

    ghost invariant = { λ c. AllPairs (λ a b. a.0 < b.0) c.sums.items };
}

impl Charges {
    /// Nobody is charged anything. It takes no memory.
    pub fn new(alloc: Global) -> Charges
        ensures { result.sums ≡ [] }
    {
        Charges {
            sums: Vec::new(alloc),
        }
    }

    /// Takes room for `more` owners beside those that are there. `NoMemory` where there is none.
    pub fn reserve(&mut self, more: usize) -> Result<(), NoMemory>
        ensures sums { self.new.sums ≡ self.old.sums }
        ensures room { OnOk result (more ≤ self.new.room) }
        ensures kept { self.old.room ≤ self.new.room }
    {
        self.sums.reserve(more)?;
        Ok(())
    }

    /// What an owner is charged, in bytes; 0 where nothing was set for it. It takes no memory.
    pub fn of(&self, owner: u32) -> u64
        ensures { result ≡ sum_of self.now.sums owner }
    {
        match place_of(&self.sums, owner) {
            Ok(place) => self.sums[place].1,
            Err(_) => 0,
        }
    }

    /// Sets what an owner is charged, in bytes. An owner that was set once is there from then on. It
    /// takes memory only for an owner that isn't there, and then only where there is no spare room.
    /// `NoMemory` changes nothing.
    pub fn set(&mut self, owner: u32, bytes: u64) -> Result<(), NoMemory>
        ensures own { OnOk result (row_of self.new.sums owner ≡ Some bytes) }
        ensures others { (other : ℕ) → (other == owner) ≡ false → row_of self.new.sums other ≡ row_of self.old.sums other }
        ensures err { OnErr result (self.new.sums ≡ self.old.sums) }

        // An owner that is there takes no room and can't fail. Another takes one place.
        ensures there { IsSome (row_of self.old.sums owner) → IsOk result }
        ensures kept { IsSome (row_of self.old.sums owner) → self.new.room ≡ self.old.room }
        ensures succeeds { 1 ≤ self.old.room → IsOk result }
        ensures left { self.old.room ≤ self.new.room + 1 }
    {
        match place_of(&self.sums, owner) {
            Ok(place) => {
                self.put(owner, place, bytes);
                Ok(())
            }
            Err(place) => self.insert(owner, place, bytes),
        }
    }

    // Sets the sum of the owner at this place.
    fn put(&mut self, owner: u32, place: usize, bytes: u64)
        requires { IsAt self.old.sums owner place }
        ensures own { row_of self.new.sums owner ≡ Some bytes }
        ensures others { (other : ℕ) → (other == owner) ≡ false → row_of self.new.sums other ≡ row_of self.old.sums other }
        ensures room { self.new.room ≡ self.old.room }
    {
        self.sums[place] = (owner, bytes);
    }

    // Puts in an owner, which stands at this place, with its sum.
    fn insert(&mut self, owner: u32, place: usize, bytes: u64) -> Result<(), NoMemory>
        requires { StandsAt self.old.sums owner place }
        ensures own { OnOk result (row_of self.new.sums owner ≡ Some bytes) }
        ensures others { (other : ℕ) → (other == owner) ≡ false → row_of self.new.sums other ≡ row_of self.old.sums other }
        ensures err { OnErr result (self.new.sums ≡ self.old.sums) }
        ensures missing { row_of self.old.sums owner ≡ None }
        ensures succeeds { 1 ≤ self.old.room → IsOk result }
        ensures left { self.old.room ≤ self.new.room + 1 }
    {
        match self.sums.insert(place, (owner, bytes)) {
            Ok(()) => Ok(()),
            Err(AllocFailed { value: _ }) => Err(NoMemory),
        }
    }
}

// The place of an owner among rising ones, or where it would stand, by binary search.
fn place_of(sums: &[(u32, u64)], owner: u32) -> Result<usize, usize>
    requires rising { AllPairs (λ a b. a.0 < b.0) sums.now }
    ensures there { IfOk result (λ place. IsAt sums.now owner place) }
    ensures missing { IfErr result (λ place. StandsAt sums.now owner place) }
{
    sums.binary_search_by_key(&owner, |entry| entry.0)
}
