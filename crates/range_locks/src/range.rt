//! Ranges that are held, and ranges that are wanted.

ghost use Rattle.std.specs.Prelude.{◌≡◌, ◌+◌, nat_lt};

/// A range of bytes that is locked.
#[derive(Clone, Copy)]
pub struct Range {
    /// The number of the lock.
    pub id: u64,
    /// The handle that holds it.
    pub handle: u64,
    /// Its first byte's place in the stream.
    pub at: u64,
    /// How many bytes it has; none is allowed, and so is an end past 2^64.
    pub count: u64,
    /// Whether it is exclusive; else it is shared.
    pub exclusive: bool,
}

/// What a range is wanted for.
#[derive(Clone, Copy)]
pub enum Want {
    /// Reading its bytes.
    Read,
    /// Writing its bytes.
    Write,
    /// A shared lock.
    Shared,
    /// An exclusive lock.
    Exclusive,
}

impl Range {
    ghost use Rattle.range_locks.specs.RangeTable.{conflicts, is_range, lock_of};
    ghost use Rattle.fsa_types.specs.Ranges.{meets};

    // Whether it conflicts with what is wanted by this handle.
    pub(crate) fn conflicts(&self, want: Want, handle: u64, at: u64, count: u64) -> bool
        ensures { result ≡ conflicts want handle at count self.now }
    {
        let own = self.handle == handle;
        let conflicts = match want {
            Want::Exclusive => true,
            Want::Shared | Want::Read => self.exclusive && !own,
            Want::Write => !self.exclusive || !own,
        };
        conflicts && self.meets(at, count)
    }

    // Whether it overlaps with this range.
    fn meets(&self, at: u64, count: u64) -> bool
        ensures { result ≡ meets at count (lock_of self.now) }
    {
        begins_before_end(at, self.at, self.count) && begins_before_end(self.at, at, count)
    }

    // Whether it is this handle's and exactly this range.
    pub(crate) fn is_exactly(&self, handle: u64, at: u64, count: u64) -> bool
        ensures { result ≡ is_range handle at count self.now }
    {
        self.handle == handle && self.at == at && self.count == count
    }
}

// Whether a place is before the end of a range, which may lie past the largest place.
fn begins_before_end(place: u64, at: u64, count: u64) -> bool
    ensures { result ≡ nat_lt place (at + count) }
{
    place < at || place - at < count
}
