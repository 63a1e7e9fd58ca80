//! The one way in which a call on the outside fails, and how a fault is counted.
ghost use Rattle.std.specs.Prelude.{◌≡◌};
ghost use Rattle.wire_io.specs.Faults.{one_more};

/// A call on a source or a sink failed, and the count of faults of that source or sink rose.
#[derive(Clone, Copy, Debug, PartialEq, Eq)]
pub struct Failed;

/// A count after one more. It stands still at its last value.
pub(crate) fn one_more(count: u64) -> u64
    ensures { result ≡ one_more count }
{
    count.saturating_add(1)
}
