//! The rights of a handle, and the places that it may reach.

ghost use Rattle.std.specs.Prelude.{◌≡◌};
ghost use Rattle.fsa_model.specs.Write.{can_write};

use fsa_types::AccessMask;
use op_parts::has_right;

/// The largest end of a read or a write, and the largest length that can be set.
pub const LARGEST_END: u64 = 0x7FFF_FFFF_FFFF_FFFF;

/// Whether a handle with this access may write at this place; `None` is the end of the stream.
pub fn can_write(access: u32, at: Option<u64>) -> bool
    ensures { result ≡ can_write access at }
{
    has_right(access, AccessMask::WRITE_DATA)
        || (has_right(access, AccessMask::APPEND_DATA) && at.is_none())
}
