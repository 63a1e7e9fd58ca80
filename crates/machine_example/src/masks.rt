//! The masks that the examples ask with.

use bitflags::Flags;
use fsa_types::{AccessMask, ShareAccess};

/// The right to read bytes.
pub(crate) fn read() -> u32 {
    AccessMask::READ_DATA.bits()
}

/// The rights to read and to write bytes.
pub(crate) fn read_and_write() -> u32 {
    AccessMask::READ_DATA.bits() | AccessMask::WRITE_DATA.bits()
}

/// Others may read, write and delete meanwhile.
pub(crate) fn share_all() -> u32 {
    ShareAccess::SHARE_READ.bits()
        | ShareAccess::SHARE_WRITE.bits()
        | ShareAccess::SHARE_DELETE.bits()
}
