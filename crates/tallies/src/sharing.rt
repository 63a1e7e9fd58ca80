//! What an open has and what it shares, of the three accesses of sharing, and which opens clash.

ghost use Rattle.std.specs.Prelude.{◌≡◌};
ghost use Rattle.fsa_types.specs.Sharing.{reads, writes, deletes, shares_read, shares_write, shares_delete, takes_part, oversteps, clash};
ghost use Rattle.tallies.specs.Counts.{refuses_read, refuses_write, refuses_delete};

use bitflags::Flags;
use fsa_types::{AccessMask, ShareAccess};

// Whether an open has read access: READ_DATA or EXECUTE.
pub(crate) fn reads(access: u32) -> bool
    ensures { result ≡ reads access }
{
    let access = AccessMask::from_bits_retain(access);
    access.intersects(AccessMask::READ_DATA) || access.intersects(AccessMask::EXECUTE)
}

// Whether it has write access: WRITE_DATA or APPEND_DATA.
pub(crate) fn writes(access: u32) -> bool
    ensures { result ≡ writes access }
{
    let access = AccessMask::from_bits_retain(access);
    access.intersects(AccessMask::WRITE_DATA) || access.intersects(AccessMask::APPEND_DATA)
}

// Whether it has delete access: DELETE.
pub(crate) fn deletes(access: u32) -> bool
    ensures { result ≡ deletes access }
{
    AccessMask::from_bits_retain(access).intersects(AccessMask::DELETE)
}

// Whether it has some of the three, and so takes part in sharing.
pub(crate) fn takes_part(access: u32) -> bool
    ensures { result ≡ takes_part access }
{
    reads(access) || writes(access) || deletes(access)
}

// Whether others may have read access.
pub(crate) fn shares_read(share: u32) -> bool
    ensures { result ≡ shares_read share }
{
    ShareAccess::from_bits_retain(share).intersects(ShareAccess::SHARE_READ)
}

// Whether others may have write access.
pub(crate) fn shares_write(share: u32) -> bool
    ensures { result ≡ shares_write share }
{
    ShareAccess::from_bits_retain(share).intersects(ShareAccess::SHARE_WRITE)
}

// Whether others may have delete access.
pub(crate) fn shares_delete(share: u32) -> bool
    ensures { result ≡ shares_delete share }
{
    ShareAccess::from_bits_retain(share).intersects(ShareAccess::SHARE_DELETE)
}

// Whether an open keeps read access from others.
pub(crate) fn refuses_read(access: u32, share: u32) -> bool
    ensures { result ≡ refuses_read access share }
{
    takes_part(access) && !shares_read(share)
}

// Whether an open keeps write access from others.
pub(crate) fn refuses_write(access: u32, share: u32) -> bool
    ensures { result ≡ refuses_write access share }
{
    takes_part(access) && !shares_write(share)
}

// Whether an open keeps delete access from others.
pub(crate) fn refuses_delete(access: u32, share: u32) -> bool
    ensures { result ≡ refuses_delete access share }
{
    takes_part(access) && !shares_delete(share)
}

// Whether an open has an access that the other doesn't share.
fn oversteps(access: u32, other_share: u32) -> bool
    ensures { result ≡ oversteps access other_share }
{
    (reads(access) && !shares_read(other_share))
        || (writes(access) && !shares_write(other_share))
        || (deletes(access) && !shares_delete(other_share))
}

/// Whether two opens of one stream or directory clash, each by the rights that it has and what it shares, after
/// [MS-FSA] 'Algorithm to Check Sharing Access to an Existing Stream or Directory': both have some of read, write and
/// delete access, and one has an access that the other doesn't share. Generic rights have no part in it.
pub fn clash(access: u32, share: u32, other_access: u32, other_share: u32) -> bool
    ensures { result ≡ clash access share other_access other_share }
{
    takes_part(access)
        && takes_part(other_access)
        && (oversteps(access, other_share) || oversteps(other_access, share))
}
