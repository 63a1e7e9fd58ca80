//! The walk over an access list.

ghost use Rattle.std.specs.Prelude.{◌≡◌, ◌↔◌, IsSome, Some, List, ◌∷◌, ◌++◌};
ghost use Rattle.std.specs.Option.{option_copied};
ghost use Rattle.fsa_types.specs.Access.{asked_of_list, check, entries_for, entries_of, owner_rights, walk_denies, without};
ghost use Rattle.fsa_types.specs.declared.request.Ace.{Ace};
ghost use Rattle.acl_check.specs.FirstEntry.{ListAllows, NameEach};

use bitflags::Flags;
use fsa_types::{AccessMask, Ace, Dacl};

// READ_CONTROL and WRITE_DAC, which an owner has without the list.
fn owner_rights() -> u32
    ensures { result ≡ owner_rights }
{
    AccessMask::READ_CONTROL.bits() | AccessMask::WRITE_DAC.bits()
}

/// Whether a client with these SIDs has all the rights that are `wanted` on a file of this owner
/// and with this access list: `wanted`, or `None` exactly where some of them are denied, after
/// [MS-DTYP] 'Access Check Algorithm Pseudocode'.
///
/// An owner has READ_CONTROL and WRITE_DAC. Without a list all is granted, by an empty list
/// nothing more. Otherwise the client's entries are taken in order: an allow entry grants its
/// rights, and a deny entry denies where one of its rights isn't granted yet. So an allow entry
/// after a deny entry of the same right doesn't help, and a deny entry after an allow entry of the
/// same right doesn't hurt. Masks are access masks without generic rights.
pub fn check(dacl: Option<&Dacl>, owner: u32, sids: &[u32], wanted: u32) -> Option<u32>
    ensures checked { result ≡ check (entries_of (option_copied dacl.entry)) owner sids.now wanted }
    // The first entry for the client that names a right decides it.
    ensures first_entry { IsSome result
        ↔ ListAllows (entries_of (option_copied dacl.entry)) owner sids.now wanted }
    // An entry makes no difference where earlier entries for the client name each of its rights: an
    // allow entry doesn't help after deny entries of its rights, nor does a deny entry hurt after
    // allow entries of them.
    ensures later_entry { (front back : List Ace) (entry : Ace)
        → entries_of (option_copied dacl.entry) ≡ Some (front ++ entry ∷ back)
        → NameEach (entries_for sids.now front) entry.mask
        → result ≡ check (Some (front ++ back)) owner sids.now wanted }
{
    let Some(dacl) = dacl else {
        return Some(wanted);
    };
    if walk_denies(dacl.as_slice(), sids, asked_of_list(owner, sids, wanted)) {
        None
    } else {
        Some(wanted)
    }
}

// What is asked of the list: all that is wanted but for what an owner has without it.
fn asked_of_list(owner: u32, sids: &[u32], wanted: u32) -> u32
    ensures { result ≡ asked_of_list owner sids.now wanted }
{
    if sids.contains(&owner) {
        without(wanted, owner_rights())
    } else {
        wanted
    }
}

// A mask but for the bits that it has of these.
fn without(mask: u32, bits: u32) -> u32
    ensures { result ≡ without mask bits }
{
    mask & !bits
}

// Whether the entries for the client, taken in order, deny some of the rights that are wanted.
fn walk_denies(entries: &[Ace], sids: &[u32], wanted: u32) -> bool
    ensures { result ≡ walk_denies (entries_for sids.now entries.now) wanted }
{
    let mut left = wanted;
    for entry in entries {
        if !sids.contains(&entry.sid) {
            continue;
        }
        if entry.allow {
            left = without(left, entry.mask);
        } else if left & entry.mask != 0 {
            return true;
        }
    }
    left != 0
}
