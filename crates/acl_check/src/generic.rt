//! What generic rights stand for.

ghost use Rattle.std.specs.Prelude.{◌≡◌};
ghost use Rattle.std.specs.Int.RustNames.{bit_and};
ghost use Rattle.fsa_types.specs.Access.{map_generic, stands_for};
ghost use Rattle.fsa_types.specs.Masks.{FILE_ALL_ACCESS, FILE_GENERIC_EXECUTE, FILE_GENERIC_READ, FILE_GENERIC_WRITE, generic_bits};

use bitflags::Flags;
use fsa_types::AccessMask;

// The generic rights.
fn generic_bits() -> u32
    ensures { result ≡ generic_bits }
{
    AccessMask::GENERIC_ALL.bits()
        | AccessMask::GENERIC_EXECUTE.bits()
        | AccessMask::GENERIC_WRITE.bits()
        | AccessMask::GENERIC_READ.bits()
}

// What GENERIC_ALL stands for: all rights that aren't generic.
#[tactic(auto, unfolding(bitflags::specs::Sets::known_from))]
fn all_access() -> u32
    ensures { result ≡ FILE_ALL_ACCESS }
{
    AccessMask::all().bits() & !generic_bits()
}

// What GENERIC_EXECUTE stands for.
fn generic_execute() -> u32
    ensures { result ≡ FILE_GENERIC_EXECUTE }
{
    AccessMask::EXECUTE.bits()
        | AccessMask::READ_ATTRIBUTES.bits()
        | AccessMask::READ_CONTROL.bits()
        | AccessMask::SYNCHRONIZE.bits()
}

// What GENERIC_WRITE stands for.
fn generic_write() -> u32
    ensures { result ≡ FILE_GENERIC_WRITE }
{
    AccessMask::WRITE_DATA.bits()
        | AccessMask::APPEND_DATA.bits()
        | AccessMask::WRITE_EA.bits()
        | AccessMask::WRITE_ATTRIBUTES.bits()
        | AccessMask::READ_CONTROL.bits()
        | AccessMask::SYNCHRONIZE.bits()
}

// What GENERIC_READ stands for.
fn generic_read() -> u32
    ensures { result ≡ FILE_GENERIC_READ }
{
    AccessMask::READ_DATA.bits()
        | AccessMask::READ_EA.bits()
        | AccessMask::READ_ATTRIBUTES.bits()
        | AccessMask::READ_CONTROL.bits()
        | AccessMask::SYNCHRONIZE.bits()
}

/// The mask with each generic right of [MS-DTYP] 'ACCESS_MASK' replaced by what it stands for, and
/// with its other bits as they are: GENERIC_ALL stands for 0x1F01FF, GENERIC_EXECUTE for 0x1200A0,
/// GENERIC_WRITE for 0x120116, GENERIC_READ for 0x120089.
pub fn map_generic(mask: u32) -> u32
    ensures mapped { result ≡ map_generic mask }
    ensures none_left { bit_and result generic_bits ≡ 0 }
    ensures plain { bit_and mask generic_bits ≡ 0 → result ≡ mask }
{
    mask & !generic_bits()
        | stands_for(mask, AccessMask::GENERIC_ALL, all_access())
        | stands_for(mask, AccessMask::GENERIC_EXECUTE, generic_execute())
        | stands_for(mask, AccessMask::GENERIC_WRITE, generic_write())
        | stands_for(mask, AccessMask::GENERIC_READ, generic_read())
}

// What a generic right stands for, in a mask that has it.
fn stands_for(mask: u32, generic: AccessMask, rights: u32) -> u32
    ensures { result ≡ stands_for mask generic.0 rights }
{
    if AccessMask::from_bits_retain(mask).intersects(generic) {
        rights
    } else {
        0
    }
}
