//! The attributes that a request asks for.

ghost use Rattle.std.specs.Prelude.{◌≡◌};
ghost use Rattle.fsa_types.specs.Access.{has_other};
ghost use Rattle.fsa_types.specs.Masks.{known_attributes};
ghost use Rattle.fsa_model.specs.Open.{kept_attributes};

use bitflags::Flags;
use fsa_types::FileAttributes;

/// Whether there is an attribute that no request may have.
#[tactic(auto, unfolding(bitflags::specs::Sets::known_from))]
pub fn has_other_attribute(attributes: u32) -> bool
    ensures { result ≡ has_other attributes known_attributes }
{
    match FileAttributes::from_bits(attributes) {
        Some(_) => false,
        None => true,
    }
}

/// Those of these attributes that are kept: READONLY, HIDDEN, SYSTEM and ARCHIVE.
pub fn kept_attributes(attributes: u32) -> u32
    ensures { result ≡ kept_attributes attributes }
{
    let kept = FileAttributes::READONLY.bits()
        | FileAttributes::HIDDEN.bits()
        | FileAttributes::SYSTEM.bits()
        | FileAttributes::ARCHIVE.bits();
    attributes & kept
}
