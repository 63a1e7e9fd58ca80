//! The sizes of entries.

ghost use Rattle.std.specs.Prelude.{◌≡◌, ◌≤◌, ◌-◌, ◌<◌, ◌^◌, length};
ghost use Rattle.fsa_types.specs.PackedRows.{pack_kind};
ghost use Rattle.fsa_types.specs.Packing.{head_size};
ghost use Rattle.op_dir.specs.Filling.{padded};

use fsa_types::DirKind;
use pack_info::{pack_kind, size_of_head};

/// The bytes of an entry before its name.
#[tactic(auto, using(crate::proofs::SizeLaws::head_few))]
pub(crate) fn head_size(kind: DirKind) -> u32
    ensures size { result ≡ head_size (pack_kind kind) }
    ensures some { 12 ≤ result }
{
    size_of_head(pack_kind(kind)) as u32
}

// The bytes that an entry takes with its padding, where its name has so many units.
fn padded(kind: DirKind, units: usize) -> usize
    requires { units < 2 ^ 32 }
    ensures { result ≡ padded (pack_kind kind) units }
{
    (head_size(kind) as usize + 2 * units + 7) / 8 * 8
}

/// The bytes that are left behind an entry of this name and its padding; 0 where it takes more than there are.
pub(crate) fn left_behind(kind: DirKind, left: u32, units: &[u16]) -> u32
    ensures { result ≡ left - padded (pack_kind kind) (length units.now) }
{
    if units.len() > left as usize {
        return 0;
    }
    (left as usize).saturating_sub(padded(kind, units.len())) as u32
}
