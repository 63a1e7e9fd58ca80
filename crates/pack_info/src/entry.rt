//! One entry of any layout, written.

ghost use Rattle.std.specs.Prelude.{◌≡◌, ◌+◌, ◌*◌, ◌<◌, ◌≤◌, ◌^◌, ◌++◌, true, false, length, OnOk, if◌then◌else◌};
ghost use Rattle.fsa_types.specs.Packing.{before_name, after_name, name_field, size_of, rounded, entry_bytes};
ghost use Rattle.pack_info.specs.Entries.{entry_with};

use crate::layout::{Numbers, push_head, round_up, size_of_head};
use crate::number::{push_units, push_zeros};
use fsa_types::{NoMemory, PackKind};

// What stands before the units of a name in its field.
fn before(kind: PackKind) -> &'static [u16]
    ensures { result.now ≡ before_name kind }
{
    match kind {
        PackKind::Streams => &[0x3A],
        _ => &[],
    }
}

// What stands after the units of a name in its field: `:$DATA` for a stream.
fn after(kind: PackKind) -> &'static [u16]
    ensures { result.now ≡ after_name kind }
{
    match kind {
        PackKind::Streams => &[0x3A, 0x24, 0x44, 0x41, 0x54, 0x41],
        _ => &[],
    }
}

// The number of bytes of the field for a name of so many units.
pub(crate) fn size_of_name(kind: PackKind, units: &[u16]) -> usize
    requires { length units.now < 2 ^ 32 }
    ensures { result ≡ length (name_field kind units.now) }
{
    2 * (before(kind).len() + units.len() + after(kind).len())
}

// Writes the field of a name.
#[tactic(auto, unfolding(fsa_types::specs::Packing::name_field))]
fn push_name(out: &mut Vec<u8>, kind: PackKind, units: &[u16]) -> Result<(), NoMemory>
    ensures { OnOk result (out.new.items ≡ out.old.items ++ name_field kind units.now) }
{
    push_units(out, before(kind))?;
    push_units(out, units)?;
    push_units(out, after(kind))
}

// Writes an entry, with its padding where it isn't the last.
pub(crate) fn push_entry(
    out: &mut Vec<u8>,
    kind: PackKind,
    n: &Numbers,
    units: &[u16],
    last: bool,
) -> Result<(), NoMemory>
    requires units { length units.now < 2 ^ 32 }
    requires size { size_of kind (entry_with kind n.now units.now) < 2 ^ 32 }
    requires next { last ≡ false → rounded kind (size_of kind (entry_with kind n.now units.now)) < 2 ^ 32 }
    ensures { OnOk result (out.new.items ≡ out.old.items ++ entry_bytes kind (entry_with kind n.now units.now) last) }
{
    let len = size_of_name(kind, units);
    if last {
        push_head(out, kind, n, 0, len as u32)?;
        push_name(out, kind, units)?;
        return Ok(());
    }
    let size = size_of_head(kind) + len;
    let next = round_up(kind, size);
    push_head(out, kind, n, next as u32, len as u32)?;
    push_name(out, kind, units)?;
    push_zeros(out, next - size)?;
    Ok(())
}
