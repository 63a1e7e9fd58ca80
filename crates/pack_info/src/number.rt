//! Numbers and names as bytes, the lowest first.

ghost use Rattle.std.specs.Prelude.{◌≡◌, ◌++◌, OnOk, IfOk};
ghost use Rattle.std.specs.List.{flat_map};
ghost use Rattle.pack_info.specs.Numbers.{number_bytes};
ghost use Rattle.fsa_types.specs.LittleEndian.{utf16, zeros};

use byteorder::{ByteOrder, LittleEndian};
use fsa_types::NoMemory;

// A number of four or of eight bytes.
#[derive(Clone, Copy)]
pub(crate) enum Number {
    // Four bytes.
    Four(u32),
    // Eight bytes.
    Eight(u64),
}

// Writes a number at the end.
pub(crate) fn push_number(out: &mut Vec<u8>, number: Number) -> Result<(), NoMemory>
    ensures { OnOk result (out.new.items ≡ out.old.items ++ number_bytes number) }
{
    match number {
        Number::Four(n) => {
            let mut four = [0; 4];
            LittleEndian::write_u32(&mut four, n);
            out.extend_from_slice(&four)?;
        }
        Number::Eight(n) => {
            let mut eight = [0; 8];
            LittleEndian::write_u64(&mut eight, n);
            out.extend_from_slice(&eight)?;
        }
    }
    Ok(())
}

// Writes numbers at the end.
pub(crate) fn push_numbers(out: &mut Vec<u8>, numbers: &[Number]) -> Result<(), NoMemory>
    ensures { OnOk result (out.new.items ≡ out.old.items ++ flat_map number_bytes numbers.now) }
{
    for number in numbers {
        push_number(out, *number)?;
    }
    Ok(())
}

// Writes units at the end, the low byte of each first.
pub(crate) fn push_units(out: &mut Vec<u8>, units: &[u16]) -> Result<(), NoMemory>
    ensures { OnOk result (out.new.items ≡ out.old.items ++ utf16 units.now) }
{
    for unit in units {
        let mut two = [0; 2];
        LittleEndian::write_u16(&mut two, *unit);
        out.extend_from_slice(&two)?;
    }
    Ok(())
}

// Writes zeros at the end.
pub(crate) fn push_zeros(out: &mut Vec<u8>, count: usize) -> Result<(), NoMemory>
    ensures { OnOk result (out.new.items ≡ out.old.items ++ zeros count) }
{
    for _ in 0..count {
        out.push(0)?;
    }
    Ok(())
}
