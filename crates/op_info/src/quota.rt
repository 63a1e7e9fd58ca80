//! What a new owner is charged, against his limit.

ghost use Rattle.std.specs.Prelude.{◌≡◌, ◌+◌, ◌&&◌, ◌==◌, not, nat_lt};
ghost use Rattle.fsa_model.specs.Charge.{charge, charge_of_file, limit};
ghost use Rattle.fsa_model.specs.Security.{passes_limit};

use op_parts::owner_of;
use volume_state::Volume;

// Whether an owner's charge, with what this file takes beside, passes his limit. No limit reaches 2^64.
fn passes_with(volume: &Volume, sid: u32, file: u64) -> bool
    ensures { result ≡ nat_lt (limit volume.now.content sid) (charge volume.now.content sid + charge_of_file volume.now.content file) }
{
    let limit = volume.limit(sid);
    match volume.charge(sid).checked_add(volume.charge_of_file(file)) {
        None => true,
        Some(total) => limit < total,
    }
}

/// Whether an owner other than the present one is asked for, whose charge with this file's would pass
/// his limit.
pub fn passes_limit(volume: &Volume, file: u64, owner: Option<u32>) -> bool
    ensures { result ≡ passes_limit volume.now.content file owner }
{
    match owner {
        None => false,
        Some(sid) => sid != owner_of(volume, file) && passes_with(volume, sid, file),
    }
}
