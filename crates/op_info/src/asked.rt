//! What is asked for, and whether it may be.

ghost use Rattle.std.specs.Prelude.{◌≡◌, ◌<◌, ◌&&◌, ◌||◌, not, is_some, length};
ghost use Rattle.fsa_types.specs.Access.{has_sid};
ghost use Rattle.fsa_model.specs.Security.{asks_something, changes_dacl, is_foreign, lacks_right};

use fsa_types::{AccessMask, DaclChange};
use op_parts::has_right;
use volume_state::Volume;

// Whether one of these SIDs is this one.
fn has_sid(sids: &[u32], sid: u32) -> bool
    ensures { result ≡ has_sid sids.now sid }
{
    sids.contains(&sid)
}

// Whether the access list is changed.
fn changes_dacl(dacl: &DaclChange) -> bool
    ensures { result ≡ changes_dacl dacl.now }
{
    match dacl {
        DaclChange::Keep => false,
        DaclChange::Remove | DaclChange::Put(_) => true,
    }
}

/// Whether an owner is asked for, or the access list is changed.
pub fn asks_something(owner: Option<u32>, dacl: &DaclChange) -> bool
    ensures { result ≡ asks_something owner dacl.now }
{
    owner.is_some() || changes_dacl(dacl)
}

/// Whether these rights lack WRITE_OWNER where an owner is asked for, or WRITE_DAC where the access list
/// is changed.
pub fn lacks_right(access: u32, owner: Option<u32>, dacl: &DaclChange) -> bool
    ensures { result ≡ lacks_right access owner dacl.now }
{
    (owner.is_some() && !has_right(access, AccessMask::WRITE_OWNER))
        || (changes_dacl(dacl) && !has_right(access, AccessMask::WRITE_DAC))
}

/// Whether an owner is asked for who is none of the client's SIDs. There has to be such a client.
pub fn is_foreign(volume: &Volume, client: u32, owner: Option<u32>) -> bool
    requires client { client < length volume.now.content.clients }
    ensures { result ≡ is_foreign volume.now.content client owner }
{
    match owner {
        None => false,
        Some(sid) => !has_sid(volume.sids(client), sid),
    }
}
