//! The client's first SID, and which attributes an overwrite keeps.

ghost use Rattle.std.specs.Prelude.{◌≡◌, ◌<◌, ◌||◌, ◌&&◌, not, length};
ghost use Rattle.fsa_types.specs.Access.{has_any};
ghost use Rattle.fsa_model.specs.Open.{first_sid, uncovers};

use crate::asked::has_attribute;
use fsa_types::FileAttributes;
use volume_state::Volume;

/// The client's first SID. There has to be such a client.
pub fn first_sid(volume: &Volume, client: u32) -> u32
    requires client { client < length volume.now.content.clients }
    ensures { result ≡ first_sid volume.now.content client }
{
    match volume.sids(client).get(0) {
        None => 0,
        Some(sid) => *sid,
    }
}

/// Whether a file that has these attributes is HIDDEN or SYSTEM, and a request with those isn't.
pub fn uncovers(kept: u32, asked: u32) -> bool
    ensures { result ≡ uncovers kept asked }
{
    (has_attribute(kept, FileAttributes::HIDDEN) && !has_attribute(asked, FileAttributes::HIDDEN))
        || (has_attribute(kept, FileAttributes::SYSTEM)
            && !has_attribute(asked, FileAttributes::SYSTEM))
}
