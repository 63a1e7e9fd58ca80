//! Whether rights are there.

ghost use Rattle.std.specs.Prelude.{◌≡◌, ◌<◌, length};
ghost use Rattle.fsa_types.specs.Access.{has_any};
ghost use Rattle.fsa_model.specs.Open.{grants};

use acl_check::check;
use bitflags::Flags;
use fsa_types::AccessMask;
use volume_state::Volume;

/// Whether these rights have some of these bits.
pub fn has_right(rights: u32, some: AccessMask) -> bool
    ensures { result ≡ has_any rights some.0 }
{
    AccessMask::from_bits_retain(rights).intersects(some)
}

/// Whether the access check of a file grants a client these rights. There has to be such a client.
pub fn grants(volume: &Volume, file: u64, client: u32, rights: u32) -> bool
    requires client { client < length volume.now.content.clients }
    ensures { result ≡ grants volume.now.content file client rights }
{
    let sids = volume.sids(client);
    match volume.file(file) {
        None => false,
        Some(row) => check(row.dacl.as_ref(), row.owner, sids, rights).is_some(),
    }
}
