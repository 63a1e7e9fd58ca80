//! Which handles are open.

ghost use Rattle.std.specs.Prelude.{◌≡◌};
ghost use Rattle.fsa_model.specs.Replacement.{is_any_open};

use volume_state::{HandleSet, Volume};

/// Whether some handle of the set is open.
pub fn is_any_open(volume: &Volume, on: HandleSet) -> bool
    ensures { result ≡ is_any_open volume.now.content on }
{
    volume.handles_on(on) != 0
}
