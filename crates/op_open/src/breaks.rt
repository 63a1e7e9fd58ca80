//! The break of oplocks by an open that clashes.

ghost use Rattle.std.specs.Prelude.{◌≡◌, ◌<◌, ◌^◌};
ghost use Rattle.fsa_model.specs.Open.{clashed};
ghost use Rattle.op_open.specs.Conditions.{HasOpenRoom};
ghost use Rattle.volume_state.specs.Tried.{Leaves};

use fsa_types::{BlockerList, Status};
use op_parts::{break_for, held};
use volume_state::{Class, HandleSet, Tried, Volume};

/// What is there clashes with a handle.
#[tactic(auto, unfolding(fsa_model::specs::Open::clashed))]
pub fn clashed(volume: &mut Volume, on: HandleSet, key: u64, blockers: BlockerList) -> Tried
    requires room { HasOpenRoom volume.old.content volume.old.spare blockers }
    requires numbers { volume.old.content.last_break < 2 ^ 63 }
    ensures leaves { Leaves (clashed volume.old.content on key) volume.old volume.new result }
{
    let mut blockers = blockers;
    if break_for(volume, on, Class::Clash, None, key, &mut blockers) {
        return held(blockers);
    }
    Tried::ends(Status::SharingViolation)
}
