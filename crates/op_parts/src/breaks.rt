//! The break of oplocks by a request, and a call that is held.

ghost use Rattle.std.specs.Prelude.{◌≡◌, ◌≤◌, ◌<◌, ◌+◌, ◌^◌, length, map};
ghost use Rattle.fsa_types.specs.declared.reply.Blocker.TheVariants.{Break};
ghost use Rattle.fsa_model.specs.Breaks.{awaited, with_breaks};
ghost use Rattle.fsa_model.specs.Waits.{waits_for};
ghost use Rattle.op_parts.specs.Room.{HasWaitRoom};
ghost use Rattle.volume_state.specs.Room.{KeepsEnds};

use fsa_types::{BlockerList, Interim};
use volume_state::{Class, HandleSet, Tried, Volume};

/// Breaks the oplocks of the handles of the set, as a request of this class with this key does, through
/// the acting handle where it has one; a Create has none yet. Answers whether the request has to wait,
/// and puts what it waits for into the list.
///
/// The room for it has to be taken, and numbers have to be left for breaks. Of the room for ends it uses
/// no more than one for each call that ends.
pub fn break_for(
    volume: &mut Volume,
    on: HandleSet,
    class: Class,
    handle: Option<u64>,
    key: u64,
    blockers: &mut BlockerList,
) -> bool
    requires room { HasWaitRoom volume.old.content volume.old.spare blockers.old }
    requires numbers { volume.old.content.last_break < 2 ^ 63 }
    ensures content { volume.new.content ≡ with_breaks volume.old.content on class handle key }
    ensures rest { volume.new.content ≡ record volume.old.content { oplocks = volume.new.content.oplocks; pending = volume.new.content.pending; ended = volume.new.content.ended; last_break = volume.new.content.last_break } }
    ensures spare { volume.new.spare ≡ record volume.old.spare { ends = volume.new.spare.ends } }
    ensures ends { KeepsEnds volume.old volume.new }
    ensures waits { result ≡ waits_for volume.old.content on class handle key }
    ensures blockers { blockers.new.items ≡ map Break (awaited volume.old.content on class handle key) }

    // So that one break can follow another.
    ensures list { blockers.new.room ≡ blockers.old.room }
    ensures left { volume.old.spare.ends ≤ volume.new.spare.ends + length volume.old.content.oplocks }
    ensures few { length volume.new.content.oplocks ≤ length volume.old.content.oplocks }
    ensures last { volume.new.content.last_break ≤ volume.old.content.last_break + length volume.old.content.oplocks }
{
    let count = volume.begin(on, class, handle, key);
    volume.waited(blockers);
    count != 0
}

/// The call is held until these have ended.
pub fn held(blockers: BlockerList) -> Tried
    ensures { result ≡ Tried.Hold blockers Interim.Held }
{
    Tried::Hold {
        blockers,
        interim: Interim::Held,
    }
}
