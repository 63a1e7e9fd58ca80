//! The break of oplocks by a new name.

ghost use Rattle.std.specs.Prelude.{◌≡◌, ◌≤◌, ◌+◌, [], Some, false, length, map};
ghost use Rattle.fsa_types.specs.declared.oplock.Class.TheVariants.{NameChange};
ghost use Rattle.fsa_types.specs.declared.reply.Blocker.TheVariants.{Break};
ghost use Rattle.fsa_model.specs.Breaks.{awaited};
ghost use Rattle.fsa_model.specs.Replacement.{waits_to_name, with_name_breaks};
ghost use Rattle.op_link.specs.Conditions.{HasBreaksRoom};
ghost use Rattle.volume_state.specs.Room.{KeepsEnds};

use crate::naming::Named;
use fsa_types::BlockerList;
use op_parts::break_for;
use volume_state::{Class, HandleSet, Volume};

/// Breaks the oplocks of the handles of the set, as a new name does. Answers whether the call has to wait, and
/// puts what it waits for into the list. There has to be room for one break.
pub fn break_to_name(
    volume: &mut Volume,
    named: &Named,
    on: HandleSet,
    blockers: &mut BlockerList,
) -> bool
    requires room { HasBreaksRoom volume.old.content volume.old.spare blockers.old 1 }
    ensures content { volume.new.content ≡ with_name_breaks volume.old.content named.now on }
    ensures rest { volume.new.content ≡ record volume.old.content { oplocks = volume.new.content.oplocks; pending = volume.new.content.pending; ended = volume.new.content.ended; last_break = volume.new.content.last_break } }
    ensures spare { volume.new.spare ≡ record volume.old.spare { ends = volume.new.spare.ends } }
    ensures ends { KeepsEnds volume.old volume.new }
    ensures waits { result ≡ waits_to_name volume.old.content named.now on }
    ensures blockers { blockers.new.items ≡ map Break (awaited volume.old.content on NameChange (Some named.now.handle) named.now.key) }
    ensures held { length blockers.new.items ≤ volume.old.spare.blockers }
    ensures none { result ≡ false → blockers.new.items ≡ [] }
    ensures list { blockers.new.room ≡ blockers.old.room }
    ensures left { volume.old.spare.ends ≤ volume.new.spare.ends + length volume.old.content.oplocks }
    ensures few { length volume.new.content.oplocks ≤ length volume.old.content.oplocks }
    ensures numbers { volume.new.content.last_break ≤ volume.old.content.last_break + length volume.old.content.oplocks }
{
    let _oplocks = volume.oplocks();
    let (acting, key) = (Some(named.handle()), named.key());
    break_for(volume, on, Class::NameChange, acting, key, blockers)
}
