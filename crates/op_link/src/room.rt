//! The room that a new name takes before it changes anything.

ghost use Rattle.std.specs.Prelude.{◌≡◌, ◌≤◌, ◌<◌, ◌+◌, ◌*◌, ◌^◌, None, IfOk, IfSome, OnOk};
ghost use Rattle.std.specs.Option.{option_map_or};
ghost use Rattle.fsa_model.specs.Changes.{units_noted, dirs_noted};
ghost use Rattle.op_link.specs.Conditions.{HasBreaksRoom, HasNameRoom, HasRenameRoom, HasReplaceRoom};
ghost use Rattle.op_parts.specs.Room.{HasWaitRoom};
ghost use Rattle.volume_state.specs.Paths.{units_noted_in, dirs_in};
ghost use Rattle.volume_state.specs.Room.{KeepsEnds};

use fsa_types::{BlockerList, NoMemory};
use op_parts::room_to_wait;
use std::alloc::Global;
use volume_state::{Need, NoteRoom, Volume};

/// Takes the room for a link of this directory, whose name has so many units, and for a note of it.
/// `NoMemory` where there is none.
pub fn room_to_add(volume: &mut Volume, dir: u64, units: u64) -> Result<(), NoMemory>
    ensures content { volume.new.content ≡ volume.old.content }
    ensures ends { KeepsEnds volume.old volume.new }
    ensures room { OnOk result (HasNameRoom volume.new.content volume.new.spare dir units) }
{
    let Some(note) = volume.note_room_in(dir, units) else {
        return Err(NoMemory);
    };
    volume.reserve(&Need {
        links: 1,
        changes: 1,
        units: note.units,
        dirs: note.dirs,
        parent: dir,
        ..Need::nothing()
    })
}

// The room for a link of this directory, and for a note of it and one of the link that it replaces.
fn need_to_replace(volume: &Volume, replaced: u64, dir: u64, units: u64) -> Option<Need>
    ensures units { IfSome result (λ need. need.units ≡ units_noted volume.now.content replaced None + units_noted_in volume.now.content dir units) }
    ensures dirs { IfSome result (λ need. need.dirs ≡ dirs_noted volume.now.content replaced None + dirs_in volume.now.content dir) }
    ensures rows { IfSome result (λ need. (need.links ≡ 1) × (need.parent ≡ dir) × (need.changes ≡ 2) × (need.pending ≡ 0) × (need.ends ≡ 0)) }
{
    let gone = volume.note_room(replaced, None)?;
    let new = volume.note_room_in(dir, units)?;
    Some(Need {
        links: 1,
        changes: 2,
        units: gone.units.checked_add(new.units)?,
        dirs: gone.dirs + new.dirs,
        parent: dir,
        ..Need::nothing()
    })
}

/// Takes the same room, and with it that for a note of the link that is replaced, for the ends that a break
/// may tell, and for a call that is held. `NoMemory` where there is none.
pub fn room_to_replace(
    alloc: Global,
    volume: &mut Volume,
    replaced: u64,
    dir: u64,
    units: u64,
) -> Result<BlockerList, NoMemory>
    ensures content { volume.new.content ≡ volume.old.content }
    ensures ends { KeepsEnds volume.old volume.new }
    ensures wait { IfOk result (λ blockers. HasWaitRoom volume.new.content volume.new.spare blockers) }
    ensures room { OnOk result (HasReplaceRoom volume.new.content volume.new.spare replaced dir units) }
{
    let Some(need) = need_to_replace(volume, replaced, dir, units) else {
        return Err(NoMemory);
    };
    let blockers = room_to_wait(alloc, volume, &need)?;
    Ok(blockers)
}

// The room for a note of a link, where there is one.
fn note_of(volume: &Volume, link: Option<u64>) -> Option<NoteRoom>
    ensures units { IfSome result (λ room. room.units ≡ option_map_or (λ r. units_noted volume.now.content r None) link 0) }
    ensures dirs { IfSome result (λ room. room.dirs ≡ option_map_or (λ r. dirs_noted volume.now.content r None) link 0) }
    ensures few { IfSome result (λ room. room.dirs ≤ 2 ^ 32) }
{
    match link {
        None => Some(NoteRoom { units: 0, dirs: 0 }),
        Some(link) => volume.note_room(link, None),
    }
}

// The room for a link that moves to this directory, noted before and after, for a note of the link that is
// replaced, and for three breaks.
fn need_to_rename(
    volume: &Volume,
    replaced: Option<u64>,
    link: u64,
    dir: u64,
    units: u64,
    oplocks: u32,
) -> Option<Need>
    ensures units { IfSome result (λ need. need.units ≡ option_map_or (λ r. units_noted volume.now.content r None) replaced 0 + (units_noted volume.now.content link None + units_noted_in volume.now.content dir units)) }
    ensures dirs { IfSome result (λ need. need.dirs ≡ option_map_or (λ r. dirs_noted volume.now.content r None) replaced 0 + (dirs_noted volume.now.content link None + dirs_in volume.now.content dir)) }
    ensures rows { IfSome result (λ need. (need.links ≡ 1) × (need.parent ≡ dir) × (need.changes ≡ 3) × (need.pending ≡ 1) × (need.blockers ≡ oplocks) × (need.ends ≡ 3 * oplocks)) }
{
    let gone = note_of(volume, replaced)?;
    let old = volume.note_room(link, None)?;
    let new = volume.note_room_in(dir, units)?;
    let moved = old.units.checked_add(new.units)?;
    Some(Need {
        links: 1,
        changes: 3,
        units: gone.units.checked_add(moved)?,
        dirs: gone.dirs + (old.dirs + new.dirs),
        parent: dir,
        pending: 1,
        blockers: oplocks,
        ends: oplocks.checked_mul(3)?,
        ..Need::nothing()
    })
}

/// Takes the room for a link that moves to this directory, whose new name has so many units, noted before and
/// after, for a note of the link that is replaced, where there is one, for the ends that three breaks may tell,
/// and for a call that is held. `NoMemory` where there is none.
pub fn room_to_rename(
    alloc: Global,
    volume: &mut Volume,
    replaced: Option<u64>,
    link: u64,
    dir: u64,
    units: u64,
) -> Result<BlockerList, NoMemory>
    requires numbers { volume.old.content.last_break < 2 ^ 62 }
    ensures content { volume.new.content ≡ volume.old.content }
    ensures ends { KeepsEnds volume.old volume.new }
    ensures breaks { IfOk result (λ blockers. HasBreaksRoom volume.new.content volume.new.spare blockers 3) }
    ensures room { OnOk result (HasRenameRoom volume.new.content volume.new.spare replaced link dir units) }
{
    let oplocks = volume.oplocks();
    let blockers = BlockerList::with_room(alloc, oplocks)?;
    let Some(need) = need_to_rename(volume, replaced, link, dir, units, oplocks) else {
        return Err(NoMemory);
    };
    volume.reserve(&need)?;
    Ok(blockers)
}
