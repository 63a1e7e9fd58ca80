//! The lists that a turn gives out, and those that stand by where there is no memory for short ones.

ghost use Rattle.std.specs.Prelude.{◌≡◌, ◌≤◌, [], length, IfNone, IfOk, IfSome, OnSome};
ghost use Rattle.fsa_machine.specs.Spare.{AreGiven, AreLists, StandBy};

use crate::ends::EndLists;
use fsa_types::{CallId, CallIdList, EndList, NoMemory};
use std::alloc::Global;

/// Empty lists with room for all that one turn may give out, for the caller and for the history, and for the waits.
#[derive(Drop)]
pub struct TurnLists {
    /// The ends that are given out.
    pub given: EndList,
    /// The ends that are kept.
    pub kept: EndList,
    /// The calls that starve.
    pub starved: CallIdList,
    /// The calls that starve, to be kept.
    pub kept_starved: CallIdList,
    /// The waits.
    pub waits: CallIdList,
}

/// What a turn gives out beside its answer, for the caller and for the history.
#[derive(Drop)]
pub struct GivenLists {
    /// The ends that are given out.
    pub given: EndList,
    /// The ends that are kept.
    pub kept: EndList,
    /// The calls that starve.
    pub starved: CallIdList,
    /// The calls that starve, to be kept.
    pub kept_starved: CallIdList,
}

/// Lists with room for so many ends and calls each.
pub fn lists_with_room(alloc: Global, calls: u32) -> Result<TurnLists, NoMemory>
    ensures { IfOk result (λ lists. AreLists calls lists) }
{
    Ok(TurnLists {
        given: EndList::with_room(alloc, calls)?,
        kept: EndList::with_room(alloc, calls)?,
        starved: CallIdList::with_room(alloc, calls)?,
        kept_starved: CallIdList::with_room(alloc, calls)?,
        waits: CallIdList::with_room(alloc, calls)?,
    })
}

// These lists, where they have room for so many ends and calls each.
fn large_enough(lists: TurnLists, calls: u32) -> Option<TurnLists>
    requires lists { AreLists 0 lists }
    ensures { IfSome result (λ large. AreLists calls large) }
{
    let ends = lists.given.room();
    let starved = lists.starved.room();
    let waits = lists.waits.room();
    if calls <= ends && calls <= starved && calls <= waits {
        Some(lists)
    } else {
        None
    }
}

/// Lists with room for so many ends and calls each: those that are there, where they have it, or else new ones, with
/// room for twice as many where there is memory for these.
pub fn lists_for(alloc: Global, there: Option<TurnLists>, calls: u32) -> Result<TurnLists, NoMemory>
    requires there { IfSome there (λ lists. AreLists 0 lists) }
    ensures { IfOk result (λ lists. AreLists calls lists) }
{
    if let Some(lists) = there {
        if let Some(lists) = large_enough(lists, calls) {
            return Ok(lists);
        }
    }
    match lists_with_room(alloc, calls.saturating_mul(2)) {
        Ok(lists) => Ok(lists),
        Err(NoMemory) => lists_with_room(alloc, calls),
    }
}

// Empty lists with room for so many ends, and for so many calls that starve.
fn short_lists(alloc: Global, ends: u32, calls: u32) -> Result<GivenLists, NoMemory>
    ensures given { IfOk result (λ lists. lists.given ≡ record { items = []; room = ends }) }
    ensures kept { IfOk result (λ lists. lists.kept ≡ record { items = []; room = ends }) }
    ensures starved { IfOk result (λ lists. lists.starved ≡ record { items = []; room = calls }) }
    ensures kept_starved { IfOk result (λ lists. lists.kept_starved ≡ record { items = []; room = calls }) }
{
    Ok(GivenLists {
        given: EndList::with_room(alloc, ends)?,
        kept: EndList::with_room(alloc, ends)?,
        starved: CallIdList::with_room(alloc, calls)?,
        kept_starved: CallIdList::with_room(alloc, calls)?,
    })
}

// These calls, in an empty list that has room for them.
fn copied(calls: &[CallId], mut kept: CallIdList) -> CallIdList
    requires none { kept.items ≡ [] }
    requires room { length calls.now ≤ kept.room }
    ensures items { result.items ≡ calls.now }
    ensures room { result.room ≡ kept.room }
{
    for call in calls {
        kept.push(*call);
    }
    kept
}

// How many calls there are in a list.
fn count_of(calls: &CallIdList) -> u32
    requires few { length calls.now.items ≤ calls.now.room }
    ensures { result ≡ length calls.now.items }
{
    // `room` tells that the count is below 2^32.
    let _room = calls.room();
    calls.len() as u32
}

// The ends and these calls that starve, in short lists; `None` where there is no memory for these.
fn given_short(alloc: Global, ended: &mut EndLists, calls: &CallIdList) -> Option<GivenLists>
    requires few { length calls.now.items ≤ calls.now.room }
    ensures given { IfSome result (λ lists. AreGiven ended.old.items calls.now.items lists) }
    ensures emptied { OnSome result (ended.new ≡ record { items = []; room = ended.old.room }) }
    ensures none { IfNone result (ended.new ≡ ended.old) }
{
    let Ok(lists) = short_lists(alloc, ended.len(), count_of(calls)) else {
        return None;
    };
    let GivenLists {
        given,
        kept,
        starved,
        kept_starved,
    } = lists;
    let (given, kept) = ended.move_into(given, kept);
    let starved = copied(calls.as_slice(), starved);
    let kept_starved = copied(calls.as_slice(), kept_starved);
    Some(GivenLists {
        given,
        kept,
        starved,
        kept_starved,
    })
}

// The ends and the calls that starve, in the lists that stand by.
fn given_whole(ended: &mut EndLists, lists: TurnLists) -> GivenLists
    requires lists { StandBy (length ended.old.items) lists }
    ensures given { AreGiven ended.old.items lists.starved.items result }
    ensures emptied { ended.new ≡ record { items = []; room = ended.old.room } }
{
    let TurnLists {
        given,
        kept,
        starved,
        kept_starved,
        waits: _waits,
    } = lists;
    let (given, kept) = ended.move_into(given, kept);
    let kept_starved = copied(starved.as_slice(), kept_starved);
    GivenLists {
        given,
        kept,
        starved,
        kept_starved,
    }
}

// The lists, where neither a call that starved nor a wait stands in them.
fn still_empty(lists: TurnLists) -> Option<TurnLists>
    requires lists { StandBy 0 lists }
    ensures { IfSome result (λ empty. AreLists 0 empty) }
{
    if lists.starved.is_empty() && lists.waits.is_empty() {
        Some(lists)
    } else {
        None
    }
}

/// What a turn gives out: its ends, and the calls that starved, which stand in the lists that stood by. Where there is
/// memory for lists with just that room it is given in these, and the lists that stood by come back, unless a call that
/// starved or a wait stands in them. Else they are what is given.
pub fn give(
    alloc: Global,
    ended: &mut EndLists,
    lists: TurnLists,
) -> (GivenLists, Option<TurnLists>)
    requires lists { StandBy (length ended.old.items) lists }
    ensures given { AreGiven ended.old.items lists.starved.items result.0 }
    ensures lists { IfSome result.1 (λ empty. AreLists 0 empty) }
    ensures emptied { ended.new ≡ record { items = []; room = ended.old.room } }
{
    match given_short(alloc, ended, &lists.starved) {
        Some(given) => (given, still_empty(lists)),
        None => (given_whole(ended, lists), None),
    }
}
