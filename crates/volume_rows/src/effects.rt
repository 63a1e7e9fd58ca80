//! Levels of oplocks, and what a class of requests does to one oplock, after [MS-FSA] 'Algorithm to
//! Check for an Oplock Break'.

ghost use Rattle.std.specs.Prelude.{◌≡◌, ◌&&◌, ◌||◌, ◌==◌, not, None};
ghost use Rattle.fsa_types.specs.Oplocks.{effect, has_handle, has_read, has_write, in_both, is_awaited, is_same_key, is_within, keep, level_with, loses, waits_for_handles};
ghost use Rattle.volume_rows.specs.Effects.{effect_of};

use fsa_types::{Class, Level};

/// What a class of requests does to an oplock.
#[derive(Clone, Copy)]
pub enum BreakEffect {
    /// Nothing.
    Stays,
    /// It ends, and its holder is told that nothing is left.
    Ends,
    /// A break to this level begins; its holder is told so and has to answer.
    Begins(Level),
    /// The break in progress goes on to this level, and nobody is told.
    Lowers(Level),
}

/// Whether a level has read caching.
pub fn has_read(level: Level) -> bool
    ensures { result ≡ has_read level }
{
    match level {
        Level::Nil => false,
        Level::R => true,
        Level::RH => true,
        Level::RW => true,
        Level::RWH => true,
    }
}

/// Whether it has write caching.
pub fn has_write(level: Level) -> bool
    ensures { result ≡ has_write level }
{
    match level {
        Level::Nil => false,
        Level::R => false,
        Level::RH => false,
        Level::RW => true,
        Level::RWH => true,
    }
}

// Whether it has handle caching.
fn has_handle(level: Level) -> bool
    ensures { result ≡ has_handle level }
{
    match level {
        Level::Nil => false,
        Level::R => false,
        Level::RH => true,
        Level::RW => false,
        Level::RWH => true,
    }
}

// The level with read caching and, as said, write and handle caching.
fn level_with(write: bool, handle: bool) -> Level
    ensures { result ≡ level_with write handle }
{
    match (write, handle) {
        (true, true) => Level::RWH,
        (true, false) => Level::RW,
        (false, true) => Level::RH,
        (false, false) => Level::R,
    }
}

/// What is in both levels.
pub fn in_both(a: Level, b: Level) -> Level
    ensures { result ≡ in_both a b }
{
    if has_read(a) && has_read(b) {
        level_with(has_write(a) && has_write(b), has_handle(a) && has_handle(b))
    } else {
        Level::Nil
    }
}

/// Whether all that is in the first level is in the second.
pub fn is_within(a: Level, b: Level) -> bool
    ensures { result ≡ is_within a b }
{
    (!has_read(a) || has_read(b))
        && (!has_write(a) || has_write(b))
        && (!has_handle(a) || has_handle(b))
}

// What a class leaves.
fn keep(class: Class) -> Level
    ensures { result ≡ keep class }
{
    match class {
        Class::Clash => Level::RW,
        Class::NameChange => Level::RW,
        Class::ReadOpen => Level::RH,
        Class::Change => Level::Nil,
    }
}

// Whether a class waits for handle caching to be given up.
fn waits_for_handles(class: Class) -> bool
    ensures { result ≡ waits_for_handles class }
{
    match class {
        Class::Clash => true,
        Class::NameChange => true,
        Class::ReadOpen => false,
        Class::Change => false,
    }
}

/// Whether two handles have the same key: they are one handle, or their keys are equal and not 0.
pub fn is_same_key(handle: u64, key: u64, other: Option<u64>, other_key: u64) -> bool
    ensures { result ≡ is_same_key handle key other other_key }
{
    other == Some(handle) || (key == other_key && key != 0)
}

/// What a class does to an oplock of this level, with this target where a break is in progress.
pub fn effect(class: Class, level: Level, target: Option<Level>) -> BreakEffect
    ensures { effect_of result ≡ effect class level target }
{
    match target {
        Some(target) => BreakEffect::Lowers(in_both(target, keep(class))),
        None => first_effect(class, level),
    }
}

// The same where no break is in progress.
fn first_effect(class: Class, level: Level) -> BreakEffect
    ensures { effect_of result ≡ effect class level None }
{
    if is_within(level, keep(class)) {
        BreakEffect::Stays
    } else if is_within(level, Level::R) {
        BreakEffect::Ends
    } else {
        BreakEffect::Begins(in_both(level, keep(class)))
    }
}

// Whether a level loses write caching, or handle caching to a class that waits for that.
fn loses(class: Class, level: Level) -> bool
    ensures { result ≡ loses class level }
{
    let kept = keep(class);
    (has_write(level) && !has_write(kept))
        || (waits_for_handles(class) && has_handle(level) && !has_handle(kept))
}

/// Whether a request of this class waits for the break of such an oplock: the level loses something,
/// or a break is in progress whose target isn't within what the class leaves.
pub fn is_awaited(class: Class, level: Level, target: Option<Level>) -> bool
    ensures { result ≡ is_awaited class level target }
{
    match target {
        Some(told) => loses(class, level) || !is_within(told, keep(class)),
        None => loses(class, level),
    }
}
