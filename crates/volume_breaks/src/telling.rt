//! What a break does to the oplocks that were chosen, and whom it tells, after [MS-FSA] 'Algorithm to Check for
//! an Oplock Break'.

ghost use Rattle.std.specs.Prelude.{◌≡◌, ◌≤◌, ◌<◌, ◌+◌, ◌++◌, ◌^◌, All, length};
ghost use Rattle.fsa_types.specs.OplockLists.{CanHave, IsCopy, IsSoundOplock, after_breaks, after_effect, effect_on};
ghost use Rattle.volume_breaks.specs.Oplocks.{state_of};
ghost use Rattle.volume_breaks.specs.Told.{told_all, told_by_effect, told_of};
ghost use Rattle.volume_rows.specs.Effects.{effect_of};

use crate::oplock_list::Oplocks;
use fsa_types::{Class, Level};
use volume_rows::{BreakEffect, OplockRow, effect};

/// Whom a break tells, and what.
#[derive(Clone, Copy)]
pub struct Told {
    /// The handle.
    pub handle: u64,
    /// The level that may stay.
    pub level: Level,
    /// Whether that has to be acknowledged.
    pub ack: bool,
    /// The turn of the call that was pending as granted, if there was one: it ends with this.
    pub call: Option<u64>,
}

// What the effect on an oplock does.
fn apply(oplocks: &mut Oplocks, oplock: OplockRow, done: BreakEffect)
    requires room { length oplocks.old.told < length oplocks.old.chosen }
    requires numbers { oplocks.old.last + 1 < 2 ^ 64 }
    requires fits { CanHave (effect_of done) oplock.handle oplocks.old.rows }
    ensures oplocks { state_of oplocks.new ≡ after_effect (effect_of done) oplock.handle (state_of oplocks.old) }
    ensures others { oplocks.new ≡ record oplocks.old { rows = oplocks.new.rows; last = oplocks.new.last; told = oplocks.new.told } }
    ensures numbers { oplocks.new.last ≤ oplocks.old.last + 1 }
    ensures told { oplocks.new.told ≡ oplocks.old.told ++ told_by_effect oplock (effect_of done) }
    ensures few { length oplocks.new.told ≤ length oplocks.old.told + 1 }
{
    let OplockRow { handle, call, .. } = oplock;
    match done {
        BreakEffect::Stays => {}
        BreakEffect::Ends => {
            oplocks.drop_of(handle);
            oplocks.tell(Told {
                handle,
                level: Level::Nil,
                ack: false,
                call,
            });
        }
        BreakEffect::Begins(level) => {
            oplocks.begin_break(handle, level);
            oplocks.tell(Told {
                handle,
                level,
                ack: true,
                call,
            });
        }
        BreakEffect::Lowers(level) => oplocks.lower(handle, level),
    }
}

// Breaks an oplock, as a request of this class does.
fn break_one(oplocks: &mut Oplocks, class: Class, oplock: OplockRow)
    requires room { length oplocks.old.told < length oplocks.old.chosen }
    requires numbers { oplocks.old.last + 1 < 2 ^ 64 }
    requires sound { IsSoundOplock oplock }
    requires copy { IsCopy oplocks.old.rows oplock }
    ensures oplocks { state_of oplocks.new ≡ after_effect (effect_on class oplock) oplock.handle (state_of oplocks.old) }
    ensures others { oplocks.new ≡ record oplocks.old { rows = oplocks.new.rows; last = oplocks.new.last; told = oplocks.new.told } }
    ensures numbers { oplocks.new.last ≤ oplocks.old.last + 1 }
    ensures told { oplocks.new.told ≡ oplocks.old.told ++ told_of class oplock }
    ensures few { length oplocks.new.told ≤ length oplocks.old.told + 1 }
{
    let done = effect(class, oplock.level, oplock.target);
    apply(oplocks, oplock, done);
}

/// Breaks the oplocks that were chosen, one after the other, as a request of this class does, and puts by who
/// is told. They have to be copies of those that are there.
pub fn break_oplocks(oplocks: &mut Oplocks, class: Class)
    requires numbers { oplocks.old.last + length oplocks.old.chosen < 2 ^ 64 }
    requires sound { All IsSoundOplock oplocks.old.chosen }
    requires copies { All (IsCopy oplocks.old.rows) oplocks.old.chosen }
    ensures oplocks { state_of oplocks.new ≡ after_breaks class (state_of oplocks.old) oplocks.old.chosen }
    ensures others { oplocks.new ≡ record oplocks.old { rows = oplocks.new.rows; last = oplocks.new.last; told = oplocks.new.told } }
    ensures told { oplocks.new.told ≡ told_all class oplocks.old.chosen }
{
    oplocks.tell_nobody();
    for place in 0..oplocks.chosen_len() {
        let oplock = oplocks.chosen_at(place);
        break_one(oplocks, class, oplock);
    }
}
