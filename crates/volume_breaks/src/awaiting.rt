//! The breaks of oplocks that a request waits for.

ghost use Rattle.std.specs.Prelude.{◌≡◌, ◌≤◌, ◌<◌, ◌+◌, ◌++◌, ◌∷◌, ◌==◌, [], false, AllPairs, length, map, if◌then◌else◌};
ghost use Rattle.std.specs.Vec.{vec_capacity};
ghost use Rattle.fsa_types.specs.OplockLists.{awaited_among, number_of_break};
ghost use Rattle.fsa_types.specs.Oplocks.{is_awaited};
ghost use Rattle.fsa_types.specs.declared.reply.Blocker.TheVariants.{Break};

use crate::finding::number_of_break;
use fsa_types::{Blocker, BlockerList, Class};
use volume_rows::{OplockRow, is_awaited};

// Sets aside the number of the break of an oplock, where a request of this class waits for it.
fn await_one(oplocks: &[OplockRow], oplock: &OplockRow, class: Class, waited: &mut Vec<u64>)
    requires differ { AllPairs (λ a b. (a.handle == b.handle) ≡ false) oplocks.now }
    requires room { length waited.old.items < vec_capacity waited.old }
    ensures waited { waited.new.items ≡ (if is_awaited class oplock.now.level oplock.now.target then waited.old.items ++ number_of_break oplocks.now oplock.now.handle ∷ [] else waited.old.items) }
    ensures few { length waited.new.items ≤ length waited.old.items + 1 }
    ensures room { vec_capacity waited.old ≤ vec_capacity waited.new }
{
    if is_awaited(class, oplock.level, oplock.target) {
        let Ok(()) = waited.push(number_of_break(oplocks, oplock.handle)) else {
            unreachable!()
        };
    }
}

/// Sets aside the numbers of the breaks that a request of this class waits for, in order, of the
/// oplocks that were chosen, as they were before. There has to be room for as many. It takes no memory.
pub fn await_breaks(
    oplocks: &[OplockRow],
    chosen: &[OplockRow],
    class: Class,
    waited: &mut Vec<u64>,
)
    requires differ { AllPairs (λ a b. (a.handle == b.handle) ≡ false) oplocks.now }
    requires room { length chosen.now ≤ vec_capacity waited.old }
    ensures waited { waited.new.items ≡ awaited_among class chosen.now oplocks.now }
    ensures few { length waited.new.items ≤ length chosen.now }
    ensures room { vec_capacity waited.old ≤ vec_capacity waited.new }
{
    waited.clear();
    for oplock in chosen {
        await_one(oplocks, oplock, class, waited);
    }
}

/// Puts breaks of these numbers into an empty list that has room for them.
pub fn push_breaks(numbers: &[u64], into: &mut BlockerList)
    requires empty { into.old.items ≡ [] }
    requires room { length numbers.now ≤ into.old.room }
    ensures { into.new ≡ record into.old { items = map (λ number. Break number) numbers.now } }
{
    for number in numbers {
        into.push(Blocker::Break(*number));
    }
}
