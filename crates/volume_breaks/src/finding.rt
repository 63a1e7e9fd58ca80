//! Where the oplock of a handle stands among others.

ghost use Rattle.std.specs.Prelude.{◌≡◌, ◌==◌, false, AllPairs, position};
ghost use Rattle.fsa_types.specs.OplockLists.{number_of_break};
ghost use Rattle.volume_breaks.specs.Oplocks.{is_handle_at};

use volume_rows::{OplockRow, is_oplock_of};

// Whether the oplock at this place is of this handle.
fn is_handle_at(oplocks: &[OplockRow], place: usize, handle: u64) -> bool
    ensures { result ≡ is_handle_at oplocks.now place handle }
{
    match oplocks.get(place) {
        None => false,
        Some(oplock) => oplock.handle == handle,
    }
}

/// The place of the oplock of this handle, of which there is at most one. It is found by halves where the oplocks stand
/// in the order in which their handles were opened, and mostly where only a few don't; else by a look at each.
pub fn place_of(oplocks: &[OplockRow], handle: u64) -> Option<usize>
    requires differ { AllPairs (λ a b. (a.handle == b.handle) ≡ false) oplocks.now }
    ensures { result ≡ position (λ oplock. oplock.handle == handle) oplocks.now }
{
    let place = oplocks.partition_point(|oplock| oplock.handle < handle);
    if is_handle_at(oplocks, place, handle) {
        return Some(place);
    }
    oplocks
        .iter()
        .position(|oplock| is_oplock_of(oplock, handle))
}

/// The number of the break in progress on a handle; 0 where there is none.
pub fn number_of_break(oplocks: &[OplockRow], handle: u64) -> u64
    requires differ { AllPairs (λ a b. (a.handle == b.handle) ≡ false) oplocks.now }
    ensures { result ≡ number_of_break oplocks.now handle }
{
    match place_of(oplocks, handle) {
        None => 0,
        Some(place) => {
            let oplock = oplocks[place];
            oplock.number
        }
    }
}
