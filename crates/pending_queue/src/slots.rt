//! Items linked by the slots of their numbers: each to the last one before it that has its slot, and a head for each
//! slot.

ghost use Rattle.std.specs.Prelude.{◌≡◌, set};
ghost use Rattle.pending_queue.specs.Waits.{end_of, slot};

/// The slot of a number among so many: below `many`, and 0 where there are none.
pub fn slot_of(many: usize, number: u64) -> usize
    ensures { result ≡ slot many number }
{
    if many == 0 {
        0
    } else {
        (number % many as u64) as usize
    }
}

/// What `heads` has for this slot: one more than the place of its last item, 0 where none has it. `many` where it has
/// nothing for the slot.
pub fn end_of(heads: &[usize], own: usize, many: usize) -> usize
    ensures { result ≡ end_of heads.now own many }
{
    match heads.get(own) {
        None => many,
        Some(head) => *head,
    }
}

/// `heads` has this for the slot then; nothing changes where it has nothing for it.
pub fn set_head(heads: &mut Vec<usize>, own: usize, end: usize)
    ensures { heads.new.items ≡ set heads.old.items own end }
{
    if own < heads.len() {
        heads[own] = end;
    }
}
