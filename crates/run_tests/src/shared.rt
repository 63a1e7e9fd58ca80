//! Three clients at one volume, by three passes on one thread, with ample memory.
ghost use Rattle.std.specs.Prelude.{◌≡◌, length, IfSome};
ghost use Rattle.history_lock.specs.Lock.{known};
ghost use Rattle.history_laws.specs.CallAnswers.{CanAsk};
ghost use Rattle.shared_volume.specs.Shared.{IsPass, setup_at};

use fsa_machine::VolumeMachine;
use fsa_types::{Answer, Poll, Status, Submitted, What};
use machine_example::{close_first, lock_by_first, open_shared, setup_of_three, unlock_by_first};
use shared_volume::{Pass, SharedVolume};
use std::alloc::Global;
use std::test::Fail;

// A volume with the passes of three clients.
fn started(alloc: Global) -> Option<(SharedVolume, Pass, Pass, Pass)>
    ensures three { IfSome result (λ r. length (setup_at r.0).clients ≡ 3) }
    ensures first { IfSome result (λ r. IsPass r.0 r.1 × ((known r.1).own.client ≡ 0)) }
    ensures second { IfSome result (λ r. IsPass r.0 r.2 × ((known r.2).own.client ≡ 1)) }
    ensures third { IfSome result (λ r. IsPass r.0 r.3 × ((known r.3).own.client ≡ 2)) }
{
    let Ok(setup) = setup_of_three(alloc) else {
        return None;
    };
    let Ok((volume, mut passes)) = SharedVolume::start(alloc, setup) else {
        return None;
    };
    let third = passes.pop()?;
    let second = passes.pop()?;
    let first = passes.pop()?;
    Some((volume, first, second, third))
}

// Closes a volume with the passes of three clients.
fn closed(
    alloc: Global,
    volume: SharedVolume,
    first: Pass,
    second: Pass,
    third: Pass,
) -> Option<VolumeMachine>
    requires three { length (setup_at volume).clients ≡ 3 }
    requires first { IsPass volume first × ((known first).own.client ≡ 0) }
    requires second { IsPass volume second × ((known second).own.client ≡ 1) }
    requires third { IsPass volume third × ((known third).own.client ≡ 2) }
{
    let mut passes = Vec::with_capacity(alloc, 3).ok()?;
    passes.push_reserved(first);
    passes.push_reserved(second);
    passes.push_reserved(third);
    Some(volume.close(passes))
}

// The status with which the next call of a pass ends at once, or `Pending`.
fn asked(alloc: Global, volume: &SharedVolume, pass: &mut Pass, what: What) -> Option<Status>
    requires pass { IsPass volume.now pass.old }
    requires can { CanAsk what }
    ensures pass { IsPass volume.now pass.new }
    ensures client { (known pass.new).own.client ≡ (known pass.old).own.client }
{
    match volume.try_submit(alloc, pass, what) {
        Submitted::Did(_, Answer::Ended(reply)) => Some(reply.status),
        Submitted::Did(_, Answer::Pending(_)) => Some(Status::Pending),
        _ => None,
    }
}

// How the pass's own call of this number stands.
fn stands(alloc: Global, volume: &SharedVolume, pass: &mut Pass, number: u32) -> Option<Status>
    requires { IsPass volume.now pass.old }
    ensures pass { IsPass volume.now pass.new }
    ensures client { (known pass.new).own.client ≡ (known pass.old).own.client }
{
    if number == 0 || number > pass.made() {
        return None;
    }
    match volume.poll(alloc, pass, number) {
        Poll::Done(reply) => Some(reply.status),
        Poll::Pending => Some(Status::Pending),
        _ => None,
    }
}

// Opens the file by the pass's first call.
fn opened(alloc: Global, volume: &SharedVolume, pass: &mut Pass) -> Option<Status>
    requires { IsPass volume.now pass.old }
    ensures pass { IsPass volume.now pass.new }
    ensures client { (known pass.new).own.client ≡ (known pass.old).own.client }
{
    let open = open_shared(alloc).ok()?;
    asked(alloc, volume, pass, open)
}

// Three clients open one file and lock ranges of it. The lock of the second waits for those of the others: so
// it stands after its own turn, after the unlock of the first, and after the close of the third.
fn lock_that_waits_for_two(
    alloc: Global,
    volume: &SharedVolume,
    first: &mut Pass,
    second: &mut Pass,
    third: &mut Pass,
) -> [Option<Status>; 11]
    requires first { IsPass volume.now first.old }
    requires second { IsPass volume.now second.old }
    requires third { IsPass volume.now third.old }
    ensures first { IsPass volume.now first.new × ((known first.new).own.client ≡ (known first.old).own.client) }
    ensures second { IsPass volume.now second.new × ((known second.new).own.client ≡ (known second.old).own.client) }
    ensures third { IsPass volume.now third.new × ((known third.new).own.client ≡ (known third.old).own.client) }
{
    [
        opened(alloc, volume, first),
        opened(alloc, volume, second),
        opened(alloc, volume, third),
        asked(alloc, volume, first, lock_by_first(0, 10, true, false)),
        asked(alloc, volume, second, lock_by_first(0, 20, true, true)),
        stands(alloc, volume, second, 2),
        asked(alloc, volume, third, lock_by_first(15, 5, false, false)),
        asked(alloc, volume, first, unlock_by_first()),
        stands(alloc, volume, second, 2),
        asked(alloc, volume, third, close_first()),
        stands(alloc, volume, second, 2),
    ]
}

#[test]
fn three_passes_on_one_thread(rt: HostRuntime) -> Result<(), Fail> {
    let alloc: Global = rt.alloc();
    let (volume, mut first, mut second, mut third) = started(alloc).ok_or("memory")?;
    let told = lock_that_waits_for_two(alloc, &volume, &mut first, &mut second, &mut third);
    let done = Some(Status::Success);
    let waits = Some(Status::Pending);
    assert_eq!(rt;
        told,
        [
            done, done, done, done, waits, waits, done, done, waits, done, done
        ]
    );
    assert_eq!(rt; volume.front(&mut first), 8);
    assert_eq!(rt; volume.front(&mut second), 8);
    assert_eq!(rt; volume.front(&mut third), 8);
    assert_eq!(rt;
        volume.wait_for(&rt, alloc, &mut second, 2),
        Ok(Status::Success)
    );
    assert_eq!(rt;
        volume.wait_for(&rt, alloc, &mut first, 7),
        Ok(Status::InvalidParameter)
    );
    assert!(rt; volume.submit(&rt, alloc, &mut third, What::Leave).is_ok());
    let machine = closed(alloc, volume, first, second, third).ok_or("memory")?;
    assert_eq!(rt; machine.len(), 11);
    Ok(())
}
