//! The calls of `machine_example` with ample memory, how a call ended, and a full history.

ghost use Rattle.machine_example.specs.Asks.{CanBeMade};

use fsa_types::{Call, Status, What, Why};
use machine_example::{
    KeptAnswer, WaitingLock, answer_in_room, ask, lock_that_waits, tick_times,
    tries_of_a_lock_that_waits_twice, two_clients,
};
use std::alloc::Global;
use std::marker::Brand;
use std::sync::ledger::Blank;
use std::test::Fail;

#[test]
fn a_waiting_lock_is_granted_in_the_turn_of_the_unlock(rt: HostRuntime) -> Result<(), Fail> {
    let Ok(told) = lock_that_waits(rt.alloc()) else {
        return Err(Fail::from("a turn was refused"));
    };
    assert_eq!(rt;
        told,
        WaitingLock {
            first: Some(Status::Success),
            waited: true,
            second: Some(Status::Success),
        }
    );
    Ok(())
}

#[test]
fn a_break_is_answered_and_the_answer_cancelled_in_room(rt: HostRuntime) -> Result<(), Fail> {
    let Ok(told) = answer_in_room(rt.alloc()) else {
        return Err(Fail::from("a turn was refused"));
    };
    assert_eq!(rt;
        told,
        KeptAnswer {
            granted: true,
            opened: Some(Status::SharingViolation),
            cancelled: Some(Status::Success),
            answer: Some(Status::Cancelled),
            turns: 5,
        }
    );
    Ok(())
}

// Eight turns try their own calls, and the lock that waits is tried twice more.
#[test]
fn each_try_is_one_step(rt: HostRuntime) -> Result<(), Fail> {
    let Ok(tries) = tries_of_a_lock_that_waits_twice::<Brand>(rt.alloc(), Blank::new(1)) else {
        return Err(Fail::from("a turn was refused"));
    };
    assert_eq!(rt; tries, 10);
    Ok(())
}

// How the first call of a client ended, asked of the machine later; `None` where it is pending.
fn first_reply(alloc: Global, what: What) -> Result<Option<Status>, Fail>
    requires can_be_made { CanBeMade what }
{
    let Ok(mut machine) = two_clients(alloc) else {
        return Err(Fail::from("no machine was made"));
    };
    let Ok(_out) = ask(alloc, &mut machine, 0, what) else {
        return Err(Fail::from("the turn was refused"));
    };
    let Ok(reply) = machine.reply_of(alloc, 0, 1) else {
        return Err(Fail::from("there was no memory for the reply"));
    };
    Ok(reply.map(|reply| reply.status))
}

#[test]
fn a_call_that_has_ended_has_its_reply(rt: HostRuntime) -> Result<(), Fail> {
    assert_eq!(rt;
        first_reply(rt.alloc(), What::Tick(3))?,
        Some(Status::Success)
    );
    assert_eq!(rt;
        first_reply(rt.alloc(), What::WaitFor(1))?,
        Some(Status::InvalidParameter)
    );
    Ok(())
}

// A history has 1,000,000 turns at most; the call of the next one is handed back. The toolchain's unproved run
// takes longer for it than a test may.
#[test]
fn a_full_history_hands_the_next_call_back(rt: HostRuntime) -> Result<(), Fail> {
    let alloc = rt.alloc();
    let Ok(mut machine) = two_clients(alloc) else {
        return Err(Fail::from("no machine was made"));
    };
    let Ok(()) = tick_times(alloc, &mut machine, 0, 1_000_000) else {
        return Err(Fail::from("a turn was refused"));
    };
    let call = Call {
        client: 0,
        number: 1_000_001,
        what: What::Tick(1),
    };
    let Err((back, Why::HistoryFull)) = machine.turn(alloc, call) else {
        return Err(Fail::from("the history isn't full"));
    };
    assert_eq!(rt; (back.client, back.number), (0, 1_000_001));
    assert_eq!(rt; machine.len(), 1_000_000);
    Ok(())
}
