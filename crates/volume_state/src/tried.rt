//! What one try of a call comes to.

ghost use Rattle.std.specs.Prelude.{◌≡◌};

use fsa_types::{BlockerList, Body, Interim, Reply, Status};

/// What one try of a call comes to.
#[derive(Drop)]
pub enum Tried {
    /// The call has ended with this reply.
    Done(Reply),
    /// The call is pending and has no blockers: an oplock that is granted, a watch.
    Stay(Interim),
    /// The call is held until all its blockers have ended, and is tried again then.
    Hold {
        /// What it waits for; never an empty list.
        blockers: BlockerList,
        /// How it is pending.
        interim: Interim,
    },
    /// There was no memory; nothing has changed.
    NoMemory,
}

impl Tried {
    /// The call ends with this status and no body.
    pub fn ends(status: Status) -> Tried
        ensures { result ≡ Tried.Done (record { status = status; body = Body.Nothing }) }
    {
        Tried::Done(Reply {
            status,
            body: Body::Nothing,
        })
    }

    /// The call succeeds with this body.
    pub fn succeeds(body: Body) -> Tried
        ensures { result ≡ Tried.Done (record { status = Status.Success; body = body }) }
    {
        Tried::Done(Reply {
            status: Status::Success,
            body,
        })
    }
}
