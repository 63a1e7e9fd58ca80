//! How a call ended.

ghost use Rattle.std.specs.Prelude.{◌≡◌, ◌<◌, ◌^◌, true, length, IfOk, OnErr};
ghost use Rattle.fsa_model.specs.Ended.{ended_with_list, holds_list, reply_in};

use crate::store::Store;
use fsa_types::{Body, NoMemory, Reply, TryCopy};
use std::alloc::Global;

// A copy of a body; there may be no memory only where it holds a list.
fn copy_body(alloc: Global, body: &Body) -> Result<Body, NoMemory>
    ensures copy { IfOk result (λ copy. copy ≡ body.now) }
    ensures no_memory { OnErr result (holds_list body.now ≡ true) }
{
    match body {
        Body::Got(_) | Body::Packed(_, _) | Body::Stopped { .. } => body.copy(alloc),
        Body::Nothing => Ok(Body::Nothing),
        Body::Opened(action) => Ok(Body::Opened(*action)),
        Body::Count(count) => Ok(Body::Count(*count)),
        Body::Broken { level, ack } => Ok(Body::Broken {
            level: *level,
            ack: *ack,
        }),
        Body::Left(level) => Ok(Body::Left(*level)),
        Body::Quota { charge, limit } => Ok(Body::Quota {
            charge: *charge,
            limit: *limit,
        }),
    }
}

/// How the client's call of this number ended; `None` where it hasn't. There may be no memory for the copy
/// only where the reply's body holds a list.
#[tactic(auto, using(crate::proofs::LookLaws::found_with_list))]
pub fn reply_from<S: Store>(
    alloc: Global,
    store: &S,
    client: u32,
    number: u32,
) -> Result<Option<Reply>, NoMemory>
    requires few { length (S.content store.now).ended < 2 ^ 32 }
    ensures reply { IfOk result (λ reply. reply ≡ reply_in (S.content store.now).ended client number) }
    ensures no_memory { OnErr result (ended_with_list (S.content store.now).ended client number ≡ true) }
{
    let Some(end) = store.end_of(client, number) else {
        return Ok(None);
    };
    match copy_body(alloc, &end.reply.body) {
        Err(NoMemory) => Err(NoMemory),
        Ok(body) => Ok(Some(Reply {
            status: end.reply.status,
            body,
        })),
    }
}
