//! A request that a reparse point stops.

ghost use Rattle.std.specs.Prelude.{◌≡◌};
ghost use Rattle.fsa_types.specs.declared.reply.Body.{Body as TheBody};
ghost use Rattle.fsa_model.specs.Open.{stop_status, stopped};
ghost use Rattle.fsa_model.specs.Outcome.{Done, refused};
ghost use Rattle.fsa_model.specs.Volume.{Volume as Content};
ghost use Rattle.volume_state.specs.Tried.{Leaves};

use fsa_types::{Body, IO_REPARSE_TAG_SYMLINK, Name, Reply, Status, TryCopy};
use std::alloc::Global;
use volume_state::{Tried, Volume};

// The status of a request that a reparse point with this tag stops.
fn stop_status(tag: u32) -> Status
    ensures { result ≡ stop_status tag }
{
    if tag == IO_REPARSE_TAG_SYMLINK {
        return Status::StoppedOnSymlink;
    }
    Status::Reparse
}

/// The request is stopped by a file's reparse point, and these units of the path are left.
#[tactic(auto, unfolding(fsa_model::specs::Open::stopped))]
pub fn stopped(alloc: Global, volume: &Volume, file: u64, rest: &[u16]) -> Tried
    ensures leaves { Leaves (stopped volume.now.content file rest.now) volume.now volume.now result }
{
    let Some(row) = volume.file(file) else {
        return Tried::ends(Status::ObjectPathNotFound);
    };
    let Some(point) = &row.point else {
        return Tried::ends(Status::ObjectPathNotFound);
    };
    let Ok(bytes) = point.1.copy(alloc) else {
        return Tried::NoMemory;
    };
    let Ok(rest) = Name::copy_of(alloc, rest) else {
        return Tried::NoMemory;
    };
    Tried::Done(Reply {
        status: stop_status(point.0),
        body: Body::Stopped {
            tag: point.0,
            bytes,
            rest,
        },
    })
}
