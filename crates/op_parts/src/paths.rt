//! The walk along a path.

ghost use Rattle.std.specs.Prelude.{◌≡◌, ◌+◌, ◌<◌, ◌^◌, true, is_some};
ghost use Rattle.fsa_types.specs.Paths.{components};
ghost use Rattle.fsa_model.specs.Lookups.{is_directory};
ghost use Rattle.fsa_model.specs.Walk.{by_link, into, point_of, through, walk};
ghost use Rattle.op_parts.specs.Walks.{IsIn, ReachesHolder, walked_of};
ghost use Rattle.volume_state.specs.Living.{CanHold};

use fsa_types::Status;
use names::PathParts;
use volume_state::Volume;

/// What a walk comes to.
#[derive(Clone, Copy)]
pub enum Walked {
    /// The directory of this file number.
    Reached(u64),
    /// It is barred with this status.
    Barred(Status),
    /// It meets a file with a reparse point.
    Diverted {
        /// The file.
        file: u64,
        /// The place of the component that follows.
        next: usize,
    },
}

/// Whether a file has a reparse point.
pub fn has_point(volume: &Volume, file: u64) -> bool
    ensures { result ≡ is_some (point_of volume.now.content file) }
{
    match volume.file(file) {
        None => false,
        Some(row) => row.point.is_some(),
    }
}

// Goes through a file, before the component of this place. A directory has to be able to hold links.
fn through(volume: &Volume, file: u64, next: usize) -> Walked
    requires holds { is_directory volume.now.content.files file ≡ true → CanHold volume.now.content file }
    ensures walked { walked_of result ≡ through volume.now.content file next }
    ensures holds { ReachesHolder volume.now.content result }
{
    if has_point(volume, file) {
        return Walked::Diverted { file, next };
    }
    if volume.is_directory(file) {
        return Walked::Reached(file);
    }
    Walked::Barred(Status::ObjectPathNotFound)
}

// Goes by a link, before the component of this place.
fn by_link(volume: &Volume, link: u64, next: usize) -> Walked
    ensures walked { walked_of result ≡ by_link volume.now.content link next }
    ensures holds { ReachesHolder volume.now.content result }
{
    let Some(row) = volume.link(link) else {
        return Walked::Barred(Status::ObjectPathNotFound);
    };
    if row.deleted {
        return Walked::Barred(Status::DeletePending);
    }
    through(volume, row.file, next)
}

// Goes into what has this name in this directory, before the component of this place.
fn into(volume: &Volume, dir: u64, name: &[u16], next: usize) -> Walked
    ensures walked { walked_of result ≡ into volume.now.content dir name.now next }
    ensures holds { ReachesHolder volume.now.content result }
{
    match volume.child(dir, name) {
        None => Walked::Barred(Status::ObjectPathNotFound),
        Some(link) => by_link(volume, link, next),
    }
}

/// Walks along a path, to the directory of its last component.
pub fn walk(volume: &Volume, parts: &PathParts) -> Walked
    ensures walked { walked_of result ≡ walk volume.now.content (components parts.now) }
    ensures holds { ReachesHolder volume.now.content result }
    ensures place { IsIn result (components parts.now) }
{
    let last = parts.len();
    let mut dir = volume.root();
    let mut place = 0;
    for name in parts.components() {
        place += 1;
        if place == last {
            return Walked::Reached(dir);
        }
        match into(volume, dir, name, place) {
            Walked::Reached(next) => dir = next,
            other => return other,
        }
    }
    Walked::Reached(dir)
}
