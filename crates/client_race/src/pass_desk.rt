//! The desk that a client's thread uses: the volume, and the client's pass.

use client_run::Desk;
use fsa_types::{Poll, Submitted, What};
use shared_volume::{Pass, SharedVolume};
use std::alloc::Global;

/// A client's pass at a volume, as a desk: it shows what the pass knows.
#[derive(Drop)]
pub struct PassDesk<'a> {
    /// The volume.
    pub volume: &'a SharedVolume,
    /// The pass, which is one of this volume.
    pub pass: &'a mut Pass,
}

impl<'a> Desk for PassDesk<'a> {
    ghost use Rattle.std.specs.Prelude.{◌≡◌, refl};
    ghost use Rattle.shared_volume.specs.Shared.{IsPass};
    ghost use Rattle.client_race.specs.Passes.{view_of};

    ghost view = { λ desk. view_of desk.volume.now desk.pass.now };

    ghost is_open = { λ desk. IsPass desk.volume.now desk.pass.now };

    ghost stays = { λ desk later. (later.volume ≡ desk.volume) × (later.pass.ghost_name ≡ desk.pass.ghost_name) };

    ghost stays_same = { λ desk. (refl, refl) };

    fn ask(&mut self, alloc: Global, what: What) -> Submitted {
        self.volume.try_submit(alloc, self.pass, what)
    }

    fn look(&mut self, alloc: Global, number: u32) -> Poll {
        self.volume.poll(alloc, self.pass, number)
    }
}
