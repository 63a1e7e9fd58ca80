//! The machine over the volume in memory.

ghost use Rattle.std.specs.Prelude.{◌≡◌, ◌<◌, [], All, IfOk, length};
ghost use Rattle.fsa_model.specs.Setup.{setup_of};

use crate::machine::StoreMachine;
use fsa_types::{NoMemory, Setup};
use std::alloc::Global;
use volume_state::Volume;

/// The machine over the volume in memory.
pub type VolumeMachine = StoreMachine<Volume>;

impl StoreMachine<Volume> {
    /// The machine with no history, over a volume with the root alone. Each client has to have a SID.
    /// `NoMemory` where there is none for it.
    pub fn new(alloc: Global, setup: Setup) -> Result<VolumeMachine, NoMemory>
        requires sids { All (λ client. 0 < length client.sids.items) setup.clients.items }
        ensures setup { IfOk result (λ machine. machine.setup ≡ setup_of setup) }
        ensures entries { IfOk result (λ machine. machine.entries ≡ []) }
    {
        let volume = Volume::new(alloc, setup)?;
        Ok(StoreMachine::over(alloc, volume))
    }
}
