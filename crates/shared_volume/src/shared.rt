//! What the threads of the clients share.
ghost use Rattle.std.specs.Prelude.{◌≡◌, length};
ghost use Rattle.history_lock.specs.Lock.{base_of, clients_of};
ghost use Rattle.shared_volume.specs.Engines.{setup_in_engine};

use crate::engine::Engine;
use history_lock::TurnLock;

/// A volume of which many threads ask. They share it by reference.
///
/// Clauses read of it the setup with which it was made, `setup_at`.
#[derive(Drop)]
pub struct SharedVolume {
    pub(crate) lock: TurnLock<Engine>,
    ghost clients: { clients_of lock ≡ length (base_of setup_in_engine lock).clients },
}
