//! The names of the clients, looked up in constant time.

ghost use Rattle.std.specs.Prelude.{◌≡◌, ◌<◌, ◌++◌, ◌∷◌, [], None, OnOk, IfSome, length, position};
ghost use Rattle.fsa_model.specs.Words.{same};

use fsa_types::NoMemory;
use indexmap::IndexSet;
use std::alloc::Global;
use std::marker::Model;

/// Names that differ, in order.
#[derive(Drop)]
pub struct NameList {
    names: IndexSet<Vec<u8>>,
}

impl Model for NameList {
    ghost use Rattle.std.specs.Prelude.{List, ℕ, map};

    ghost Value = { List (List ℕ) };

    ghost view = { λ l. map (λ name. name.items) l.names.keys };
}

impl NameList {
    /// No names.
    pub fn new(alloc: Global) -> NameList
        ensures { result ≡ [] }
    {
        NameList {
            names: IndexSet::new(alloc),
        }
    }

    /// The place of a name, from 0.
    pub fn place_of(&self, name: &[u8]) -> Option<usize>
        ensures place { result ≡ position (λ known. same name.now known) self.now }
        ensures within { IfSome result (λ place. place < length self.now) }
    {
        self.names.get_index_of(name)
    }

    /// Puts a name at the end; it is not there yet.
    pub fn add(&mut self, alloc: Global, name: &[u8]) -> Result<(), NoMemory>
        requires { position (λ known. same name.now known) self.old ≡ None }
        ensures { OnOk result (self.new ≡ self.old ++ name.now ∷ []) }
    {
        let name = Vec::from_slice(alloc, name)?;
        self.names.insert(name)?;
        Ok(())
    }
}
