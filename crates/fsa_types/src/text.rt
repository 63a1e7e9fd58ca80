//! Names of UTF-16 units and strings of bytes.

ghost use Rattle.std.specs.Prelude.{◌≡◌, ◌≤◌, ◌+◌, [], drop, length, take, IfOk, IfSome};
ghost use Rattle.std.specs.Vec.{vec_capacity};
ghost use Rattle.fsa_types.specs.Backing.{bytes_in};

use crate::copy::TryCopy;
use crate::memory::NoMemory;
use std::alloc::Global;
use std::marker::Model;
use std::sync::Arc;

/// A name, a path or an expression: a list of UTF-16 units, any of them, after [MS-FSCC]
/// 'Pathname'.
#[derive(Drop)]
pub struct Name {
    units: Vec<u16>,
}

impl Model for Name {
    ghost use Rattle.std.specs.Prelude.{List, ℕ};

    ghost Value = { List ℕ };

    ghost view = { λ n. n.units.items };
}

impl Name {
    /// A name of these units.
    pub fn copy_of(alloc: Global, units: &[u16]) -> Result<Name, NoMemory>
        ensures { IfOk result (λ name. name ≡ units.now) }
    {
        let units = Vec::from_slice(alloc, units)?;
        Ok(Name { units })
    }

    /// The units.
    pub fn units(&self) -> &[u16]
        ensures { result.now ≡ self.now }
    {
        self.units.as_slice()
    }
}

impl From<Vec<u16>> for Name {
    ghost use Rattle.std.specs.Prelude.{◌≡◌};

    ghost from_gives = { λ v n. n ≡ v.items };

    fn from(units: Vec<u16>) -> Name {
        Name { units }
    }
}

impl TryCopy for Name {
    fn copy(&self, alloc: Global) -> Result<Name, NoMemory> {
        Name::copy_of(alloc, self.units())
    }
}

/// A string of bytes. Strings that are equal may share one list.
pub struct Bytes {
    backing: Backing,
}

// One drop of the whole, so that it is one step at each end of a function that holds one.
impl Drop for Bytes {
    fn drop(self) {
        let Bytes { backing: _ } = self;
    }
}

// Where the bytes of a string stand.
#[derive(Drop)]
enum Backing {
    // In a list of its own.
    Own(Vec<u8>),
    // In a list that other strings may share.
    Shared(Arc<Vec<u8>>),
}

impl Model for Bytes {
    ghost use Rattle.std.specs.Prelude.{List, ℕ};

    ghost Value = { List ℕ };

    ghost use Rattle.fsa_types.specs.Backing.{bytes_in};

    ghost view = { λ b. bytes_in b.backing };
}

// How many bytes a string has at least whose list is shared: to count the owners of a list takes a
// block of memory for itself.
const FEWEST_SHARED: usize = 128;

// These bytes in a list without spare room, which is one to be shared where they are many and there
// is memory to count its owners.
fn share(mut bytes: Vec<u8>) -> Backing
    ensures { bytes_in result ≡ bytes.items }
{
    bytes.shrink_to_fit();
    if bytes.len() < FEWEST_SHARED {
        return Backing::Own(bytes);
    }
    let alloc = *bytes.allocator();
    match Arc::new(alloc, bytes) {
        Ok(bytes) => Backing::Shared(bytes),
        Err(failed) => Backing::Own(failed.value),
    }
}

impl Bytes {
    /// A string of these bytes.
    pub fn copy_of(alloc: Global, bytes: &[u8]) -> Result<Bytes, NoMemory>
        ensures { IfOk result (λ made. made ≡ bytes.now) }
    {
        let bytes = Vec::from_slice(alloc, bytes)?;
        Ok(Bytes::from(bytes))
    }

    /// The bytes.
    pub fn bytes(&self) -> &[u8]
        ensures { result.now ≡ self.now }
    {
        match &self.backing {
            Backing::Own(bytes) => bytes.as_slice(),
            Backing::Shared(bytes) => bytes.as_slice(),
        }
    }

    /// `count` of the bytes, from the place `at` on.
    pub fn part(&self, at: usize, count: usize) -> &[u8]
        requires { at + count ≤ length self.now }
        ensures { result.now ≡ take count (drop at self.now) }
    {
        &self.bytes()[at..at + count]
    }

    /// The same string. Where it has 128 bytes at least and there is memory to count the owners of
    /// their list, its copies share that list from now on.
    pub fn shared(self) -> Bytes
        ensures { result ≡ self }
    {
        let Bytes { backing } = self;
        match backing {
            Backing::Own(bytes) => Bytes {
                backing: share(bytes),
            },
            backing => Bytes { backing },
        }
    }

    // An equal string that shares the list; `None` where that isn't one to be shared, or has as many
    // owners as can be counted. It takes no memory.
    fn sharing(&self) -> Option<Bytes>
        ensures { IfSome result (λ made. made ≡ self.now) }
    {
        match &self.backing {
            Backing::Own(_) => None,
            Backing::Shared(bytes) => match Arc::try_clone(bytes) {
                Ok(bytes) => Some(Bytes {
                    backing: Backing::Shared(bytes),
                }),
                Err(_) => None,
            },
        }
    }

    // An equal string: one that shares the list, or else one in this empty list, which has room for
    // the bytes. Room that isn't used is given back.
    pub(crate) fn copy_into(&self, mut room: Vec<u8>) -> Bytes
        requires none { room.items ≡ [] }
        requires room { length self.now ≤ vec_capacity room }
        ensures { result ≡ self.now }
    {
        if let Some(made) = self.sharing() {
            return made;
        }
        let Ok(()) = room.extend_from_slice(self.bytes()) else {
            unreachable!()
        };
        room.shrink_to_fit();
        Bytes::from(room)
    }
}

impl From<Vec<u8>> for Bytes {
    ghost use Rattle.std.specs.Prelude.{◌≡◌};

    ghost from_gives = { λ v b. b ≡ v.items };

    fn from(bytes: Vec<u8>) -> Bytes {
        Bytes {
            backing: Backing::Own(bytes),
        }
    }
}

impl TryCopy for Bytes {
    fn copy(&self, alloc: Global) -> Result<Bytes, NoMemory> {
        match self.sharing() {
            Some(made) => Ok(made),
            None => Bytes::copy_of(alloc, self.bytes()),
        }
    }
}
