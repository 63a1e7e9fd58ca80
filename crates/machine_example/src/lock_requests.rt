//! Requests about locks of one file.

ghost use Rattle.std.specs.Prelude.{◌≡◌, IfOk};
ghost use Rattle.fsa_types.specs.declared.request.Request.TheVariants.{Close, Lock, Unlock};
ghost use Rattle.fsa_types.specs.declared.request.What.TheVariants.{Ask};
ghost use Rattle.machine_example.specs.Asks.{CanBeMade};

use crate::masks::{read_and_write, share_all};
use fsa_types::{Disposition, Name, NoMemory, Request, What};
use std::alloc::Global;

/// An open of `\L` for reading and writing, which shares all, and makes the file where it isn't there. `NoMemory` where
/// there is none for the path.
pub fn open_shared(alloc: Global) -> Result<What, NoMemory>
    ensures { IfOk result CanBeMade }
{
    // `\L`, in UTF-16 units
    let path = Name::copy_of(alloc, &[92, 76])?;
    Ok(What::Ask(Request::Create {
        path,
        wanted: read_and_write(),
        share: share_all(),
        disposition: Disposition::OpenIf,
        options: 0,
        attributes: 0,
        key: 0,
    }))
}

/// A lock of `count` bytes from the place `at` on, by the handle of the client's first call.
pub fn lock_by_first(at: u64, count: u64, exclusive: bool, wait: bool) -> What
    ensures can_be_made { CanBeMade result }
    ensures request { result ≡ Ask (Lock 1 at count exclusive wait) }
{
    What::Ask(Request::Lock {
        handle: 1,
        at,
        count,
        exclusive,
        wait,
    })
}

/// The unlock of the first ten bytes by the handle of the client's first call.
pub fn unlock_by_first() -> What
    ensures can_be_made { CanBeMade result }
    ensures request { result ≡ Ask (Unlock 1 0 10) }
{
    What::Ask(Request::Unlock {
        handle: 1,
        at: 0,
        count: 10,
    })
}

/// The close of the handle of the client's first call.
pub fn close_first() -> What
    ensures can_be_made { CanBeMade result }
    ensures request { result ≡ Ask (Close 1) }
{
    What::Ask(Request::Close { handle: 1 })
}
