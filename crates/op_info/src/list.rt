//! The access list that is put.

ghost use Rattle.std.specs.Prelude.{◌≡◌, ◌≤◌, IfOk, IsTrue, length, option_map};
ghost use Rattle.fsa_types.specs.Access.{map_generic};
ghost use Rattle.fsa_types.specs.Request.{dacl_fits, most_aces};
ghost use Rattle.fsa_model.specs.Security.{mapped};
ghost use Rattle.op_info.specs.Conditions.{list_put};

use acl_check::map_generic;
use fsa_types::{Ace, Dacl, DaclChange, NoMemory};
use std::alloc::Global;

// An entry, each generic right replaced by what it stands for.
fn mapped_entry(entry: &Ace) -> Ace
    ensures { result ≡ record entry.now { mask = map_generic entry.now.mask } }
{
    Ace {
        allow: entry.allow,
        sid: entry.sid,
        mask: map_generic(entry.mask),
    }
}

// A list of these entries, each generic right replaced by what it stands for. At most 32 entries.
// `NoMemory` where there is none for them.
fn mapped(alloc: Global, entries: &[Ace]) -> Result<Dacl, NoMemory>
    requires few { length entries.now ≤ most_aces }
    ensures { IfOk result (λ list. list.items ≡ mapped entries.now) }
{
    let mut list = Dacl::with_room(alloc, entries.len() as u32)?;
    for entry in entries {
        list.push(mapped_entry(entry));
    }
    Ok(list)
}

/// The list that is put, each generic right replaced by what it stands for; `None` where none is put.
/// It has at most 32 entries. `NoMemory` where there is none for them.
pub fn list_put(alloc: Global, dacl: &DaclChange) -> Result<Option<Dacl>, NoMemory>
    requires fits { IsTrue (dacl_fits dacl.now) }
    ensures { IfOk result (λ list. option_map (λ l. l.items) list ≡ list_put dacl.now) }
{
    match dacl {
        DaclChange::Keep | DaclChange::Remove => Ok(None),
        DaclChange::Put(list) => Ok(Some(mapped(alloc, list.as_slice())?)),
    }
}
