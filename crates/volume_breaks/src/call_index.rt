//! Under which turn a call of a client is pending, and under which turns calls are that name a handle.

ghost use Rattle.std.specs.Prelude.{ℕ, List, ◌≡◌, ◌≤◌, ◌+◌, ◌++◌, ◌∷◌, [], OnOk, Some};
ghost use Rattle.fsa_types.specs.Rows.{row_of, without_row, IsNumbered};
ghost use Rattle.fsa_types.specs.declared.reply.Blocker.{Blocker};
ghost use Rattle.fsa_model.specs.Close.{handle_named, names};
ghost use Rattle.fsa_model.specs.Volume.{Pending};
ghost use Rattle.key_index.specs.Index.{entries_under};
ghost use Rattle.key_index.specs.RowsByKey.{IsIndexOf};
ghost use Rattle.volume_breaks.specs.CallIndex.{call_key, handle_in, handle_key, row_call_key, row_handle_key};
ghost use Rattle.volume_tables.specs.CallKey.{call_key_of};

use fsa_types::{Call, NoMemory, Request, What};
use key_index::KeyIndex;
use std::alloc::Global;
use std::marker::Model;
use volume_tables::call_key_of;

/// The turns of pending calls, each under the client and number of its call, and under the client and the handle
/// that the call names, with room for more of them.
pub struct CallIndex {
    calls: KeyIndex,
    handles: KeyIndex,
    // How many more calls were promised.
    room: usize,
}

// One drop of the whole, so that it is one step at each end of a function that holds one.
impl Drop for CallIndex {
    fn drop(self) {
        let CallIndex {
            calls: _,
            handles: _,
            room: _,
        } = self;
    }
}

impl Model for CallIndex {
    ghost use Rattle.std.specs.Prelude.{◌≤◌};
    ghost use Rattle.volume_breaks.specs.CallIndex.{IndexedCalls};

    ghost Value = { IndexedCalls };

    ghost view = { λ i. record { calls = i.calls.entries; handles = i.handles.entries; room = i.room } };

    ghost invariant = { λ i. i.room ≤ i.calls.room × i.room ≤ i.handles.room };
}

impl CallIndex {
    /// An index without calls and without room. It takes no memory.
    pub fn new(alloc: Global) -> CallIndex
        ensures { result ≡ record { calls = []; handles = []; room = 0 } }
    {
        CallIndex {
            calls: KeyIndex::new(alloc),
            handles: KeyIndex::new(alloc),
            room: 0,
        }
    }

    /// Takes room for `more` calls beside those that are there. `NoMemory` where there is none.
    pub fn reserve(&mut self, more: usize) -> Result<(), NoMemory>
        ensures calls { self.new ≡ record self.old { room = self.new.room } }
        ensures room { OnOk result (more ≤ self.new.room) }
        ensures kept { self.old.room ≤ self.new.room }
    {
        if more <= self.room {
            return Ok(());
        }
        self.calls.reserve(more)?;
        self.handles.reserve(more)?;
        self.room = more;
        Ok(())
    }

    /// Puts the turn of a call behind all others. There has to be room for it. It takes no memory.
    pub fn add(&mut self, turn: u64, call: &Call)
        requires { 1 ≤ self.old.room }
        ensures calls { (rows : List (ℕ × Pending)) (blockers : List Blocker) → IsIndexOf row_call_key rows self.old.calls → IsIndexOf row_call_key (rows ++ (turn, record { call = call.now; blockers = blockers }) ∷ []) self.new.calls }
        ensures handles { (rows : List (ℕ × Pending)) (blockers : List Blocker) → IsIndexOf row_handle_key rows self.old.handles → IsIndexOf row_handle_key (rows ++ (turn, record { call = call.now; blockers = blockers }) ∷ []) self.new.handles }
        ensures left { self.old.room ≡ self.new.room + 1 }
    {
        self.calls.add(call_key(call), turn);
        self.handles.add(handle_key(call), turn);
        self.room -= 1;
    }

    /// Takes the turn of a call out. It takes no memory, and leaves the room as it was.
    pub fn remove(&mut self, turn: u64, call: &Call)
        ensures calls { (rows : List (ℕ × Pending)) (last : ℕ) (row : Pending) → IsNumbered rows last → row_of rows turn ≡ Some row → row.call ≡ call.now → IsIndexOf row_call_key rows self.old.calls → IsIndexOf row_call_key (without_row rows turn) self.new.calls }
        ensures handles { (rows : List (ℕ × Pending)) (last : ℕ) (row : Pending) → IsNumbered rows last → row_of rows turn ≡ Some row → row.call ≡ call.now → IsIndexOf row_handle_key rows self.old.handles → IsIndexOf row_handle_key (without_row rows turn) self.new.handles }
        ensures room { self.new.room ≡ self.old.room }
    {
        self.calls.remove(call_key(call), turn);
        self.handles.remove(handle_key(call), turn);
    }

    /// The turn of this call of this client, as the second of an entry.
    pub fn of_call(&self, client: u32, number: u32) -> &[(u64, u64)]
        ensures { result.now ≡ entries_under self.now.calls (call_key_of client number) }
    {
        self.calls.of(call_key_of(client, number))
    }

    /// The calls of this client that name this handle, each with its turn as the second.
    pub fn of_handle(&self, client: u32, handle: u32) -> &[(u64, u64)]
        ensures { result.now ≡ entries_under self.now.handles (call_key_of client handle) }
    {
        self.handles.of(call_key_of(client, handle))
    }
}

// The key of a call by its client and number.
fn call_key(call: &Call) -> u64
    ensures { result ≡ call_key call.now }
{
    call_key_of(call.client, call.number)
}

// The key of a call by its client and the handle that it names; 0 where it names none.
fn handle_key(call: &Call) -> u64
    ensures { result ≡ handle_key call.now }
{
    match handle_in(&call.what) {
        None => 0,
        Some(handle) => call_key_of(call.client, handle),
    }
}

// The number of the handle that is named by what is asked.
fn handle_in(what: &What) -> Option<u32>
    ensures { result ≡ handle_in what.now }
{
    match what {
        What::Ask(request) => handle_named(request),
        _ => None,
    }
}

// The number of the handle that a request names.
fn handle_named(request: &Request) -> Option<u32>
    ensures { result ≡ handle_named request.now }
{
    match request {
        Request::Create { .. }
        | Request::SetQuota { .. }
        | Request::QueryQuota { .. }
        | Request::Cancel { .. } => None,
        Request::Close { handle }
        | Request::Read { handle, .. }
        | Request::Write { handle, .. }
        | Request::Flush { handle }
        | Request::Lock { handle, .. }
        | Request::Unlock { handle, .. }
        | Request::QueryDir { handle, .. }
        | Request::Notify { handle, .. }
        | Request::QueryInfo { handle, .. }
        | Request::SetBasic { handle, .. }
        | Request::SetEnd { handle, .. }
        | Request::SetDisposition { handle, .. }
        | Request::Rename { handle, .. }
        | Request::Link { handle, .. }
        | Request::SetSecurity { handle, .. }
        | Request::SetReparse { handle, .. }
        | Request::GetReparse { handle, .. }
        | Request::DeleteReparse { handle, .. }
        | Request::Oplock { handle, .. }
        | Request::Ack { handle, .. } => Some(*handle),
    }
}

/// Whether what is asked names this handle.
pub fn names(what: &What, handle: u32) -> bool
    ensures { result ≡ names what.now handle }
{
    let What::Ask(request) = what else {
        return false;
    };
    match handle_named(request) {
        None => false,
        Some(named) => named == handle,
    }
}
