//! In which order the calls of a script are made on one thread, and that they all are.

ghost use Rattle.std.specs.Prelude.{◌≡◌, ◌≤◌, ◌<◌, ◌+◌, ℕ, List, [], ◌∷◌, ◌++◌, Some, None, false, length, slice_get, slice_index_or, slice_set};
ghost use Rattle.fsa_types.specs.declared.request.Call.{Call};
ghost use Rattle.fsa_model.specs.History.{HistoryEntry, Run, run};
ghost use Rattle.fsa_model.specs.Schedule.{AreNumbered, HasAllCalls, Scheduled, all_calls, next, next_in};
ghost use Rattle.fsa_model.specs.Setup.{Script};
ghost use Rattle.fsa_model.specs.Volume.{Volume};
ghost use Rattle.fsa_model.specs.Waiting.{waits};
ghost use Rattle.history_laws.specs.Cursors.{StandAt, first_from, first_of};
ghost use Rattle.history_laws.specs.Named.{IsReadScript};
ghost use Rattle.history_laws.specs.GoesOn.{GoesOnTo};

/// Each client's calls are made in its own order: those that a schedule has are its first ones, and so a cursor
/// for each client tells which were made. With a turn of the call at its client's cursor this goes on to the
/// client's next call.
pub fn calls_are_made_in_order()
    ensures begun { (script : Script) (cursors : List ℕ) → IsReadScript script → length cursors ≡ length script.setup.clients
        → ((client : ℕ) → client < length cursors → slice_index_or cursors client 0 ≡ first_of client (all_calls script)) → StandAt (all_calls script) [] cursors }
    ensures goes { (script : Script) (history : List HistoryEntry) (cursors : List ℕ) (entry : HistoryEntry) → IsReadScript script → StandAt (all_calls script) history cursors → length cursors ≡ length script.setup.clients
        → slice_get (all_calls script) (slice_index_or cursors entry.call.client 0) ≡ Some entry.call
        → StandAt (all_calls script) (history ++ entry ∷ []) (slice_set cursors entry.call.client (first_from entry.call.client (slice_index_or cursors entry.call.client 0 + 1) (all_calls script))) }
    ensures all { (script : Script) (history : List HistoryEntry) → IsReadScript script → Scheduled script history
        → (cursors : List ℕ) × (length cursors ≡ length script.setup.clients) × StandAt (all_calls script) history cursors }
{}

/// The call at the least cursor of a client that doesn't wait is next, and none is where each client waits or has
/// no call left.
pub fn the_least_cursor_is_next()
    ensures next { (script : Script) (history : List HistoryEntry) (cursors : List ℕ) (v : Volume) (call : Call) → IsReadScript script → StandAt (all_calls script) history cursors → length cursors ≡ length script.setup.clients
        → slice_get (all_calls script) (slice_index_or cursors call.client 0) ≡ Some call → waits v call.client ≡ false
        → ((client : ℕ) → client < length cursors → waits v client ≡ false → slice_index_or cursors call.client 0 ≤ slice_index_or cursors client 0)
        → next_in (all_calls script) history v ≡ Some call }
    ensures none { (script : Script) (history : List HistoryEntry) (cursors : List ℕ) (v : Volume) → IsReadScript script → StandAt (all_calls script) history cursors → length cursors ≡ length script.setup.clients
        → ((client : ℕ) → client < length cursors → waits v client ≡ false → length (all_calls script) ≤ slice_index_or cursors client 0)
        → next_in (all_calls script) history v ≡ None }
{}

/// Clients never all wait, and nobody who has left waits: some call is next until all are made.
pub fn some_call_is_next_until_all_are_made()
    ensures all { (script : Script) (history : List HistoryEntry) → IsReadScript script → Scheduled script history → next script history ≡ None → HasAllCalls script history }
{}

/// A turn in which no call finds no memory is always there: each schedule goes on to one that has all calls.
pub fn each_schedule_goes_on_to_its_end()
    ensures goes_on { (script : Script) (history : List HistoryEntry) → IsReadScript script → Scheduled script history → (whole : List HistoryEntry) × GoesOnTo script history whole }
{}
