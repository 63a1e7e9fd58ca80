//! What holds of every turn of every run: laws that other crates' contracts may rest on. No function here
//! does anything.

ghost use Rattle.std.specs.List.{flat_map};
ghost use Rattle.std.specs.Prelude.{◌≡◌, [], ◌∷◌, ◌++◌, suc, ℕ, Bool, List, Some, Ok, length};
ghost use Rattle.fsa_types.specs.PackedRows.{PackRow};
ghost use Rattle.fsa_types.specs.Packing.{bytes};
ghost use Rattle.fsa_types.specs.Rows.{row_of};
ghost use Rattle.fsa_types.specs.declared.reply.PackKind.{PackKind};
ghost use Rattle.fsa_types.specs.declared.request.Call.{Call};
ghost use Rattle.fsa_types.specs.declared.request.Request.TheVariants.{Notify};
ghost use Rattle.fsa_types.specs.declared.request.What.TheVariants.{Ask};
ghost use Rattle.fsa_model.specs.Coherence.{CachingIsCoherent, IsCoherent, IsTied};
ghost use Rattle.fsa_model.specs.Engine.{CallsDiffer, EndsOnce, GrantsPend, HeldAreBlocked, HoldsByLiving, NoneReady, SomeGoesOn, TakesReleased};
ghost use Rattle.fsa_model.specs.Frame.{InFrame, PointsFit};
ghost use Rattle.fsa_model.specs.Generator.{generated, generated_text};
ghost use Rattle.fsa_model.specs.History.{HistoryEntry, Run, run};
ghost use Rattle.fsa_model.specs.Lookups.{handle_of};
ghost use Rattle.fsa_model.specs.PackedText.{RowsFit, packed_text, row_text};
ghost use Rattle.fsa_model.specs.Reports.{PassesChecks, TakesReport, TriesNotify, settling_after};
ghost use Rattle.fsa_model.specs.Schedule.{Scheduled};
ghost use Rattle.fsa_model.specs.Script.{script_of};
ghost use Rattle.fsa_model.specs.ScriptText.{SpellsScript};
ghost use Rattle.fsa_model.specs.Setup.{Script, Setup};
ghost use Rattle.fsa_model.specs.Sound.{IsSound};
ghost use Rattle.fsa_model.specs.Turn.{try};
ghost use Rattle.fsa_model.specs.Volume.{Handle, Pending, Volume};
ghost use Rattle.fsa_model.specs.Waiting.{next_ready};
ghost use Rattle.fsa_model.specs.Watched.{WatchesReport};
ghost use Rattle.fsa_model.specs.Watching.{try_notify, with_watch_begun};

/// In the history of a script on one thread no call is made twice, as the laws below ask.
pub fn each_call_is_made_once()
    ensures differ { (script : Script) (history : List HistoryEntry) → Scheduled script history → CallsDiffer history }
{}

/// A turn takes up what is pending until nothing is ready.
pub fn no_call_is_left_ready()
    ensures none_ready { (setup : Setup) (history : List HistoryEntry) (r : Run) → CallsDiffer history → run setup history ≡ Some r → NoneReady r.volume }
{}

/// Clients never all wait for each other: where all that haven't left do, the turn ends all waits.
pub fn some_client_goes_on()
    ensures goes_on { (setup : Setup) (history : List HistoryEntry) (r : Run) → run setup history ≡ Some r → SomeGoesOn r.volume }
{}

/// No call ends twice, and each call that was made has ended or is pending.
pub fn each_call_ends_once()
    ensures once { (setup : Setup) (history : List HistoryEntry) (r : Run) → CallsDiffer history → run setup history ≡ Some r → EndsOnce history r }
{}

/// What holds a call is some blockers, and they all live in the volume that its try leaves: so it is for each call
/// that a turn may try, and for each that is taken up while it settles. After a turn each held call still has
/// a blocker that lives.
pub fn a_held_call_has_living_blockers()
    ensures own { (setup : Setup) (history : List HistoryEntry) (r : Run) → CallsDiffer history → run setup history ≡ Some r → HoldsByLiving r.volume }
    ensures taken { (setup : Setup) (history : List HistoryEntry) (entry : HistoryEntry) (r : Run) (steps : ℕ) → CallsDiffer (history ++ entry ∷ []) → run setup history ≡ Some r
        → HoldsByLiving (settling_after r.volume entry.call entry.starved steps).volume }
    ensures blocked { (setup : Setup) (history : List HistoryEntry) (r : Run) → CallsDiffer history → run setup history ≡ Some r → HeldAreBlocked r.volume }
{}

/// After a turn an oplock of which no break is in progress is granted to a call that is pending: a request for an
/// oplock, or the answer to a break, that names the oplock's handle.
pub fn a_granted_oplock_has_its_call_pending()
    ensures pends { (setup : Setup) (history : List HistoryEntry) (r : Run) → CallsDiffer history → run setup history ≡ Some r → GrantsPend r.volume }
{}

/// A held call is tried in a turn just where the turn's own call hasn't ended it and the last of what it
/// waited for ended in that call's own try; it is then tried once, or finds no memory.
pub fn released_calls_are_tried_once()
    ensures released { (setup : Setup) (history : List HistoryEntry) (entry : HistoryEntry) (r : Run) → CallsDiffer (history ++ entry ∷ []) → run setup history ≡ Some r
        → TakesReleased r.volume entry.call entry.starved }
{}

/// A try of a call changes of the case table, the clients, who has left, the clock, handles and locks only what a
/// call of its kind may, gives few numbers, makes no call pending, ends only calls that were pending, and its
/// reply is short. Where it fails or is held, nothing has changed but what breaks of oplocks change, and how far a
/// directory is enumerated; it stays pending without a blocker only where its kind may.
pub fn each_try_keeps_its_frame()
    ensures frame { (v : Volume) (call : Call) (turn : ℕ) → PointsFit v → InFrame call v (try v call turn) }
{}

/// A notification that is taken up reports all that is due to its watch, where that fits its room, and
/// nothing is due afterwards; or it finds no memory. One that asks reports so at once where something is due.
pub fn watches_report_what_is_due()
    ensures taken { (setup : Setup) (history : List HistoryEntry) (entry : HistoryEntry) (r : Run) (steps : ℕ) (pending : ℕ × Pending) (handle filter : ℕ) (tree : Bool) (room : ℕ)
        → CallsDiffer (history ++ entry ∷ []) → run setup history ≡ Some r
        → next_ready (settling_after r.volume entry.call entry.starved steps).volume ≡ Some pending → pending.1.call.what ≡ Ask (Notify handle filter tree room)
        → TakesReport (settling_after r.volume entry.call entry.starved steps) pending.1 handle room (settling_after r.volume entry.call entry.starved (suc steps)) }
    ensures asked { (v : Volume) (client handle filter : ℕ) (tree : Bool) (room id : ℕ) (row : Handle) → handle_of v client handle ≡ Some id → row_of v.handles id ≡ Some row → PassesChecks v row filter
        → TriesNotify (with_watch_begun v id filter tree) id room (try_notify v client handle filter tree room) }
{}

/// Over each history each watch reports exactly the matching changes since its last report or, before its first one,
/// since the Notify that fixed it: those of its handle's directory, or below that where the whole tree counts, under
/// its filter, packed, or NOTIFY_ENUM_DIR without bytes where they exceed the room. The list of changes is only ever
/// added to. A Notify ends SUCCESS or NOTIFY_ENUM_DIR just where a watch reports to it: pending and first of its
/// handle, or in its own try, and never by a close, a cancellation, a leaving or another call's try.
pub fn watches_report_exactly()
    ensures exactly { (setup : Setup) (history : List HistoryEntry) → WatchesReport setup history }
{}

/// What is read as a script is written so: the bytes are the lines of that script, in order, each spelled.
pub fn a_script_is_what_its_bytes_spell()
    ensures spelled { (bytes : List ℕ) (script : Script) → script_of bytes ≡ Ok script → SpellsScript bytes script }
{}

/// What is printed of a buffer of packed rows is the text of each row, in order.
pub fn packed_rows_are_printed()
    ensures rows { (kind : PackKind) (rows : List PackRow) → RowsFit rows → packed_text kind (bytes kind rows) ≡ flat_map (row_text kind) rows }
{}

/// The generated script of each seed has 4,096 calls, and its text writes it, as a reader of scripts asks.
pub fn a_generated_script_is_spelled()
    ensures spelled { (seed : ℕ) → SpellsScript (generated_text seed) (generated seed) }
    ensures long { (seed : ℕ) → length (generated seed).lines ≡ 4096 }
{}

/// A try of any call from a volume in which the facts hold that caching rests on keeps these facts and is coherent.
/// While a handle counts on the reads that it has cached its bytes change only by its own key. It begins to count
/// only by a grant or by its answer to a break, and stops only for one of six causes. Bytes are changed, or given to
/// a read, only where no handle of another key is left with write caching; and a try leaves none with that beside a
/// handle of another key that caches anything, where there was none. An open ends SHARING_VIOLATION only where no
/// handle of another key is left with handle caching. Each sound volume has these facts.
pub fn each_try_is_coherent()
    ensures sound { (v : Volume) → IsSound v → IsTied v }
    ensures coherent { (v : Volume) (call : Call) (turn : ℕ) → IsTied v → IsCoherent v call.client call.what (try v call turn) }
{}

/// Caching by oplocks is coherent over each history: so is each try of it, those that are taken up while a turn
/// settles too; nothing between two tries changes bytes or oplocks; and over any stretch of tries in which a handle
/// counts, its later bytes are the earlier ones with its own key's changes in order.
pub fn caching_is_coherent()
    ensures coherent { (setup : Setup) (history : List HistoryEntry) → CachingIsCoherent setup history }
{}
