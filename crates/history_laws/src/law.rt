//! What holds of every history and of its text: laws that other crates' contracts may rest on. No function
//! here does anything.

ghost use Rattle.std.specs.Prelude.{◌≡◌, ◌<◌, ◌^◌, ◌++◌, ◌∷◌, ℕ, List, [], Ok, Some, false, true, length};
ghost use Rattle.fsa_types.specs.declared.request.Call.{Call};
ghost use Rattle.fsa_types.specs.declared.request.CallId.{CallId};
ghost use Rattle.fsa_types.specs.declared.request.What.TheVariants.{WaitFor};
ghost use Rattle.fsa_model.specs.History.{HistoryEntry, Run, run};
ghost use Rattle.fsa_model.specs.Engine.{CallsDiffer};
ghost use Rattle.fsa_model.specs.Schedule.{AreNumbered, HasAllCalls, Scheduled, plain};
ghost use Rattle.fsa_model.specs.Script.{script_of};
ghost use Rattle.fsa_model.specs.Setup.{Script, Setup};
ghost use Rattle.fsa_model.specs.Sound.{IsSoundTree};
ghost use Rattle.fsa_model.specs.Text.{shows_no_memory, text};
ghost use Rattle.fsa_model.specs.Turn.{Turned, try, turn};
ghost use Rattle.fsa_model.specs.Volume.{Volume};
ghost use Rattle.fsa_model.specs.Waiting.{has_ended, is_wait, waits};
ghost use Rattle.history_laws.specs.AsAsked.{OpensAndLocksAsAsked};
ghost use Rattle.history_laws.specs.AsMade.{PendsAsMade};
ghost use Rattle.history_laws.specs.AsTried.{CallsPendAsTried};
ghost use Rattle.history_laws.specs.Awaited.{NothingIsMissed};
ghost use Rattle.history_laws.specs.CallChecks.{CallsEndByChecks};
ghost use Rattle.history_laws.specs.EachVolume.{HoldsOfEachVolume};
ghost use Rattle.history_laws.specs.EndsAsFound.{CallsEndAsFound};
ghost use Rattle.history_laws.specs.GrantedEnds.{GrantedCallsEndForCause};
ghost use Rattle.history_laws.specs.Granting.{GrantedCallsPend};
ghost use Rattle.history_laws.specs.HandlesClose.{HandlesGoWhenClosed};
ghost use Rattle.history_laws.specs.HandlesDiffer.{HandlesDiffer};
ghost use Rattle.history_laws.specs.Holding.{CalledOffEnd, PendingStay};
ghost use Rattle.history_laws.specs.Named.{IsReadScript};
ghost use Rattle.history_laws.specs.LeftOver.{NothingIsLeftOver};
ghost use Rattle.history_laws.specs.NamingSteps.{NamingsEndBySteps};
ghost use Rattle.history_laws.specs.OpenChecks.{OpensEndByChecks};
ghost use Rattle.history_laws.specs.OpensTell.{OpensTellWhatTheyDid};
ghost use Rattle.history_laws.specs.OplockChanges.{OplocksChangeForCause};
ghost use Rattle.history_laws.specs.Races.{AllComeAfterWaits, Begun, NoneMadeWaiting, Whole};
ghost use Rattle.history_laws.specs.Releasing.{HoldersRelease, OthersReleaseNone};
ghost use Rattle.history_laws.specs.ReportsInOrder.{ReportsGoToEarliest};
ghost use Rattle.history_laws.specs.WellFormed.{IsWellFormed};
ghost use Rattle.history_laws.specs.Telling.{LeftAsTold, ToldOfOplocks, ToldTargets};
ghost use Rattle.history_laws.specs.TreeChanges.{TreeChangesAsAsked};
ghost use Rattle.history_laws.specs.TreeNotes.{ChangesAreNoted};
ghost use Rattle.history_laws.specs.WhyPending.{CallsPendForCause};
ghost use Rattle.history_laws.specs.WaitEnds.{IsOver, SettlesWaits, StallsExactly, cancels_in, ends_otherwise, has_succeeded, is_wait_end, leaves_in};
ghost use Rattle.fsa_model.specs.Starving.{TriesPlain, starved_of};

/// No try ends a call, its own or another, with the status NoMemory or Stalled: only a settlement does.
pub fn tries_end_none_starved_or_stalled()
    ensures plain { (v : Volume) (call : Call) (turn : ℕ) → TriesPlain v (try v call turn) }
{}

/// Of the calls that end in a turn besides the answer to its own, just its starved calls end with the status
/// NoMemory, in their order.
pub fn starved_calls_end_without_memory()
    ensures starved { (v : Volume) (call : Call) (starved : List CallId) (turned : Turned) → turn v call starved ≡ Some turned → starved_of turned.out.ended ≡ starved }
{}

/// A script that was read from bytes, fewer than 2 ^ 63, is as the laws below ask: its clients have names
/// that differ, and its lines are calls of these, numbered in turn.
pub fn scripts_are_read()
    ensures read { (bytes : List ℕ) (script : Script) → length bytes < 2 ^ 63 → script_of bytes ≡ Ok script → IsReadScript script }
{}

/// Two histories of one script on one thread, each with all its calls, are the same where their texts are: the
/// lines of the calls that ended in a turn tell which of them found no memory.
pub fn two_histories_with_one_text_are_one()
    ensures only { (script : Script) (history other : List HistoryEntry) → IsReadScript script → Scheduled script history → HasAllCalls script history
        → Scheduled script other → HasAllCalls script other → text script other ≡ text script history → other ≡ history }
{}

/// Where no line of its text shows NO_MEMORY, such a history is the one in which memory is never wanting.
pub fn text_without_no_memory_is_plain()
    ensures plain { (script : Script) (history : List HistoryEntry) → IsReadScript script → Scheduled script history → HasAllCalls script history
        → shows_no_memory (text script history) ≡ false → history ≡ plain script }
{}

/// Two whole histories of one script, whose clients ran side by side, are the same where their texts are: the first
/// line of a turn tells its call, and the lines of the calls that ended in it which of them found no memory.
pub fn two_whole_histories_with_one_text_are_one()
    ensures only { (script : Script) (history other : List HistoryEntry) → IsReadScript script → Whole script history → Whole script other
        → text script other ≡ text script history → other ≡ history }
{}

/// Clients that run side by side make no call twice, as the laws of each call's end and of held requests ask: this
/// follows from the order and the numbers of their calls, also where they have made only their first ones. A whole
/// history is one that has come as far as it can.
pub fn calls_made_side_by_side_differ()
    ensures differ { (script : Script) (history : List HistoryEntry) → AreNumbered [] script.lines → Begun script history → CallsDiffer history }
    ensures whole { (script : Script) (history : List HistoryEntry) → Whole script history → Begun script history }
{}

/// In a history that makes no call twice a wait for a call ends SUCCESS, STALLED or INVALID_PARAMETER; INVALID_HANDLE only
/// where its client had left before, and CANCELLED only where its client has cancelled it or left since. It never ends
/// NO_MEMORY, and its reply has no body. A wait that is pending once the call of a turn has been tried ends in that turn, if it
/// does, SUCCESS or STALLED. In every history, once all that is ready has been taken up in a turn, all pending waits end STALLED
/// where every client that hasn't left waits; no call ends so otherwise.
pub fn waits_end_in_few_ways()
    ensures ends { (setup : Setup) (front later : List HistoryEntry) (entry : HistoryEntry) (r : Run) → CallsDiffer (front ++ entry ∷ later) → run setup (front ++ entry ∷ later) ≡ Some r → is_wait entry.call.what ≡ true
        → ends_otherwise (is_wait_end (leaves_in entry.call.client front) (cancels_in entry.call.client entry.call.number later)) entry.call.client entry.call.number r.volume ≡ false }
    ensures stalled { (setup : Setup) (history : List HistoryEntry) → StallsExactly setup history }
    ensures settled { (setup : Setup) (history : List HistoryEntry) → CallsDiffer history → SettlesWaits setup history }
{}

/// A schedule makes no call while its client waits.
pub fn no_scheduled_call_is_made_waiting()
    ensures free { (script : Script) (history : List HistoryEntry) → Scheduled script history → NoneMadeWaiting script history }
{}

/// In a history that makes no call twice a wait has ended with SUCCESS only where the call that it was for has ended too,
/// and where its client doesn't wait, it has ended. So where no client makes a call while it waits, each call stands after
/// the end of every wait that its client had made and, where that end is SUCCESS, after the end of the call that the wait
/// was for.
pub fn calls_come_after_waits()
    ensures success { (setup : Setup) (front later : List HistoryEntry) (entry : HistoryEntry) (awaited : ℕ) (r : Run) → CallsDiffer (front ++ entry ∷ later) → run setup (front ++ entry ∷ later) ≡ Some r
        → entry.call.what ≡ WaitFor awaited → has_succeeded r.volume entry.call.client entry.call.number ≡ true → has_ended r.volume entry.call.client awaited ≡ true }
    ensures over { (setup : Setup) (front later : List HistoryEntry) (entry : HistoryEntry) (awaited : ℕ) (r : Run) → CallsDiffer (front ++ entry ∷ later) → run setup (front ++ entry ∷ later) ≡ Some r
        → entry.call.what ≡ WaitFor awaited → waits r.volume entry.call.client ≡ false → IsOver r.volume entry.call.client entry.call.number awaited }
    ensures free { (script : Script) (history : List HistoryEntry) → NoneMadeWaiting script history → CallsDiffer history → AllComeAfterWaits script.setup history }
{}

/// In a history that makes no call twice the break of a handle's oplock ends exactly where that handle acknowledges it or is
/// closed, and a lock exactly where its handle unlocks just its range (of several locks of the handle on that range the one
/// granted first goes) or is closed; a client that leaves closes all its handles. A held call is taken up only in the turn of
/// such a call, by which something that it waited for has ended. So no call of another kind, a cancellation for one, ends a
/// break or a lock, or releases a held call.
pub fn only_holders_release_held_calls()
    ensures holders { (setup : Setup) (history : List HistoryEntry) → CallsDiffer history → HoldersRelease setup history }
    ensures others { (setup : Setup) (history : List HistoryEntry) → CallsDiffer history → OthersReleaseNone setup history }
{}

/// In a history that makes no call twice a held call stays pending, as it is, in the try of each turn's call, unless its
/// client calls it off: it cancels the call, closes the handle that the call names, or leaves; and to the turn's end where,
/// after any step of the settlement, something that it waits for lives. At a turn's beginning no held call asks for an
/// oplock or answers a break. Each other pending call that does neither, such as a Notify or a wait, stays too in the try
/// of a call that doesn't call it off. Each step of the settlement keeps each call that does neither, held or not, but the
/// one that it takes up. After the last step only waits end, where every client that hasn't left waits then. So through the
/// settlement such a call stays where it's ready after no step of that, unless it's a wait that ends so.
pub fn pending_calls_stay()
    ensures stay { (setup : Setup) (history : List HistoryEntry) → CallsDiffer history → PendingStay setup history }
{}

/// In a history that makes no call twice each pending call, held or not, that the call of a turn calls off has just one end
/// once the turn's call has been tried, and is pending no more. A cancellation ends it CANCELLED. A close of the handle that it
/// names ends a Notify NOTIFY_CLEANUP, a call that asks for an oplock or answers a break OPLOCK_HANDLE_CLOSED, and any other
/// CANCELLED. A leaving closes all its client's handles, and so ends each call that names one as a close does; it ends the
/// client's opens and waits CANCELLED. The end has no body.
pub fn called_off_calls_end()
    ensures end { (setup : Setup) (history : List HistoryEntry) → CallsDiffer history → CalledOffEnd setup history }
{}

/// In a history that makes no call twice a call that asks for an oplock or answers a break is pending exactly as long as an
/// oplock is granted to it of which no break is in progress. Once a turn's call has been tried, after each step of its
/// settlement, and at the turn's end each such call that is pending has an oplock that was granted under its turn, of the
/// handle that it names, of which no break is in progress; and each oplock without a break in progress has its call
/// pending, under its turn. So such a call, once pending, ends in the very try, or step of a settlement, in which its
/// oplock breaks, is switched or goes, and in none before.
pub fn granted_calls_pend_while_unbroken()
    ensures pends { (setup : Setup) (history : List HistoryEntry) → CallsDiffer history → GrantedCallsPend setup history }
{}

/// In a history that makes no call twice a pending call that asks for an oplock or answers a break ends only for a cause. In the
/// try of a turn's call it is told of a break, or that calls it off, or that is a request for an oplock, by which it ends
/// OPLOCK_SWITCHED_TO_NEW_HANDLE; or else it stays pending. In each step of the settlement it is told of a break or stays
/// pending, and where waits stall it stays.
pub fn granted_calls_end_for_a_cause()
    ensures cause { (setup : Setup) (history : List HistoryEntry) → CallsDiffer history → GrantedCallsEndForCause setup history }
{}

/// In a history that makes no call twice what is pending is what was made: each call that is pending once a turn's call has
/// been tried, after a step of its settlement or at the turn's end is the very call that was made in the turn whose number
/// it has.
pub fn pending_calls_are_as_made()
    ensures made { (setup : Setup) (history : List HistoryEntry) → CallsDiffer history → PendsAsMade setup history }
{}

/// In a history that makes no call twice nothing that is awaited is missed: after each turn no call has ended for which a wait
/// is pending, and nothing is due to the watch of a handle by which a Notify is pending.
pub fn no_awaited_end_or_change_is_missed()
    ensures missed { (setup : Setup) (history : List HistoryEntry) → CallsDiffer history → NothingIsMissed setup history }
{}

/// In a history that makes no call twice a watch reports only to the earliest pending Notify of its handle, that is, no other of the
/// handle is pending under an earlier turn; or, where none of its handle is pending, to one that is just made. A Notify that a
/// settlement takes up, also one that finds no memory for its report, is the earliest pending one of its handle too.
pub fn the_earliest_notify_is_reported()
    ensures earliest { (setup : Setup) (history : List HistoryEntry) → CallsDiffer history → ReportsGoToEarliest setup history }
{}

/// In every history a call ends in a reply that tells of a break only where the call was pending, an oplock was granted to
/// it of which no break was in progress, and some class of requests, by a break of that oplock, tells just that: SUCCESS,
/// the level that the class leaves of it, and whether that has to be acknowledged. So it is in the try of each turn's call,
/// in each step of the settlement, and where waits stall. So no holder is told a level that no break leaves of its oplock,
/// it is asked for an acknowledgement just where such a break asks for one, and no other call is told of a break. In a
/// history that makes no call twice, where an oplock had no break in progress before such a part of a turn, the call that
/// it was granted to was pending, and a break of its handle's oplock is in progress at the part's end, that call has ended
/// SUCCESS, with an acknowledgement asked, and was told just the level that the break leaves. And where that call was told
/// of a break, a break of the handle's oplock is in progress at the part's end if an acknowledgement was asked, and else
/// the handle has no oplock.
pub fn holders_are_told_what_breaks_leave()
    ensures of_oplock { (setup : Setup) (history : List HistoryEntry) → ToldOfOplocks setup history }
    ensures target { (setup : Setup) (history : List HistoryEntry) → CallsDiffer history → ToldTargets setup history }
    ensures as_told { (setup : Setup) (history : List HistoryEntry) → CallsDiffer history → LeftAsTold setup history }
{}

/// In each try of every history oplocks change for a cause alone. A call that reads or writes some bytes, sets a length,
/// locks, opens, marks, renames or links may break, by the class of its kind, those on the handles that `MayBreak` names
/// for it: all of such a set but those of the handle by which it acts and of its key, and each as the class says. It has
/// broken none where it ends with a status that comes only before its breaks, and all that it may where it ends with one
/// that comes only behind them, or is held and doesn't rename; and where it has ended so, but for an open that goes on
/// beside its breaks, it had to wait for none of them. A break that has to be acknowledged leaves the level as it is
/// until the handle acknowledges it; then what is in both the break's target and the level acknowledged stays, and where
/// that is nothing the oplock is gone. Any other break ends the oplock. A new oplock is one that the call asks for and
/// that can be granted; all those of its handle or key on the stream, none of which had more or a break in progress, are
/// gone then. Otherwise an oplock goes only where the call that it was granted to is cancelled, its handle is closed, or
/// its client leaves.
pub fn oplocks_change_for_a_cause()
    ensures cause { (setup : Setup) (history : List HistoryEntry) → OplocksChangeForCause setup history }
{}

/// In each try of every history a call is pending afterwards for a cause alone, and shows it. It is held for breaks only where
/// it comes to them, as far as statuses tell (without any oplock it would end with a status that may come behind them or, as
/// a lock, wait for locks), and by just the breaks of one set of handles for which its rule has it wait, one or more; it has
/// broken that set, as the rule says, and changed nothing else but the calls that this tells. An open with
/// COMPLETE_IF_OPLOCKED isn't held by breaks of class ReadOpen, and a rename not by those of a set while a handle is open of
/// a set that comes before. A call is held for locks only where it is a lock that is to wait and had to wait for no break,
/// and by just the locks in conflict with it, one or more. A call that isn't held is pending where it asks for an oplock that
/// can be granted, and shows the level that its handle has then; where it acknowledges a break in progress so that something
/// of its oplock stays, and shows that; where it is a Notify that passes its checks, and nothing is due to its handle's
/// watch; and where it waits for a call that is pending.
pub fn calls_pend_for_a_cause()
    ensures cause { (setup : Setup) (history : List HistoryEntry) → CallsPendForCause setup history }
{}

/// In a history that makes no call twice what is pending of a call, once it has been tried, is what that try left. After the
/// try of a turn's call it's pending under the turn with just the blockers by which the try held it, or with none where it
/// stays pending otherwise; where the try ended it, nothing is pending under the turn. And where a step of the settlement
/// takes up a held call that finds memory, what is pending under that call's own turn after the step is, just so, what its
/// try left.
pub fn calls_pend_as_they_were_tried()
    ensures tried { (setup : Setup) (history : List HistoryEntry) → CallsDiffer history → CallsPendAsTried setup history }
{}

/// Where a try of any history ends its call, it does so with a status that what it finds allows (`may_end_as_found`). An open
/// ends SUCCESS only where it clashes with no handle of the directory or the stream that its path names, SHARING_VIOLATION only
/// where it clashes with one, and OPLOCK_BREAK_IN_PROGRESS only where it has COMPLETE_IF_OPLOCKED, overwrites nothing, clashes
/// with no handle, and waits for a break. A read, a write and a lock end INVALID_HANDLE, INVALID_DEVICE_REQUEST, ACCESS_DENIED,
/// INVALID_PARAMETER and INVALID_LOCK_RANGE only where the check that refuses so fails, and otherwise only by a handle of the
/// client's that has a stream and the right to it, and of some bytes only in an allowed range: FILE_LOCK_CONFLICT, or of a lock
/// that doesn't wait LOCK_NOT_GRANTED, only where a lock is in the way; END_OF_FILE, QUOTA_EXCEEDED and DISK_FULL only where none
/// is, and the read begins at the end of its stream or past it, or the stream can't grow so far for that cause; and SUCCESS only
/// where neither is so, or of a read or a write of no bytes. A request for an oplock ends OPLOCK_NOT_GRANTED only where it can't
/// be granted, and INVALID_PARAMETER only where its handle has no stream. An acknowledgement ends SUCCESS only where a break of
/// its handle's oplock is in progress, and INVALID_OPLOCK_PROTOCOL only where there is such a handle and no such break. A wait
/// ends SUCCESS only where its call has ended, and INVALID_PARAMETER only where that neither has ended nor is pending. These
/// three end INVALID_HANDLE only where the client has left or, but for a wait, has no such handle. And but for an open none of
/// these calls ends with any other status.
pub fn calls_end_as_they_find()
    ensures found { (setup : Setup) (history : List HistoryEntry) → CallsEndAsFound setup history }
{}

/// In each try of every history an open that succeeds, with SUCCESS or with OPLOCK_BREAK_IN_PROGRESS, leaves just one handle
/// more. It's its client's, under the number of its call, and has the rights that were asked for, generic ones as those that
/// they stand for, the sharing, the key and the option to delete on close; it enumerates nothing yet. It's by the link that
/// the path names, or by the next one, where nothing had its last name; and on the directory or the stream that the path
/// named, where that was there, and else on the stream made last, or on none, where a directory was asked for. A lock that
/// succeeds leaves just one lock more: by the handle that it names, on just its range, and exclusive or shared as it was
/// asked for. Neither leaves one where it doesn't succeed; an open leaves locks as they were, and a lock handles. A call that
/// is pending after the try has left both as they were.
pub fn opens_and_locks_leave_what_was_asked()
    ensures asked { (setup : Setup) (history : List HistoryEntry) → OpensAndLocksAsAsked setup history }
{}

/// Where a try of any history ends an open, it tells an action where it has succeeded, with SUCCESS or with
/// OPLOCK_BREAK_IN_PROGRESS, and only then: that it made something just where the directory or the stream that its path names
/// was missing, and never for open and overwrite. Of what was there it tells that it opened it, for open and open_if; overwrote
/// it, for overwrite and overwrite_if; or superseded it, for supersede. A create doesn't succeed on what was there, nor open or
/// overwrite on what was missing. Beside breaks it tells only that it opened.
pub fn opens_tell_what_they_did()
    ensures told { (setup : Setup) (history : List HistoryEntry) → OpensTellWhatTheyDid setup history }
{}

/// In each try of every history a call but an open, a rename and a link, which have laws of their own, is ended by the first of its
/// checks that fails (`checks_of_call`, in their order), with its status and nothing changed. Where none fails it ends with another
/// status, of those that there are behind the checks of such a call (`may_end_behind`), or is held or stays pending, as such a call may
/// (`may_be_held`, `may_stay`). Behind its checks a new length ends by whether the stream may be so long, and a query of a reparse point
/// by whether its buffer has room; most others, with no break or lock in the way, can only end SUCCESS. The checks are of the client,
/// that it hasn't left, and of the handle, where the call names one, that it is there; then, as the request has it, of what the handle is
/// on, the rights that it was granted, the ranges, buffers, masks and times that are asked, marks, links, points, locks, oplocks and
/// calls that are there, attributes, SIDs, and limits.
pub fn calls_end_as_their_checks_say()
    ensures checked { (setup : Setup) (history : List HistoryEntry) → CallsEndByChecks setup history }
{}

/// In each try of every history an open is ended by the first of its checks that fails (`checks_of`, in their order), with its reply and
/// nothing changed; where none fails it ends SUCCESS, OPLOCK_BREAK_IN_PROGRESS or SHARING_VIOLATION, or is held. The checks are: the
/// client hasn't left; share, options and attributes have no unknown bit, and options exclude neither each other nor the disposition;
/// some right is wanted, and none that is unknown; DELETE is wanted where DELETE_ON_CLOSE is asked; the path has no fault, nor a stream
/// part with DIRECTORY_FILE, and is neither barred nor stopped by a reparse point on the way. Of a last name that is missing: the
/// disposition makes it; READONLY isn't asked for with DELETE_ON_CLOSE; its directory grants WRITE_DATA for a file, APPEND_DATA for a
/// directory. Of one that is there, or the root: it isn't marked; it has no reparse point, or OPEN_REPARSE_POINT is asked for; the
/// disposition isn't `create`, but for a named stream; it is no file with DIRECTORY_FILE, and no directory with NON_DIRECTORY_FILE, a
/// stream part or an overwrite; a named stream isn't marked, and is there or missing as the disposition has it; owner and access list
/// grant what is wanted, with DELETE where `supersede` meets a stream that is there, and WRITE_DATA for another overwrite or a named
/// stream that is made; a READONLY file isn't opened with WRITE_DATA or APPEND_DATA, overwritten, or given a named stream;
/// DELETE_ON_CLOSE is asked neither of the root nor of what is READONLY; and an overwrite asks for each of HIDDEN and SYSTEM that the
/// file has. Of handles and breaks in its way nothing is said here.
pub fn opens_end_as_their_checks_say()
    ensures checked { (setup : Setup) (history : List HistoryEntry) → OpensEndByChecks setup history }
{}

/// In each try of every history a rename and a link come to what their steps say (`steps_of_rename`, `steps_of_link`, in their order),
/// whichever comes first: a check that fails ends them, with its reply and nothing changed; breaks for which they have to wait hold them;
/// and where there are neither, they end SUCCESS and leave oplocks as they were. The checks of both are that the client hasn't left and
/// has the handle; that the handle's link isn't marked; that the path has no fault, isn't the root's, has no stream part, and is neither
/// barred nor stopped by a reparse point on the way; and of another link with the name (for a link, another file's): that it isn't
/// marked, that a replacement is asked for, that neither its file nor the handle's is a directory, that its file isn't READONLY and
/// grants DELETE, and behind the breaks of oplocks on handles opened by it, that none of these is open. A rename asks too that the handle
/// is neither the root's nor on a named stream, and has DELETE; that a directory goes neither into itself nor below itself and, behind
/// the breaks below it, that no handle below it is open; and that another directory grants WRITE_DATA for a file and APPEND_DATA for a
/// directory; last come the breaks of oplocks on handles opened by the renamed link. A link asks too that the handle is on the default
/// stream of a file, which has fewer than 1,024 links, and that the directory grants WRITE_DATA; of a link of the file itself that has
/// the name, only that a replacement is asked for.
pub fn renames_and_links_end_as_their_steps_say()
    ensures ended { (setup : Setup) (history : List HistoryEntry) → NamingsEndBySteps setup history }
{}

/// After each try of every history the handles are those from before, as they were: but for an open, which
/// `opens_and_locks_leave_what_was_asked` speaks of, a close that succeeds, which takes just the handle that it names, a leaving
/// that succeeds, which takes just its client's, and a QueryDir, which may change of its own handle which entries are listed, and
/// how far.
pub fn handles_go_when_closed()
    ensures go { (setup : Setup) (history : List HistoryEntry) → HandlesGoWhenClosed setup history }
{}

/// In a history that makes no call twice no two handles have the same client and number, before and after each try and,
/// where it can be run, after its last turn. So a client's number names just the handle that its open left.
pub fn two_handles_differ()
    ensures differ { (setup : Setup) (history : List HistoryEntry) → CallsDiffer history → HoldsOfEachVolume HandlesDiffer setup history }
{}

/// In each try of every history files, links and streams, the last numbers of these, and what is noted change just as the call
/// asks: a call that ends SUCCESS makes its changes in order, an open those of the action that it tells, each of one of a few
/// kinds that says what is noted of it. A call that ends otherwise, or is pending then, makes none, and none changes the case table.
/// Where the history can be run, nothing of these changes before the first try, between two tries, or after the last.
pub fn the_tree_changes_as_asked()
    ensures asked { (setup : Setup) (history : List HistoryEntry) → TreeChangesAsAsked setup history }
{}

/// From before to after each try of every history notes are only added. Among them are, for a link that comes, goes or moves,
/// the place that it left, as removed or as an old name, and that to which it came, as added or as a new name; and under a name
/// of the file a named stream that comes, a stream that goes while its file stays, other bytes of a stream that stays, and, but
/// for the root, another owner, access list or reparse point, other times, but that of the last change, and other attributes; of
/// the time of the last write, and of attributes, that the file or a named stream of it was written is enough. Each of these is
/// under a filter of its kind, a link under either of the two for names. Each note, also one that isn't named here, is seen from its
/// first directory and from each above that up to the root, as these were before the try, with the name that it has from each: those
/// of the directories between, and its own, joined by `\`. A link that stays keeps its file, and a stream its file and its name. Of
/// marks nothing is said here.
pub fn what_changes_is_noted()
    ensures noted { (setup : Setup) (history : List HistoryEntry) → ChangesAreNoted setup history }
{}

/// Before and after each try of every history, and after its last turn where it can be run, nothing is left over: a link that is
/// marked for deletion has a handle that was opened by it, and a marked stream one that is open on it; each file but the root
/// has a link; and the file of each link and of each stream is there. So nothing that is marked outlasts its last handle with
/// its mark.
pub fn nothing_is_left_over()
    ensures over { (setup : Setup) (history : List HistoryEntry) → HoldsOfEachVolume NothingIsLeftOver setup history }
{}

/// Before and after each try of every history, and after its last turn where it can be run, the tree is sound, that is: the names
/// of the links in a directory, marked or not, differ by the volume's case table, and so do those of a file's streams; the root is a
/// directory without a link; each link is in a directory from which links lead up to the root; a directory has one link at most and no
/// stream, and where its link is marked for deletion no link, marked or not, is in it; the file of each link and stream is there.
/// Each handle's link is there, or it is 0, the root's; its stream is one of that link's file, and only a directory's handle has
/// none. The numbers of files, links, streams and handles rise, none is above the last one given, and no link has the number 0.
/// With `handles_go_when_closed`: no try removes a link or a stream of which a handle is that it leaves.
pub fn the_tree_stays_sound()
    ensures sound { (setup : Setup) (history : List HistoryEntry) → HoldsOfEachVolume IsSoundTree setup history }
{}

/// Before and after each try of every history, and after its last turn where it can be run, the tree is well formed: the name of a
/// link is one that a component of a path can have, and that of a stream is one that can stand behind `:`, or empty for a default
/// stream; whatever is no directory has its default stream; a file has at most 1,024 links, those that are marked for deletion among
/// them; and what has a reparse point isn't the root, and nothing is in it, marked for deletion or not.
pub fn the_tree_stays_well_formed()
    ensures formed { (setup : Setup) (history : List HistoryEntry) → HoldsOfEachVolume IsWellFormed setup history }
{}
