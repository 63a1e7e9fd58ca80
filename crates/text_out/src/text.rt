//! The printed text of a turn.

ghost use Rattle.std.specs.Prelude.{◌≡◌, ◌<◌, ◌++◌, ◌∷◌, [], length, map, codes, decimal, IfOk};
ghost use Rattle.fsa_types.specs.Status.{status_name};
ghost use Rattle.fsa_types.specs.declared.reply.Body.TheVariants.{Packed};
ghost use Rattle.fsa_model.specs.Setup.{client_of};
ghost use Rattle.fsa_model.specs.Outcome.{out_of};
ghost use Rattle.fsa_model.specs.Text.{action_text, answer_line, body_text, bytes_text, call_text, end_line, ended_lines, interim_text, last_line, level_word, name_of, turn_text};
ghost use Rattle.fsa_model.specs.Verbs.{request_word, verb};
ghost use Rattle.text_out.specs.AroundBytes.{after_bytes, answer_begun, before_bytes};

use crate::bodies::{push_broken, push_quota, push_stopped};
use crate::draft::Draft;
use crate::entries::push_entries;
use fsa_types::{
    Action, Answer, Body, Call, ClientList, EndOf, Interim, Level, NoMemory, Out, PackKind, Reply,
    Request, Status, What,
};
use itoa::Buffer;

/// Puts a decimal number at the end.
pub fn push_number(draft: &mut Draft, number: u32) -> Result<(), NoMemory>
    ensures lines { IfOk result (λ _. draft.new.lines ≡ draft.old.lines ++ decimal number) }
    ensures before { draft.new.before ≡ draft.old.before }
{
    let mut buffer = Buffer::new();
    draft.push_bytes(buffer.format(number).as_bytes())
}

// The word of a request.
fn request_word(request: &Request) -> &'static str
    ensures { result.now ≡ request_word request.now }
{
    match request {
        Request::Create { .. } => "create",
        Request::Close { .. } => "close",
        Request::Read { .. } => "read",
        Request::Write { .. } => "write",
        Request::Flush { .. } => "flush",
        Request::Lock { .. } => "lock",
        Request::Unlock { .. } => "unlock",
        Request::QueryDir { .. } => "querydir",
        Request::Notify { .. } => "notify",
        Request::QueryInfo { .. } => "query",
        Request::SetBasic { .. } => "setbasic",
        Request::SetEnd { .. } => "setend",
        Request::SetDisposition { .. } => "setdelete",
        Request::Rename { .. } => "rename",
        Request::Link { .. } => "link",
        Request::SetSecurity { .. } => "setsecurity",
        Request::SetReparse { .. } => "setreparse",
        Request::GetReparse { .. } => "getreparse",
        Request::DeleteReparse { .. } => "deletereparse",
        Request::SetQuota { .. } => "setquota",
        Request::QueryQuota { .. } => "queryquota",
        Request::Oplock { .. } => "oplock",
        Request::Ack { .. } => "ack",
        Request::Cancel { .. } => "cancel",
    }
}

// The word of a call.
fn verb(what: &What) -> &'static str
    ensures { result.now ≡ verb what.now }
{
    match what {
        What::Ask(request) => request_word(request),
        What::Tick(_) => "tick",
        What::WaitFor(_) => "wait",
        What::Leave => "leave",
    }
}

/// The word of a level.
pub fn level_word(level: Level) -> &'static str
    ensures { result.now ≡ level_word level }
{
    match level {
        Level::Nil => "none",
        Level::R => "r",
        Level::RH => "rh",
        Level::RW => "rw",
        Level::RWH => "rwh",
    }
}

fn action_text(action: Action) -> &'static str
    ensures { result.now ≡ action_text action }
{
    match action {
        Action::Superseded => " superseded",
        Action::Opened => " opened",
        Action::Created => " created",
        Action::Overwritten => " overwritten",
    }
}

// What follows the status.
fn push_body(draft: &mut Draft, body: &Body) -> Result<(), NoMemory>
    ensures lines { IfOk result (λ _. draft.new.lines ≡ draft.old.lines ++ body_text body.now) }
    ensures before { draft.new.before ≡ draft.old.before }
{
    match body {
        Body::Opened(action) => push_text(draft, action_text(*action)),
        Body::Got(bytes) => {
            push_text(draft, " x")?;
            draft.push_hex(bytes.bytes())
        }
        Body::Count(count) => {
            draft.push(32)?;
            push_number(draft, *count)
        }
        Body::Packed(kind, bytes) => push_packed(draft, *kind, bytes.bytes()),
        Body::Broken { level, ack } => push_broken(draft, *level, *ack),
        Body::Left(level) => {
            draft.push(32)?;
            push_text(draft, level_word(*level))
        }
        Body::Stopped { tag, bytes, rest } => push_stopped(
            draft,
            *tag,
            bytes.bytes(),
            rest.units(),
        ),
        Body::Quota { charge, limit } => push_quota(draft, *charge, *limit),
        Body::Nothing => Ok(()),
    }
}

// The bytes of packed entries, and the entries.
fn push_packed(draft: &mut Draft, kind: PackKind, bytes: &[u8]) -> Result<(), NoMemory>
    ensures lines { IfOk result (λ _. draft.new.lines ≡ draft.old.lines ++ body_text (Packed kind bytes.now)) }
    ensures before { draft.new.before ≡ draft.old.before }
{
    push_text(draft, " x")?;
    draft.push_hex(bytes)?;
    push_entries(draft, kind, bytes)
}

/// Puts a text at the end.
pub fn push_text(draft: &mut Draft, text: &str) -> Result<(), NoMemory>
    ensures lines { IfOk result (λ _. draft.new.lines ≡ draft.old.lines ++ text.now) }
    ensures before { draft.new.before ≡ draft.old.before }
{
    draft.push_bytes(text.as_bytes())
}

// How a call that is pending stands.
fn push_interim(draft: &mut Draft, interim: Interim) -> Result<(), NoMemory>
    ensures lines { IfOk result (λ _. draft.new.lines ≡ draft.old.lines ++ interim_text interim) }
    ensures before { draft.new.before ≡ draft.old.before }
{
    match interim {
        Interim::Held => push_text(draft, " held"),
        Interim::LockWait => push_text(draft, " lock"),
        Interim::Watch => push_text(draft, " watch"),
        Interim::Granted(level) => {
            push_text(draft, " granted ")?;
            push_text(draft, level_word(level))
        }
        Interim::Waiting => push_text(draft, " waiting"),
    }
}

// A client's name, and nothing where there is no such client.
fn push_name(draft: &mut Draft, clients: &ClientList, client: u32) -> Result<(), NoMemory>
    ensures lines { IfOk result (λ _. draft.new.lines ≡ draft.old.lines ++ name_of (map client_of clients.now.items) client) }
    ensures before { draft.new.before ≡ draft.old.before }
{
    if let Some(found) = clients.get(client as usize) {
        draft.push_bytes(found.name.bytes())?;
    }
    Ok(())
}

// A call's client and number.
fn push_call(
    draft: &mut Draft,
    clients: &ClientList,
    client: u32,
    number: u32,
) -> Result<(), NoMemory>
    ensures lines { IfOk result (λ _. draft.new.lines ≡ draft.old.lines ++ call_text (map client_of clients.now.items) client number) }
    ensures before { draft.new.before ≡ draft.old.before }
{
    push_name(draft, clients, client)?;
    draft.push(32)?;
    push_number(draft, number)
}

// The line of a call that has ended.
fn push_end(
    draft: &mut Draft,
    clients: &ClientList,
    client: u32,
    number: u32,
    reply: &Reply,
) -> Result<(), NoMemory>
    ensures lines { IfOk result (λ _. draft.new.lines ≡ draft.old.lines ++ end_line (map client_of clients.now.items) client number reply.now) }
    ensures before { draft.new.before ≡ draft.old.before }
{
    push_call(draft, clients, client, number)?;
    draft.push(32)?;
    push_text(draft, reply.status.name())?;
    push_body(draft, &reply.body)?;
    draft.push(10)
}

// The line that answers the turn's own call.
fn push_answer(
    draft: &mut Draft,
    clients: &ClientList,
    call: &Call,
    answer: &Answer,
) -> Result<(), NoMemory>
    ensures lines { IfOk result (λ _. draft.new.lines ≡ draft.old.lines ++ answer_line (map client_of clients.now.items) call.now answer.now) }
    ensures before { draft.new.before ≡ draft.old.before }
{
    match answer {
        Answer::Ended(reply) => push_end(draft, clients, call.client, call.number, reply),
        Answer::Pending(interim) => push_pending(draft, clients, call, *interim),
    }
}

// The line of a call that is pending.
fn push_pending(
    draft: &mut Draft,
    clients: &ClientList,
    call: &Call,
    interim: Interim,
) -> Result<(), NoMemory>
    ensures lines { IfOk result (λ _. draft.new.lines ≡ draft.old.lines ++ answer_line (map client_of clients.now.items) call.now (Answer.Pending interim)) }
    ensures before { draft.new.before ≡ draft.old.before }
{
    push_call(draft, clients, call.client, call.number)?;
    push_text(draft, " PENDING")?;
    push_interim(draft, interim)?;
    draft.push(10)
}

// The lines of the calls that ended besides.
fn push_ended(draft: &mut Draft, clients: &ClientList, ended: &[EndOf]) -> Result<(), NoMemory>
    ensures lines { IfOk result (λ _. draft.new.lines ≡ draft.old.lines ++ ended_lines (map client_of clients.now.items) ended.now) }
    ensures before { draft.new.before ≡ draft.old.before }
{
    for end in ended {
        push_end(draft, clients, end.client, end.number, &end.reply)?;
    }
    Ok(())
}

// The line that says whose turn it is and what it does.
fn push_head(draft: &mut Draft, clients: &ClientList, call: &Call) -> Result<(), NoMemory>
    ensures lines { IfOk result (λ _. draft.new.lines ≡ draft.old.lines ++ codes "> " ++ call_text (map client_of clients.now.items) call.now.client call.now.number ++ 32 ∷ verb call.now.what ++ 10 ∷ []) }
    ensures before { draft.new.before ≡ draft.old.before }
{
    push_text(draft, "> ")?;
    push_call(draft, clients, call.client, call.number)?;
    draft.push(32)?;
    push_text(draft, verb(&call.what))?;
    draft.push(10)
}

/// Puts the lines of a turn at the end. `NoMemory` where there is no room for them; some of them may
/// stand at the end then.
pub fn push_turn(
    draft: &mut Draft,
    clients: &ClientList,
    call: &Call,
    out: &Out,
) -> Result<(), NoMemory>
    ensures lines { IfOk result (λ _. draft.new.lines ≡ draft.old.lines ++ turn_text (map client_of clients.now.items) call.now (out_of out.now)) }
    ensures before { draft.new.before ≡ draft.old.before }
{
    push_head(draft, clients, call)?;
    push_answer(draft, clients, call, &out.answer)?;
    push_ended(draft, clients, out.ended.as_slice())
}

// The line that answers the turn's own call, up to the bytes that it gives.
fn push_answer_begun(
    draft: &mut Draft,
    clients: &ClientList,
    call: &Call,
    status: Status,
) -> Result<(), NoMemory>
    ensures lines { IfOk result (λ _. draft.new.lines ≡ draft.old.lines ++ answer_begun (map client_of clients.now.items) call.now status) }
    ensures before { draft.new.before ≡ draft.old.before }
{
    push_call(draft, clients, call.client, call.number)?;
    draft.push(32)?;
    push_text(draft, status.name())?;
    draft.push(32)
}

// The lines of a turn, up to the bytes that its answer gives with this status.
fn push_before_bytes(
    draft: &mut Draft,
    clients: &ClientList,
    call: &Call,
    status: Status,
) -> Result<(), NoMemory>
    ensures lines { IfOk result (λ _. draft.new.lines ≡ draft.old.lines ++ before_bytes (map client_of clients.now.items) call.now status) }
    ensures before { draft.new.before ≡ draft.old.before }
{
    push_head(draft, clients, call)?;
    push_answer_begun(draft, clients, call, status)
}

// The lines of a turn, from behind the bytes that its answer gives.
fn push_after_bytes(
    draft: &mut Draft,
    clients: &ClientList,
    ended: &[EndOf],
) -> Result<(), NoMemory>
    ensures lines { IfOk result (λ _. draft.new.lines ≡ draft.old.lines ++ after_bytes (map client_of clients.now.items) ended.now) }
    ensures before { draft.new.before ≡ draft.old.before }
{
    draft.push(10)?;
    push_ended(draft, clients, ended)
}

/// Puts the lines of a turn at the end, without the bytes that its answer gives with this status. The place
/// of the bytes is given, from the beginning of the text.
pub fn push_around(
    draft: &mut Draft,
    clients: &ClientList,
    call: &Call,
    status: Status,
    ended: &[EndOf],
) -> Result<usize, NoMemory>
    ensures place { IfOk result (λ place. place ≡ length ((draft.old.before ++ draft.old.lines) ++ before_bytes (map client_of clients.now.items) call.now status)) }
    ensures lines { IfOk result (λ _. draft.new.lines ≡ (draft.old.lines ++ before_bytes (map client_of clients.now.items) call.now status) ++ after_bytes (map client_of clients.now.items) ended.now) }
    ensures before { draft.new.before ≡ draft.old.before }
{
    push_before_bytes(draft, clients, call, status)?;
    let place = draft.bytes().len();
    push_after_bytes(draft, clients, ended)?;
    Ok(place)
}

/// Puts the last line at the end: the number of turns.
pub fn push_last(draft: &mut Draft, turns: u32) -> Result<(), NoMemory>
    ensures lines { IfOk result (λ _. draft.new.lines ≡ draft.old.lines ++ last_line turns) }
    ensures before { draft.new.before ≡ draft.old.before }
{
    push_text(draft, "end ")?;
    push_number(draft, turns)?;
    draft.push(10)
}
