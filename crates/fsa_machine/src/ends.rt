//! The ends that a turn gives out, twice: one list for the caller, and one that the history keeps.

ghost use Rattle.std.specs.Prelude.{◌≡◌, ◌≤◌, ◌<◌, ◌+◌, ◌-◌, ◌^◌, ◌++◌, ◌∷◌, [], length, drop, OnOk};
ghost use Rattle.std.specs.Vec.{vec_capacity, vec_len};
ghost use Rattle.fsa_model.specs.Frame.{IsBare};
ghost use Rattle.fsa_machine.specs.Step.{AreBare};

use crate::store::Store;
use fsa_types::{Body, Bytes, EndList, EndOf, Name, NoMemory, Reply};
use std::alloc::Global;
use std::marker::Model;

/// Two equal lists of ends, which a turn fills and which are empty between turns. They are seen as one of them.
pub struct EndLists {
    given: Vec<EndOf>,
    kept: Vec<EndOf>,
    room: u32,
}

// One drop of the whole, so that it is one step at each end of a function that holds one.
impl Drop for EndLists {
    fn drop(self) {
        let EndLists {
            given: _,
            kept: _,
            room: _,
        } = self;
    }
}

impl Model for EndLists {
    ghost use Rattle.std.specs.Prelude.{◌≡◌, ◌≤◌};
    ghost use Rattle.std.specs.Vec.{vec_capacity, vec_len};
    ghost use Rattle.fsa_types.specs.BoundedList.{Bounded};
    ghost use Rattle.fsa_types.specs.declared.reply.EndOf.{EndOf};

    ghost Value = { Bounded EndOf };

    ghost view = { λ l. record { items = l.given.items; room = l.room } };

    ghost invariant = { λ l. (l.kept.items ≡ l.given.items) × (vec_len l.given ≤ l.room) × (l.room ≤ vec_capacity l.given) × (l.room ≤ vec_capacity l.kept) };
}

// Moves all of these ends, in order, into an empty list with room for them.
fn moved(ends: &mut Vec<EndOf>, mut list: EndList) -> EndList
    requires none { list.items ≡ [] }
    requires room { length ends.old.items ≤ list.room }
    ensures items { result.items ≡ ends.old.items }
    ensures room { result.room ≡ list.room }
    ensures emptied { ends.new.items ≡ [] }
    ensures capacity { vec_capacity ends.new ≡ vec_capacity ends.old }
{
    ends.reverse();
    'ends: while let Some(end) = ends.pop() {
        list.push(end);
    }
    list
}

impl EndLists {
    /// Two empty lists with room for no end. It takes no memory.
    pub fn none(alloc: Global) -> EndLists
        ensures { result ≡ record { items = []; room = 0 } }
    {
        EndLists {
            given: Vec::new(alloc),
            kept: Vec::new(alloc),
            room: 0,
        }
    }

    /// How many ends each of the lists has.
    pub fn len(&self) -> u32
        ensures { result ≡ length self.now.items }
    {
        let _room = self.room;
        self.given.len() as u32
    }

    /// For how many ends each of the lists has room.
    pub fn room(&self) -> u32
        ensures { result ≡ self.now.room }
    {
        self.room
    }

    /// Takes room in the empty lists for so many ends each, unless it is there.
    pub fn reserve(&mut self, n: u32) -> Result<(), NoMemory>
        requires none { self.old.items ≡ [] }
        ensures none { self.new.items ≡ [] }
        ensures room { OnOk result (n ≤ self.new.room) }
        ensures no_less { self.old.room ≤ self.new.room }
    {
        if n <= self.room {
            return Ok(());
        }
        self.given.reserve(n as usize)?;
        self.kept.reserve(n as usize)?;
        self.room = n;
        Ok(())
    }

    /// Puts an end and its copy at the ends of the lists.
    pub fn push(&mut self, given: EndOf, kept: EndOf)
        requires same { kept ≡ given }
        requires room { length self.old.items < self.old.room }
        ensures items { self.new.items ≡ self.old.items ++ given ∷ [] }
        ensures room { self.new.room ≡ self.old.room }
    {
        let Ok(()) = self.given.push(given) else {
            unreachable!()
        };
        let Ok(()) = self.kept.push(kept) else {
            unreachable!()
        };
    }

    /// Puts the end of a call with this reply and its copy at the ends of the lists.
    pub fn push_end(&mut self, client: u32, number: u32, given: Reply, kept: Reply)
        requires same { kept ≡ given }
        requires room { length self.old.items < self.old.room }
        ensures items { self.new.items ≡ self.old.items ++ record { client = client; number = number; reply = given } ∷ [] }
        ensures room { self.new.room ≡ self.old.room }
    {
        let given = EndOf {
            client,
            number,
            reply: given,
        };
        let kept = EndOf {
            client,
            number,
            reply: kept,
        };
        self.push(given, kept);
    }

    /// Moves the ends of both lists into these, which are empty and have room for them.
    pub fn move_into(&mut self, given: EndList, kept: EndList) -> (EndList, EndList)
        requires no_given { given.items ≡ [] }
        requires given { length self.old.items ≤ given.room }
        requires no_kept { kept.items ≡ [] }
        requires kept { kept.room ≡ given.room }
        ensures given { result.0 ≡ record { items = self.old.items; room = given.room } }
        ensures kept { result.1 ≡ result.0 }
        ensures emptied { self.new ≡ record { items = []; room = self.old.room } }
    {
        (moved(&mut self.given, given), moved(&mut self.kept, kept))
    }
}

// A copy of a body with neither bytes nor units. It takes no memory.
fn bare_body(alloc: Global, body: &Body) -> Body
    requires bare { IsBare body.now }
    ensures { result ≡ body.now }
{
    match body {
        Body::Nothing => Body::Nothing,
        Body::Opened(action) => Body::Opened(*action),
        Body::Got(_) => Body::Got(Bytes::from(Vec::new(alloc))),
        Body::Count(count) => Body::Count(*count),
        Body::Packed(kind, _) => Body::Packed(*kind, Bytes::from(Vec::new(alloc))),
        Body::Broken { level, ack } => Body::Broken {
            level: *level,
            ack: *ack,
        },
        Body::Left(level) => Body::Left(*level),
        Body::Stopped { tag, .. } => Body::Stopped {
            tag: *tag,
            bytes: Bytes::from(Vec::new(alloc)),
            rest: Name::from(Vec::new(alloc)),
        },
        Body::Quota { charge, limit } => Body::Quota {
            charge: *charge,
            limit: *limit,
        },
    }
}

// A copy of an end whose reply has neither bytes nor units. It takes no memory.
fn bare_end(alloc: Global, end: &EndOf) -> EndOf
    requires bare { IsBare end.now.reply.body }
    ensures { result ≡ end.now }
{
    EndOf {
        client: end.client,
        number: end.number,
        reply: Reply {
            status: end.reply.status,
            body: bare_body(alloc, &end.reply.body),
        },
    }
}

// Two copies of such an end.
fn bare_twice(alloc: Global, end: &EndOf) -> (EndOf, EndOf)
    requires bare { IsBare end.now.reply.body }
    ensures given { result.0 ≡ end.now }
    ensures kept { result.1 ≡ end.now }
{
    (bare_end(alloc, end), bare_end(alloc, end))
}

/// Gives out the ends from a place on, whose replies have neither bytes nor units. It takes no memory.
pub fn tell<S: Store>(alloc: Global, store: &S, from: usize, ended: &mut EndLists)
    requires few { length (S.content store.now).ended < 2 ^ 32 }
    requires within { from ≤ length (S.content store.now).ended }
    requires bare { AreBare (drop from (S.content store.now).ended) }
    requires room { length ended.old.items + (length (S.content store.now).ended - from) ≤ ended.old.room }
    ensures items { ended.new.items ≡ ended.old.items ++ drop from (S.content store.now).ended }
    ensures room { ended.new.room ≡ ended.old.room }
{
    let mut place = from;
    'ends: while let Some(end) = store.end_at(place) {
        let (given, kept) = bare_twice(alloc, end);
        ended.push(given, kept);
        place += 1;
    }
}
