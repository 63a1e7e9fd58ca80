//! Room for more items that is promised apart.

ghost use Rattle.std.specs.Prelude.{ℕ, AllPairs, ◌≡◌, ◌≤◌, ◌<◌, ◌+◌, ◌^◌, [], OnOk, OnErr, IfOk, IfErr, IfSome, IfNone};
ghost use Rattle.fsa_types.specs.Places.{IsAt, StandsAt};
ghost use Rattle.volume_tables.specs.Rooms.{room_in, all_rooms, AreRooms, IsRoomSet, IsOneTaken};

use fsa_types::NoMemory;
use std::alloc::Global;
use std::marker::Model;

/// For how many more items there is room, promised to each directory or stream apart: what one of them
/// takes is taken from its own. It keeps only those that have room, and finds one in time logarithmic in them;
/// where one comes or goes, those behind it are moved.
#[derive(Drop)]
pub struct RoomList {
    // Those with room, by rising number, each with how much; and all of it.
    rooms: Vec<(u64, usize)>,
    all: usize,
}

impl Model for RoomList {
    ghost use Rattle.std.specs.Prelude.{ℕ, List, ◌≡◌};
    ghost use Rattle.volume_tables.specs.Rooms.{all_rooms, AreRooms};

    ghost Value = { List (ℕ × ℕ) };

    ghost view = { λ r. r.rooms.items };

    ghost invariant = { λ r. AreRooms r.rooms.items × (r.all ≡ all_rooms r.rooms.items) };
}

impl RoomList {
    /// No room for any. It takes no memory.
    pub fn new(alloc: Global) -> RoomList
        ensures { result ≡ [] }
    {
        RoomList {
            rooms: Vec::new(alloc),
            all: 0,
        }
    }

    /// The room that was promised to this one, at most all room.
    pub fn room_in(&self, id: u64) -> usize
        ensures room { result ≡ room_in self.now id }
        ensures few { result ≤ all_rooms self.now }
    {
        room_in(&self.rooms, id)
    }

    /// All room, once this one has so much; `None` exactly where that is 2^64 or more.
    pub fn all_with(&self, id: u64, room: usize) -> Option<usize>
        ensures some { IfSome result (λ all. all + room_in self.now id ≡ all_rooms self.now + room) }
        ensures none { IfNone result (2 ^ 64 + room_in self.now id ≤ all_rooms self.now + room) }
    {
        let own = self.room_in(id);
        (self.all - own).checked_add(room)
    }

    /// Promises so much to this one. `NoMemory` where there is none for the list.
    pub fn set(&mut self, id: u64, room: usize) -> Result<(), NoMemory>
        ensures ok { OnOk result (IsRoomSet self.old self.new id room) }
        ensures err { OnErr result (self.new ≡ self.old) }
    {
        let Some(all) = self.all_with(id, room) else {
            return Err(NoMemory);
        };
        set_room(&mut self.rooms, id, room)?;
        self.all = all;
        Ok(())
    }

    /// Takes room for one item from this one, which has to have some.
    pub fn take_one(&mut self, id: u64)
        requires { 1 ≤ room_in self.old id }
        ensures { IsOneTaken self.old self.new id }
    {
        take_one(&mut self.rooms, id);
        self.all -= 1;
    }
}

// The room that was promised to this one, at most all room.
fn room_in(rooms: &[(u64, usize)], id: u64) -> usize
    requires { AllPairs (λ a b. a.0 < b.0) rooms.now }
    ensures room { result ≡ room_in rooms.now id }
    ensures few { result ≤ all_rooms rooms.now }
{
    match place_of(rooms, id) {
        Ok(place) => rooms[place].1,
        Err(_) => 0,
    }
}

// The place of this one, or where it would stand, by binary search.
fn place_of(rooms: &[(u64, usize)], id: u64) -> Result<usize, usize>
    requires rising { AllPairs (λ a b. a.0 < b.0) rooms.now }
    ensures there { IfOk result (λ place. IsAt rooms.now id place) }
    ensures missing { IfErr result (λ place. StandsAt rooms.now id place) }
{
    rooms.binary_search_by_key(&id, |entry| entry.0)
}

// Promises so much to this one.
fn set_room(rooms: &mut Vec<(u64, usize)>, id: u64, room: usize) -> Result<(), NoMemory>
    requires { AreRooms rooms.old.items }
    ensures kept { AreRooms rooms.new.items }
    ensures ok { OnOk result (IsRoomSet rooms.old.items rooms.new.items id room) }
    ensures err { OnErr result (rooms.new.items ≡ rooms.old.items) }
{
    match place_of(rooms, id) {
        Ok(place) => {
            set_at(rooms, place, id, room);
            Ok(())
        }
        Err(place) => insert_at(rooms, place, id, room),
    }
}

// Promises so much to the one at this place, and takes it out where that is nothing.
fn set_at(rooms: &mut Vec<(u64, usize)>, place: usize, id: u64, room: usize)
    requires rooms { AreRooms rooms.old.items }
    requires there { IsAt rooms.old.items id place }
    ensures kept { AreRooms rooms.new.items }
    ensures room { IsRoomSet rooms.old.items rooms.new.items id room }
{
    if room == 0 {
        rooms.remove(place);
    } else {
        rooms[place] = (id, room);
    }
}

// Promises so much to one that had no room, and that would stand at this place.
fn insert_at(
    rooms: &mut Vec<(u64, usize)>,
    place: usize,
    id: u64,
    room: usize,
) -> Result<(), NoMemory>
    requires rooms { AreRooms rooms.old.items }
    requires missing { StandsAt rooms.old.items id place }
    ensures kept { AreRooms rooms.new.items }
    ensures ok { OnOk result (IsRoomSet rooms.old.items rooms.new.items id room) }
    ensures err { OnErr result (rooms.new.items ≡ rooms.old.items) }
{
    if room > 0 {
        rooms.insert(place, (id, room))?;
    }
    Ok(())
}

// Takes room for one item from this one, which has to have some.
fn take_one(rooms: &mut Vec<(u64, usize)>, id: u64)
    requires rooms { AreRooms rooms.old.items }
    requires room { 1 ≤ room_in rooms.old.items id }
    ensures kept { AreRooms rooms.new.items }
    ensures taken { IsOneTaken rooms.old.items rooms.new.items id }
{
    let Ok(place) = place_of(rooms, id) else {
        unreachable!()
    };
    let room = rooms[place].1;
    set_at(rooms, place, id, room - 1);
}
