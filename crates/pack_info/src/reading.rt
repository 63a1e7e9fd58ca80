//! What stands before a name, read.

ghost use Rattle.std.specs.Prelude.{◌≡◌, ◌+◌, ◌<◌, ◌≤◌, ◌^◌, ◌++◌, length};
ghost use Rattle.fsa_types.specs.LittleEndian.{little_endian};
ghost use Rattle.fsa_types.specs.declared.reply.PackKind.TheVariants.{Names, Dir, Full, IdFull, Streams, Changes};
ghost use Rattle.fsa_types.specs.Packing.{head_size};
ghost use Rattle.pack_info.specs.Reading.{HeadFits, IsPlain, raw_head};

use crate::layout::Numbers;
use byteorder::{ByteOrder, LittleEndian};
use fsa_types::PackKind;

// What stands before a name, its constants too.
#[derive(Clone, Copy)]
pub(crate) struct Head {
    // The distance to the next entry.
    pub next: u32,
    // The index.
    pub index: u32,
    // The size of the extended attributes.
    pub attributes_size: u32,
    // The number between these and the file.
    pub reserved: u32,
    // The bytes of the name.
    pub len: u32,
    // The other numbers.
    pub numbers: Numbers,
}

// The number at the start, and what follows.
pub(crate) fn u32_at(bytes: &[u8]) -> (u32, &[u8])
    requires { 4 ≤ length bytes.now }
    ensures read { bytes.now ≡ little_endian 4 result.0 ++ result.1.now }
    ensures fits { result.0 < 2 ^ 32 }
    ensures left { length result.1.now + 4 ≡ length bytes.now }
{
    let number = LittleEndian::read_u32(bytes);
    let (_, rest) = bytes.split_at(4);
    (number, rest)
}

// The number at the start, and what follows.
pub(crate) fn u16_at(bytes: &[u8]) -> (u16, &[u8])
    requires { 2 ≤ length bytes.now }
    ensures read { bytes.now ≡ little_endian 2 result.0 ++ result.1.now }
    ensures fits { result.0 < 2 ^ 16 }
    ensures left { length result.1.now + 2 ≡ length bytes.now }
{
    let number = LittleEndian::read_u16(bytes);
    let (_, rest) = bytes.split_at(2);
    (number, rest)
}

// The number at the start, and what follows.
fn u64_at(bytes: &[u8]) -> (u64, &[u8])
    requires { 8 ≤ length bytes.now }
    ensures read { bytes.now ≡ little_endian 8 result.0 ++ result.1.now }
    ensures fits { result.0 < 2 ^ 64 }
    ensures left { length result.1.now + 8 ≡ length bytes.now }
{
    let number = LittleEndian::read_u64(bytes);
    let (_, rest) = bytes.split_at(8);
    (number, rest)
}

// A head without constants.
fn head_of(next: u32, len: u32, numbers: &Numbers) -> Head
    ensures { result ≡ record { next = next; index = 0; attributes_size = 0; reserved = 0; len = len; numbers = numbers.now } }
{
    Head {
        next,
        index: 0,
        attributes_size: 0,
        reserved: 0,
        len,
        numbers: *numbers,
    }
}

fn read_changes(bytes: &[u8]) -> (Head, &[u8])
    requires { 12 ≤ length bytes.now }
    ensures read { bytes.now ≡ raw_head Changes result.0 ++ result.1.now }
    ensures plain { IsPlain Changes result.0 }
    ensures fits { HeadFits result.0 }
{
    let (next, after_next) = u32_at(bytes);
    let (action, after_action) = u32_at(after_next);
    let (len, rest) = u32_at(after_action);
    let mut numbers = Numbers::none();
    numbers.action = action;
    let head = head_of(next, len, &numbers);
    (head, rest)
}

fn read_names(bytes: &[u8]) -> (Head, &[u8])
    requires { 12 ≤ length bytes.now }
    ensures read { bytes.now ≡ raw_head Names result.0 ++ result.1.now }
    ensures plain { IsPlain Names result.0 }
    ensures fits { HeadFits result.0 }
{
    let (next, after_next) = u32_at(bytes);
    let (index, after_index) = u32_at(after_next);
    let (len, rest) = u32_at(after_index);
    let mut head = head_of(next, len, &Numbers::none());
    head.index = index;
    (head, rest)
}

fn read_streams(bytes: &[u8]) -> (Head, &[u8])
    requires { 24 ≤ length bytes.now }
    ensures read { bytes.now ≡ raw_head Streams result.0 ++ result.1.now }
    ensures plain { IsPlain Streams result.0 }
    ensures fits { HeadFits result.0 }
{
    let (next, after_next) = u32_at(bytes);
    let (len, after_len) = u32_at(after_next);
    let (length, after_length) = u64_at(after_len);
    let (room, rest) = u64_at(after_length);
    let mut numbers = Numbers::none();
    numbers.length = length;
    numbers.room = room;
    let head = head_of(next, len, &numbers);
    (head, rest)
}

fn read_dir(bytes: &[u8]) -> (Head, &[u8])
    requires { 64 ≤ length bytes.now }
    ensures read { bytes.now ≡ raw_head Dir result.0 ++ result.1.now }
    ensures plain { IsPlain Dir result.0 }
    ensures fits { HeadFits result.0 }
    ensures left { length result.1.now + 64 ≡ length bytes.now }
{
    let (next, after_next) = u32_at(bytes);
    let (index, after_index) = u32_at(after_next);
    let (creation, after_creation) = u64_at(after_index);
    let (access, after_access) = u64_at(after_creation);
    let (write, after_write) = u64_at(after_access);
    let (change, after_change) = u64_at(after_write);
    let (length, after_length) = u64_at(after_change);
    let (room, after_room) = u64_at(after_length);
    let (attributes, after_attributes) = u32_at(after_room);
    let (len, rest) = u32_at(after_attributes);
    let numbers = Numbers {
        action: 0,
        creation,
        access,
        write,
        change,
        length,
        room,
        attributes,
        file: 0,
    };
    let head = Head {
        next,
        index,
        attributes_size: 0,
        reserved: 0,
        len,
        numbers,
    };
    (head, rest)
}

fn read_full(bytes: &[u8]) -> (Head, &[u8])
    requires { 68 ≤ length bytes.now }
    ensures read { bytes.now ≡ raw_head Full result.0 ++ result.1.now }
    ensures plain { IsPlain Full result.0 }
    ensures fits { HeadFits result.0 }
{
    let (mut head, after_dir) = read_dir(bytes);
    let (attributes_size, rest) = u32_at(after_dir);
    head.attributes_size = attributes_size;
    (head, rest)
}

fn read_id_full(bytes: &[u8]) -> (Head, &[u8])
    requires { 80 ≤ length bytes.now }
    ensures read { bytes.now ≡ raw_head IdFull result.0 ++ result.1.now }
    ensures plain { IsPlain IdFull result.0 }
    ensures fits { HeadFits result.0 }
{
    let (mut head, after_dir) = read_dir(bytes);
    let (attributes_size, after_size) = u32_at(after_dir);
    let (reserved, after_reserved) = u32_at(after_size);
    let (file, rest) = u64_at(after_reserved);
    head.attributes_size = attributes_size;
    head.reserved = reserved;
    head.numbers.file = file;
    (head, rest)
}

// What stands before the name, and what follows.
pub(crate) fn head_at(kind: PackKind, bytes: &[u8]) -> (Head, &[u8])
    requires { head_size kind ≤ length bytes.now }
    ensures read { bytes.now ≡ raw_head kind result.0 ++ result.1.now }
    ensures plain { IsPlain kind result.0 }
    ensures fits { HeadFits result.0 }
{
    match kind {
        PackKind::Changes => read_changes(bytes),
        PackKind::Names => read_names(bytes),
        PackKind::Dir => read_dir(bytes),
        PackKind::Full => read_full(bytes),
        PackKind::IdFull => read_id_full(bytes),
        PackKind::Streams => read_streams(bytes),
    }
}
