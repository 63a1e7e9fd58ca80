//! A stream of bytes over pages.

ghost use Rattle.std.specs.Prelude.{ℕ, ◌≡◌, ◌≤◌, ◌<◌, ◌+◌, ◌-◌, ◌*◌, ◌^◌, ◌==◌, [], length, take, min, ◌↔◌, IsTrue, IsOk, OnOk, OnErr};
ghost use Rattle.std.specs.List.{concat};
ghost use Rattle.fsa_types.specs.StreamBytes.{cut, put, slice};
ghost use Rattle.stream_pages.specs.Pages.{HasPages, KeepsPages, HasPage, byte_at, overlaid};
ghost use Rattle.stream_pages.specs.Streams.{IsReserved};

use crate::page::PAGE;
use crate::pages::Pages;
use crate::parts::Parts;
use fsa_types::NoMemory;
use std::alloc::Global;
use std::marker::Model;

/// The bytes of a stream, after [MS-FSA] 'Per Stream', in pages of 4,096 bytes. It is seen as the list
/// of its bytes, beside the room in which nothing that is written takes memory.
#[derive(Drop)]
pub struct Stream {
    pages: Pages,
    // How many bytes there are; behind them the pages have zeros.
    len: u64,
    // The pages from `from` up to `to`, in bytes, are there.
    from: u64,
    to: u64,
}

impl Model for Stream {
    ghost use Rattle.stream_pages.specs.Pages.{byte_at, bytes_from};
    ghost use Rattle.stream_pages.specs.Streams.{AreSoundPages, StreamView};

    ghost Value = { StreamView };

    ghost view = { λ s. record { bytes = bytes_from (byte_at s.pages) 0 s.len; room = record { from = s.from; to = s.to } } };

    ghost invariant = { λ s. AreSoundPages s.pages s.len s.from s.to };
}

impl Stream {
    /// A stream without bytes. It takes no memory.
    pub fn new(alloc: Global) -> Stream
        ensures { result ≡ record { bytes = []; room = record { from = 0; to = 0 } } }
    {
        Stream {
            pages: Pages::new(alloc),
            len: 0,
            from: 0,
            to: 0,
        }
    }

    /// The number of bytes, at most 2^26.
    pub fn len(&self) -> u64
        ensures len { result ≡ length self.now.bytes }
        ensures fits { result ≤ 2 ^ 26 }
    {
        self.len
    }

    /// Whether there are no bytes.
    pub fn is_empty(&self) -> bool
        ensures { result ≡ (length self.now.bytes == 0) }
    {
        self.len == 0
    }

    /// Takes room for what is written in these bytes, also where the stream ends before them. It takes
    /// the place of the room that was taken before. `NoMemory` changes nothing.
    pub fn reserve(&mut self, at: u64, count: u64) -> Result<(), NoMemory>
        requires { at + count ≤ 2 ^ 26 }
        ensures bytes { self.new.bytes ≡ self.old.bytes }
        ensures room { OnOk result (self.new.room ≡ record { from = at; to = at + count }) }
        ensures err { OnErr result (self.new.room ≡ self.old.room) }
    {
        add_for(&mut self.pages, at, count)?;
        self.from = at;
        self.to = at + count;
        Ok(())
    }

    /// Puts the piece at this place, over what is there and beyond, and zeros in a gap before it. It
    /// takes no memory where the place of the piece lies in the room. A piece that lies elsewhere takes
    /// room for itself, and the room that was there before isn't promised any more. `NoMemory` changes
    /// nothing.
    pub fn write(&mut self, at: u64, piece: &[u8]) -> Result<(), NoMemory>
        requires { at + length piece.now ≤ 2 ^ 26 }
        ensures bytes { OnOk result (self.new.bytes ≡ put self.old.bytes at piece.now) }
        ensures err { OnErr result (self.new ≡ self.old) }
        ensures succeeds { IsReserved self.old.room at (length piece.now) → IsOk result }
        ensures room { IsReserved self.old.room at (length piece.now) → self.new.room ≡ self.old.room }
    {
        if !self.is_reserved(at, piece.len() as u64) {
            self.reserve(at, piece.len() as u64)?;
        }
        self.put(at, piece);
        Ok(())
    }

    // Whether these bytes lie in the room.
    fn is_reserved(&self, at: u64, count: u64) -> bool
        requires { at + count ≤ 2 ^ 26 }
        ensures { IsTrue result ↔ IsReserved self.now.room at count }
    {
        self.from <= at && at + count <= self.to
    }

    // Puts the piece at this place, which lies in the room.
    fn put(&mut self, at: u64, piece: &[u8])
        requires fits { at + length piece.now ≤ 2 ^ 26 }
        requires room { IsReserved self.old.room at (length piece.now) }
        ensures bytes { self.new.bytes ≡ put self.old.bytes at piece.now }
        ensures room { self.new.room ≡ self.old.room }
    {
        put_over(&mut self.pages, at, piece);
        self.len = self.len.max(at + piece.len() as u64);
    }

    /// Makes the stream so many bytes long, with zeros beyond the old end. It takes no memory. What
    /// is cut off gives its pages back, and the room ends there.
    pub fn set_len(&mut self, new_len: u64)
        requires { new_len ≤ 2 ^ 26 }
        ensures bytes { self.new.bytes ≡ cut self.old.bytes new_len }
        ensures grown { length self.old.bytes ≤ new_len → self.new.room ≡ self.old.room }
        ensures shortened { new_len < length self.old.bytes → self.new.room ≡ record self.old.room { to = min self.old.room.to new_len } }
    {
        if new_len < self.len() {
            self.shorten(new_len);
        } else {
            self.len = new_len;
        }
    }

    // Cuts off what lies behind so many bytes.
    fn shorten(&mut self, new_len: u64)
        requires { new_len < length self.old.bytes }
        ensures bytes { self.new.bytes ≡ cut self.old.bytes new_len }
        ensures room { self.new.room ≡ record self.old.room { to = min self.old.room.to new_len } }
    {
        self.pages.cut(new_len);
        self.len = new_len;
        self.to = self.to.min(new_len);
    }

    /// `count` bytes from `at` on, lent in parts: joined they are these bytes. The parts are those of
    /// the pages, and zeros are lent for a page that isn't there. It takes no memory.
    pub fn parts(&self, at: u64, count: u64) -> Parts<'_>
        requires { at + count ≤ length self.now.bytes }
        ensures { concat result ≡ slice self.now.bytes at count }
    {
        Parts::of(&self.pages, at, at + count)
    }
}

// Adds the pages that have some of these bytes.
fn add_for(pages: &mut Pages, at: u64, count: u64) -> Result<(), NoMemory>
    requires { at + count ≤ 2 ^ 26 }
    ensures bytes { (place : ℕ) → byte_at pages.new place ≡ byte_at pages.old place }
    ensures there { OnOk result (HasPages pages.new at (at + count)) }
    ensures kept { KeepsPages pages.old pages.new }
{
    if count == 0 {
        return Ok(());
    }
    let size = PAGE as u64;
    add_pages(pages, at / size, (at + count - 1) / size + 1)
}

// Adds the pages from one number up to another, that one not among them.
fn add_pages(pages: &mut Pages, first: u64, last: u64) -> Result<(), NoMemory>
    ensures bytes { (at : ℕ) → byte_at pages.new at ≡ byte_at pages.old at }
    ensures there { OnOk result ((number : ℕ) → first ≤ number → number < last → HasPage pages.new number) }
    ensures kept { KeepsPages pages.old pages.new }
{
    for number in first..last {
        pages.add(number)?;
    }
    Ok(())
}

// Puts a piece over pages that are there.
fn put_over(pages: &mut Pages, at: u64, piece: &[u8])
    requires fits { at + length piece.now ≤ 2 ^ 26 }
    requires there { HasPages pages.old at (at + length piece.now) }
    ensures bytes { (place : ℕ) → byte_at pages.new place ≡ overlaid (byte_at pages.old) at piece.now place }
    ensures kept { KeepsPages pages.old pages.new }
{
    let mut done = 0;
    'parts: while done < piece.len() {
        let place = at as usize + done;
        let count = (PAGE - place % PAGE).min(piece.len() - done);
        pages.put(
            (place / PAGE) as u64,
            place % PAGE,
            &piece[done..done + count],
        );
        done += count;
    }
}
