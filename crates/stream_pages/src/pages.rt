//! Pages under their numbers.

ghost use Rattle.std.specs.Prelude.{ℕ, AllPairs, ◌≡◌, ◌≤◌, ◌<◌, ◌+◌, ◌-◌, ◌*◌, ◌^◌, [], None, replicate, IfOk, IfErr, IfSome, OnOk, length, option_map, if◌then◌else◌, nat_lt};
ghost use Rattle.fsa_types.specs.Rows.{row_of};
ghost use Rattle.stream_pages.specs.Pages.{HasPage, KeepsPages, Splits, below, byte_at, overlaid, page_size};
ghost use Rattle.fsa_types.specs.Places.{IsAt, StandsAt};

use crate::page::{PAGE, Page, zeros};
use fsa_types::NoMemory;
use std::alloc::{AllocFailed, Global};
use std::marker::Model;

/// Pages under their numbers. A page is there only once it was added.
#[derive(Drop)]
pub(crate) struct Pages {
    // By rising number.
    pages: Vec<(u64, Page)>,
}

impl Model for Pages {
    ghost use Rattle.std.specs.Prelude.{AllPairs, ◌<◌, List, ℕ};

    ghost Value = { List (ℕ × List ℕ) };

    ghost view = { λ p. p.pages.items };

    ghost invariant = { λ p. AllPairs (λ a b. a.0 < b.0) p.pages.items };
}

impl Pages {
    /// No page. It takes no memory.
    pub(crate) fn new(alloc: Global) -> Pages
        ensures { result ≡ [] }
    {
        Pages {
            pages: Vec::new(alloc),
        }
    }

    /// The bytes of the page of this number; `None` exactly where it isn't there.
    pub(crate) fn get(&self, number: u64) -> Option<&[u8]>
        ensures page { option_map (λ page. page.now) result ≡ row_of self.now number }
        ensures len { IfSome result (λ page. length page.now ≡ page_size) }
    {
        match place_of(&self.pages, number) {
            Ok(place) => Some(self.pages[place].1.bytes()),
            Err(_) => None,
        }
    }

    /// Adds the page of this number, of zeros, where it isn't there. `NoMemory` changes nothing.
    pub(crate) fn add(&mut self, number: u64) -> Result<(), NoMemory>
        ensures bytes { (at : ℕ) → byte_at self.new at ≡ byte_at self.old at }
        ensures there { OnOk result (HasPage self.new number) }
        ensures kept { KeepsPages self.old self.new }
    {
        match place_of(&self.pages, number) {
            Ok(_) => Ok(()),
            Err(place) => self.insert(number, place),
        }
    }

    // Puts in a page of zeros, which stands at this place.
    fn insert(&mut self, number: u64, place: usize) -> Result<(), NoMemory>
        requires { StandsAt self.old number place }
        ensures bytes { (at : ℕ) → byte_at self.new at ≡ byte_at self.old at }
        ensures there { OnOk result (HasPage self.new number) }
        ensures kept { KeepsPages self.old self.new }
    {
        let page = Page::blank(*self.pages.allocator())?;
        match self.pages.insert(place, (number, page)) {
            Ok(()) => Ok(()),
            Err(AllocFailed { value: _ }) => Err(NoMemory),
        }
    }

    /// Puts a piece over a page that is there, from this place in it on.
    pub(crate) fn put(&mut self, number: u64, at: usize, piece: &[u8])
        requires there { HasPage self.old number }
        requires within { at + length piece.now ≤ page_size }
        ensures bytes { (place : ℕ) → byte_at self.new place ≡ overlaid (byte_at self.old) (number * page_size + at) piece.now place }
        ensures kept { KeepsPages self.old self.new }
    {
        match place_of(&self.pages, number) {
            Ok(place) => self.put_at(number, place, at, piece),
            Err(_) => unreachable!(),
        }
    }

    // Puts a piece over the page at this place.
    fn put_at(&mut self, number: u64, place: usize, at: usize, piece: &[u8])
        requires there { IsAt self.old number place }
        requires within { at + length piece.now ≤ page_size }
        ensures bytes { (i : ℕ) → byte_at self.new i ≡ overlaid (byte_at self.old) (number * page_size + at) piece.now i }
        ensures kept { KeepsPages self.old self.new }
    {
        let entry = &mut self.pages[place];
        entry.1.put(at, piece);
    }

    /// Takes out what stands from `end` on: the pages behind it, and the rest of the page in which it
    /// lies. It takes no memory.
    pub(crate) fn cut(&mut self, end: u64)
        requires { end ≤ 2 ^ 26 }
        ensures bytes { (place : ℕ) → byte_at self.new place ≡ below (byte_at self.old) end place }
        ensures kept { (number : ℕ) → number * page_size < end → HasPage self.old number → HasPage self.new number }
    {
        let number = end / PAGE as u64;
        let at = (end % PAGE as u64) as usize;
        if at == 0 {
            self.drop_from(number);
        } else {
            self.clear_from(number, at);
            self.drop_from(number + 1);
        }
    }

    // Puts zeros from this place of a page on, where it is there.
    fn clear_from(&mut self, number: u64, at: usize)
        requires { at ≤ page_size }
        ensures bytes { (place : ℕ) → byte_at self.new place ≡ overlaid (byte_at self.old) (number * page_size + at) (replicate (page_size - at) 0) place }
        ensures kept { KeepsPages self.old self.new }
    {
        match place_of(&self.pages, number) {
            Ok(place) => self.put_at(number, place, at, zeros(PAGE - at)),
            Err(_) => {}
        }
    }

    // Takes out the pages from this number on.
    fn drop_from(&mut self, number: u64)
        ensures { (other : ℕ) → row_of self.new other ≡ (if nat_lt other number then row_of self.old other else None) }
    {
        let place = place_from(&self.pages, number);
        self.pages.truncate(place);
    }
}

// The place of the first page with this number or a greater one.
fn place_from(pages: &[(u64, Page)], number: u64) -> usize
    requires { AllPairs (λ a b. a.0 < b.0) pages.now }
    ensures { Splits pages.now number result }
{
    match place_of(pages, number) {
        Ok(place) => place,
        Err(place) => place,
    }
}

// The place of a number among rising ones, or where it would stand, by binary search.
fn place_of(pages: &[(u64, Page)], number: u64) -> Result<usize, usize>
    requires rising { AllPairs (λ a b. a.0 < b.0) pages.now }
    ensures there { IfOk result (λ place. IsAt pages.now number place) }
    ensures missing { IfErr result (λ place. StandsAt pages.now number place) }
{
    pages.binary_search_by_key(&number, |entry| entry.0)
}
