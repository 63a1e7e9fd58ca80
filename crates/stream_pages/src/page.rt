//! One page.

ghost use Rattle.std.specs.Prelude.{◌≡◌, ◌≤◌, ◌+◌, ◌++◌, IfOk, length, take, drop, replicate};
ghost use Rattle.stream_pages.specs.Pages.{page_size};

use fsa_types::NoMemory;
use std::alloc::Global;
use std::marker::Model;

/// How many bytes a page has.
pub(crate) const PAGE: usize = 4096;

// The bytes of each page that isn't there.
const ZEROS: [u8; PAGE] = [0; PAGE];

/// A page: 4,096 bytes.
#[derive(Drop)]
pub(crate) struct Page {
    bytes: Vec<u8>,
}

impl Model for Page {
    ghost use Rattle.std.specs.Prelude.{◌≡◌, List, ℕ, length};
    ghost use Rattle.stream_pages.specs.Pages.{page_size};

    ghost Value = { List ℕ };

    ghost view = { λ p. p.bytes.items };

    ghost invariant = { λ p. length p.bytes.items ≡ page_size };
}

impl Page {
    /// A page of zeros. `NoMemory` where there is none for it.
    pub(crate) fn blank(alloc: Global) -> Result<Page, NoMemory>
        ensures { IfOk result (λ page. page ≡ replicate page_size 0) }
    {
        let bytes = vec![in alloc; 0; PAGE]?;
        Ok(Page { bytes })
    }

    /// The bytes.
    pub(crate) fn bytes(&self) -> &[u8]
        ensures value { result.now ≡ self.now }
        ensures len { length result.now ≡ page_size }
    {
        self.bytes.as_slice()
    }

    /// Puts a piece over what is there from this place on.
    pub(crate) fn put(&mut self, at: usize, piece: &[u8])
        requires { at + length piece.now ≤ page_size }
        ensures bytes { self.new ≡ take at self.old ++ piece.now ++ drop (at + length piece.now) self.old }
        ensures len { length self.old ≡ page_size }
    {
        self.bytes[at..at + piece.len()].copy_from_slice(piece);
    }
}

/// So many bytes of a page that isn't there.
pub(crate) fn zeros<'a>(count: usize) -> &'a [u8]
    requires { count ≤ page_size }
    ensures { result.now ≡ replicate count 0 }
{
    &ZEROS[..count]
}
