//! Bytes of a stream, lent in parts.

ghost use Rattle.std.specs.Prelude.{◌≡◌, ◌≤◌, ◌+◌, ◌%◌, ◌^◌};
ghost use Rattle.std.specs.Iterator.{YieldsFirstBy, item_count};
ghost use Rattle.stream_pages.specs.Pages.{byte_at, bytes_from, page_size};
ghost use Rattle.stream_pages.specs.Streams.{parts_of};

use crate::page::{PAGE, zeros};
use crate::pages::Pages;
use std::marker::Model;

/// Bytes of a stream, lent in parts, each of one page. It is seen as the parts that are left.
#[derive(Drop)]
pub struct Parts<'a> {
    pages: &'a Pages,
    at: u64,
    end: u64,
}

impl<'a> Model for Parts<'a> {
    ghost use Rattle.std.specs.Prelude.{List, ℕ, ◌≤◌, ◌^◌};
    ghost use Rattle.stream_pages.specs.Pages.{byte_at};
    ghost use Rattle.stream_pages.specs.Streams.{parts_of};

    ghost Value = { List (List ℕ) };

    ghost view = { λ p. parts_of (byte_at p.pages.now) p.at p.end };

    ghost invariant = { λ p. p.end ≤ 2 ^ 26 };
}

impl<'a> Parts<'a> {
    // The parts from `at` up to `end`.
    pub(crate) fn of(pages: &'a Pages, at: u64, end: u64) -> Parts<'a>
        requires { end ≤ 2 ^ 26 }
        ensures { result ≡ parts_of (byte_at pages.now) at end }
    {
        Parts { pages, at, end }
    }
}

impl<'a> Iterator for Parts<'a> {
    type Item = &'a [u8];

    ghost next_gives = { YieldsFirstBy (λ part. part.now) (λ left. left) };

    ghost remaining = { item_count (λ left. left) };

    /// The next part. It takes time logarithmic in the pages that are there.
    fn next(&mut self) -> Option<&'a [u8]> {
        if self.at >= self.end {
            return None;
        }
        let place = self.at as usize;
        let count = (PAGE - place % PAGE).min(self.end as usize - place);
        let part = part_of(self.pages, self.at, count);
        self.at += count as u64;
        Some(part)
    }
}

// So many bytes of one page.
fn part_of<'a>(pages: &'a Pages, at: u64, count: usize) -> &'a [u8]
    requires { at % page_size + count ≤ page_size }
    ensures { result.now ≡ bytes_from (byte_at pages.now) at count }
{
    let size = PAGE as u64;
    let place = (at % size) as usize;
    match pages.get(at / size) {
        Some(page) => &page[place..place + count],
        None => zeros(count),
    }
}
