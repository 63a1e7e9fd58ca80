//! Handles of a stream, of a link, or below a directory.

ghost use Rattle.std.specs.Prelude.{◌≡◌, ◌==◌, ◌&&◌, Some};
ghost use Rattle.fsa_types.specs.Oplocks.{is_same_key};
ghost use Rattle.fsa_types.specs.Sharing.{clash};
ghost use Rattle.fsa_model.specs.Lookups.{is_at_or_below, is_below, is_one_of, is_open_on, leads_to};

use crate::effects::is_same_key;
use crate::links::LinksByFile;
use crate::rows::HandleRow;
use fsa_types::HandleSet;
use tallies::clash;

/// Whether a directory is that one or lies below it.
pub fn is_at_or_below(links: &LinksByFile, above: u64, dir: u64) -> bool
    ensures { result ≡ is_at_or_below links.now.rows above dir }
{
    let mut at = dir;
    let mut more = links.len();
    'up: loop {
        if at == above {
            return true;
        }
        if more == 0 {
            return false;
        }
        let Some(link) = links.first_of(at) else {
            return false;
        };
        at = link.parent;
        more -= 1;
    }
}

// Whether this link lies below that directory.
fn is_below(links: &LinksByFile, above: u64, link: u64) -> bool
    ensures { result ≡ is_below links.now.rows above link }
{
    match links.get(link) {
        None => false,
        Some(row) => is_at_or_below(links, above, row.parent),
    }
}

/// Whether a handle is one of the set.
pub fn is_one_of(links: &LinksByFile, on: HandleSet, handle: &HandleRow) -> bool
    ensures { result ≡ is_one_of links.now.rows on handle.now }
{
    match on {
        HandleSet::Stream(stream) => handle.stream == Some(stream),
        HandleSet::Link(link) => handle.link == link,
        HandleSet::Below(dir) => is_below(links, dir, handle.link),
    }
}

/// Whether a handle is of the set and clashes with these access and share masks.
pub fn is_clashing(
    links: &LinksByFile,
    on: HandleSet,
    access: u32,
    share: u32,
    handle: &HandleRow,
) -> bool
    ensures { result ≡ (is_one_of links.now.rows on handle.now && clash access share handle.now.access handle.now.share) }
{
    is_one_of(links, on, handle) && clash(access, share, handle.access, handle.share)
}
