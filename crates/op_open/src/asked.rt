//! What an open asks for.

ghost use Rattle.std.specs.Prelude.{◌≡◌, ◌||◌, ◌&&◌, ◌==◌, not};
ghost use Rattle.fsa_model.specs.Open.{access_of, attribute_rights, completes_if_oplocked, deletes_on_close, is_invalid, lacks_delete, only_makes, only_opens, opens_point, overwrites, wants_directory, wants_file, wants_more, wants_no_right};
ghost use Rattle.fsa_types.specs.Access.{has_any, has_other};
ghost use Rattle.fsa_types.specs.Masks.{known_options, known_rights, known_shares};

use acl_check::map_generic;
use bitflags::Flags;
use fsa_types::{AccessMask, CreateOptions, Disposition, FileAttributes, ShareAccess};
use op_parts::{has_other_attribute, has_right};
use std::marker::Model;

/// What an open asks for, as its call has it.
#[derive(Drop)]
pub struct Asked<'a> {
    /// The client, by its place in the setup.
    pub client: u32,
    /// The number of the client's call.
    pub number: u32,
    /// The units of the path.
    pub path: &'a [u16],
    /// The rights wanted, generic ones among them.
    pub wanted: u32,
    /// What others may have.
    pub share: u32,
    /// What is done where the file is there, and where it isn't.
    pub disposition: Disposition,
    /// The options.
    pub options: u32,
    /// The attributes of a file that is made or overwritten.
    pub attributes: u32,
    /// The oplock key; 0 is the key of no other handle.
    pub key: u64,
}

impl<'a> Model for Asked<'a> {
    ghost use Rattle.fsa_model.specs.Open.{Asked as Asking};

    ghost Value = { Asking };

    ghost view = { λ a. record {
      client = a.client;
      number = a.number;
      path = a.path.now;
      wanted = a.wanted;
      share = a.share;
      disposition = a.disposition;
      options = a.options;
      attributes = a.attributes;
      key = a.key;
    } };
}

// Whether there is a bit of sharing that isn't one.
#[tactic(auto, unfolding(bitflags::specs::Sets::known_from))]
fn has_other_share(share: u32) -> bool
    ensures { result ≡ has_other share known_shares }
{
    match ShareAccess::from_bits(share) {
        Some(_) => false,
        None => true,
    }
}

// Whether there is an option that isn't accepted.
#[tactic(auto, unfolding(bitflags::specs::Sets::known_from))]
fn has_other_option(options: u32) -> bool
    ensures { result ≡ has_other options known_options }
{
    match CreateOptions::from_bits(options) {
        Some(_) => false,
        None => true,
    }
}

// Whether there is a right that isn't one.
#[tactic(auto, unfolding(bitflags::specs::Sets::known_from))]
fn has_other_right(rights: u32) -> bool
    ensures { result ≡ has_other rights known_rights }
{
    match AccessMask::from_bits(rights) {
        Some(_) => false,
        None => true,
    }
}

// Whether these options have one of these.
fn has_option(options: u32, some: CreateOptions) -> bool
    ensures { result ≡ has_any options some.0 }
{
    CreateOptions::from_bits_retain(options).intersects(some)
}

/// Whether these attributes have some of these bits.
pub fn has_attribute(attributes: u32, some: FileAttributes) -> bool
    ensures { result ≡ has_any attributes some.0 }
{
    FileAttributes::from_bits_retain(attributes).intersects(some)
}

/// Whether what is there is overwritten.
pub fn overwrites(disposition: Disposition) -> bool
    ensures { result ≡ overwrites disposition }
{
    match disposition {
        Disposition::Supersede | Disposition::Overwrite | Disposition::OverwriteIf => true,
        Disposition::OpenExisting | Disposition::CreateNew | Disposition::OpenIf => false,
    }
}

/// Whether what is missing isn't made.
pub fn only_opens(disposition: Disposition) -> bool
    ensures { result ≡ only_opens disposition }
{
    matches!(
        disposition,
        Disposition::OpenExisting | Disposition::Overwrite
    )
}

/// Whether what is there isn't opened.
pub fn only_makes(disposition: Disposition) -> bool
    ensures { result ≡ only_makes disposition }
{
    matches!(disposition, Disposition::CreateNew)
}

impl<'a> Asked<'a> {
    /// Whether a directory is asked for.
    pub fn wants_directory(&self) -> bool
        ensures { result ≡ wants_directory self.now }
    {
        has_option(self.options, CreateOptions::DIRECTORY_FILE)
    }

    /// Whether a file is asked for.
    pub fn wants_file(&self) -> bool
        ensures { result ≡ wants_file self.now }
    {
        has_option(self.options, CreateOptions::NON_DIRECTORY_FILE)
    }

    /// Whether the open goes on where a break would be waited for.
    pub fn completes_if_oplocked(&self) -> bool
        ensures { result ≡ completes_if_oplocked self.now }
    {
        has_option(self.options, CreateOptions::COMPLETE_IF_OPLOCKED)
    }

    /// Whether the stream or the link is marked for deletion when the handle closes.
    pub fn deletes_on_close(&self) -> bool
        ensures { result ≡ deletes_on_close self.now }
    {
        has_option(self.options, CreateOptions::DELETE_ON_CLOSE)
    }

    /// Whether a reparse point is opened itself.
    pub fn opens_point(&self) -> bool
        ensures { result ≡ opens_point self.now }
    {
        has_option(self.options, CreateOptions::OPEN_REPARSE_POINT)
    }

    /// The rights wanted, generic ones replaced by what they stand for.
    pub fn access(&self) -> u32
        ensures { result ≡ access_of self.now }
    {
        map_generic(self.wanted)
    }

    /// Whether masks, options or attributes are such that the open is refused at once.
    pub fn is_invalid(&self) -> bool
        ensures { result ≡ is_invalid self.now }
    {
        has_other_share(self.share)
            || has_other_option(self.options)
            || has_other_attribute(self.attributes)
            || (self.wants_directory() && self.wants_file())
            || (self.wants_directory() && overwrites(self.disposition))
    }

    /// Whether no right is wanted, or one that there isn't.
    pub fn wants_no_right(&self) -> bool
        ensures { result ≡ wants_no_right self.now }
    {
        self.wanted == 0 || has_other_right(self.wanted)
    }

    /// Whether DELETE_ON_CLOSE is asked for without DELETE.
    pub fn lacks_delete(&self) -> bool
        ensures { result ≡ lacks_delete self.now }
    {
        self.deletes_on_close() && !has_right(self.access(), AccessMask::DELETE)
    }

    /// Whether more is wanted than READ_ATTRIBUTES, WRITE_ATTRIBUTES and SYNCHRONIZE.
    pub fn wants_more(&self) -> bool
        ensures { result ≡ wants_more self.now }
    {
        has_more(self.access())
    }
}

// Whether these rights are more than READ_ATTRIBUTES, WRITE_ATTRIBUTES and SYNCHRONIZE.
fn has_more(rights: u32) -> bool
    ensures { result ≡ has_other rights attribute_rights }
{
    let attributes = AccessMask::READ_ATTRIBUTES.bits()
        | AccessMask::WRITE_ATTRIBUTES.bits()
        | AccessMask::SYNCHRONIZE.bits();
    rights & attributes != rights
}
