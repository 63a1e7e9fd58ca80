//! What is asked for.

ghost use Rattle.std.specs.Prelude.{◌≡◌, ◌==◌, ◌<◌, ℕ, true, false, IfSome, IfNone, length};
ghost use Rattle.fsa_types.specs.Paths.{components};
ghost use Rattle.fsa_model.specs.Replacement.{is_no_name, new_name};

use names::{PathParts, split_path};
use std::marker::Model;

/// A new name that is asked for by a handle.
#[derive(Drop)]
pub struct Naming<'a> {
    /// The client, by its place in the setup.
    pub client: u32,
    /// The number of the handle in the volume.
    pub handle: u64,
    /// Its oplock key.
    pub key: u64,
    /// The link by which it was opened.
    pub link: u64,
    /// The file of that link.
    pub file: u64,
    /// The units of the new path.
    pub path: &'a [u16],
    /// Whether a file that is there already is replaced.
    pub replace: bool,
}

impl<'a> Model for Naming<'a> {
    ghost use Rattle.fsa_model.specs.Replacement.{Naming as TheNaming};

    ghost Value = { TheNaming };

    ghost view = { λ n. record {
      client = n.client;
      handle = n.handle;
      key = n.key;
      link = n.link;
      file = n.file;
      path = n.path.now;
      replace = n.replace;
    } };
}

/// The parts of a path that names what a link can name; `None` where it has a fault, is the root's or
/// has a stream part.
pub fn parts_of_name<'a>(path: &'a [u16]) -> Option<PathParts<'a>>
    ensures some { IfSome result (λ parts. (parts ≡ path.now) × (is_no_name path.now ≡ false)) }
    ensures names { IfSome result (λ parts. 0 < length (components path.now)) }
    ensures none { IfNone result (is_no_name path.now ≡ true) }
{
    let Ok(parts) = split_path(path) else {
        return None;
    };
    if parts.is_empty() || parts.stream().is_some() {
        return None;
    }
    Some(parts)
}

/// The name in the new directory. The path has to name one.
pub fn new_name<'a>(naming: &Naming, parts: &PathParts<'a>) -> &'a [u16]
    requires path { parts.now ≡ naming.now.path }
    requires some { 0 < length (components naming.now.path) }
    ensures { result.now ≡ new_name naming.now }
{
    parts.component(parts.len() - 1)
}

/// What is asked for, with its new name.
#[derive(Drop)]
pub struct Named<'a> {
    naming: &'a Naming<'a>,
    name: &'a [u16],
}

impl<'a> Model for Named<'a> {
    ghost use Rattle.std.specs.Prelude.{◌≡◌};
    ghost use Rattle.fsa_model.specs.Replacement.{Naming as TheNaming, new_name};

    ghost Value = { TheNaming };

    ghost view = { λ n. n.naming.now };

    ghost invariant = { λ n. n.name.now ≡ new_name n.naming.now };
}

impl<'a> Named<'a> {
    /// What is asked for, with this name.
    pub fn new(naming: &'a Naming<'a>, name: &'a [u16]) -> Named<'a>
        requires name { name.now ≡ new_name naming.now }
        ensures { result ≡ naming.now }
    {
        Named { naming, name }
    }

    /// What is asked for.
    pub fn asked(&self) -> &'a Naming<'a>
        ensures { result.now ≡ self.now }
    {
        self.naming
    }

    /// The number of the handle.
    pub fn handle(&self) -> u64
        ensures { result ≡ self.now.handle }
    {
        let naming = self.naming;
        naming.handle
    }

    /// Its oplock key.
    pub fn key(&self) -> u64
        ensures { result ≡ self.now.key }
    {
        let naming = self.naming;
        naming.key
    }

    /// The link by which the handle was opened.
    pub fn link(&self) -> u64
        ensures { result ≡ self.now.link }
    {
        let naming = self.naming;
        naming.link
    }

    /// The client, by its place in the setup.
    pub fn client(&self) -> u32
        ensures { result ≡ self.now.client }
    {
        let naming = self.naming;
        naming.client
    }

    /// The file of that link.
    pub fn file(&self) -> u64
        ensures { result ≡ self.now.file }
    {
        let naming = self.naming;
        naming.file
    }

    /// The name in the new directory.
    pub fn name(&self) -> &'a [u16]
        ensures { result.now ≡ new_name self.now }
    {
        self.name
    }
}
