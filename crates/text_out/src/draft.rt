//! Lines that are made at the end of a text.

ghost use Rattle.std.specs.Prelude.{◌≡◌, ◌≤◌, ◌++◌, ◌∷◌, [], length, drop, IfOk, OnOk, OnErr};
ghost use Rattle.fsa_model.specs.Text.{hex_digits};

use crate::digits::write_digits;
use fsa_types::NoMemory;
use std::alloc::Global;
use std::marker::Model;

/// A text, and the lines that are made at its end. Where memory is wanting for one of them, `drop_lines` takes all
/// away, and the text is as it was before them.
#[derive(Drop)]
pub struct Draft {
    // the text, and the lines behind it
    text: Vec<u8>,
    // where the lines begin
    place: usize,
}

impl Model for Draft {
    ghost use Rattle.std.specs.Prelude.{◌≤◌, length, take, drop};
    ghost use Rattle.text_out.specs.Drafts.{Drafted};

    ghost Value = { Drafted };

    ghost view = { λ draft. record { before = take draft.place draft.text.items; lines = drop draft.place draft.text.items } };

    ghost invariant = { λ draft. draft.place ≤ length draft.text.items };
}

// Puts two digits for each byte at the end of a text, or nothing.
fn append_hex(text: &mut Vec<u8>, bytes: &[u8]) -> Result<(), NoMemory>
    ensures ok { OnOk result (text.new.items ≡ text.old.items ++ hex_digits bytes.now) }
    ensures err { OnErr result (text.new.items ≡ text.old.items) }
{
    let begin = text.len();
    let Some(count) = bytes.len().checked_mul(2) else {
        return Err(NoMemory);
    };
    let Some(end) = begin.checked_add(count) else {
        return Err(NoMemory);
    };
    text.resize(end, 0)?;
    write_digits(bytes, &mut text[begin..]);
    Ok(())
}

impl Draft {
    /// An empty text. It takes no memory.
    pub fn new(alloc: Global) -> Draft
        ensures before { result.before ≡ [] }
        ensures lines { result.lines ≡ [] }
    {
        Draft {
            text: Vec::new(alloc),
            place: 0,
        }
    }

    /// The text and the lines behind it.
    pub fn bytes(&self) -> &[u8]
        ensures { result.now ≡ self.now.before ++ self.now.lines }
    {
        &self.text
    }

    /// Begins new lines: those that were made are part of the text now.
    pub fn begin(&mut self)
        ensures before { self.new.before ≡ self.old.before ++ self.old.lines }
        ensures lines { self.new.lines ≡ [] }
    {
        self.place = self.text.len();
    }

    /// Takes the lines away.
    pub fn drop_lines(&mut self)
        ensures before { self.new.before ≡ self.old.before }
        ensures lines { self.new.lines ≡ [] }
    {
        self.text.truncate(self.place);
    }

    /// Takes all away.
    pub fn clear(&mut self)
        ensures before { self.new.before ≡ [] }
        ensures lines { self.new.lines ≡ [] }
    {
        self.text.clear();
        self.place = 0;
    }

    /// Takes so many bytes away from the front. All that is left counts as lines.
    pub fn drop_front(&mut self, count: usize)
        requires { count ≤ length (self.old.before ++ self.old.lines) }
        ensures before { self.new.before ≡ [] }
        ensures lines { self.new.lines ≡ drop count (self.old.before ++ self.old.lines) }
    {
        drop(self.text.drain(..count));
        self.place = 0;
    }

    /// Puts a byte at the end.
    pub fn push(&mut self, byte: u8) -> Result<(), NoMemory>
        ensures lines { IfOk result (λ _. self.new.lines ≡ self.old.lines ++ byte ∷ []) }
        ensures before { self.new.before ≡ self.old.before }
    {
        self.text.push(byte)?;
        Ok(())
    }

    /// Puts bytes at the end.
    pub fn push_bytes(&mut self, bytes: &[u8]) -> Result<(), NoMemory>
        ensures lines { IfOk result (λ _. self.new.lines ≡ self.old.lines ++ bytes.now) }
        ensures before { self.new.before ≡ self.old.before }
    {
        self.text.extend_from_slice(bytes)?;
        Ok(())
    }

    /// Puts two digits for each byte at the end.
    pub fn push_hex(&mut self, bytes: &[u8]) -> Result<(), NoMemory>
        ensures lines { IfOk result (λ _. self.new.lines ≡ self.old.lines ++ hex_digits bytes.now) }
        ensures before { self.new.before ≡ self.old.before }
    {
        append_hex(&mut self.text, bytes)
    }
}
