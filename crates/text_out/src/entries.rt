//! The printed entries of packed bodies.

ghost use Rattle.std.specs.Prelude.{◌≡◌, ◌<◌, ◌++◌, ◌∷◌, [], length, decimal, IfOk, IfSome, IfNone};
ghost use Rattle.std.specs.List.{flat_map};
ghost use Rattle.fsa_types.specs.PackedRows.{pack_kind};
ghost use Rattle.fsa_types.specs.declared.reply.PackKind.TheVariants.{Changes, Streams};
ghost use Rattle.fsa_model.specs.FieldText.{unit_text};
ghost use Rattle.fsa_model.specs.PackedText.{attributes_text, change_word, entry_text, length_text, packed_text, units_in};
ghost use Rattle.pack_info.specs.Walks.{left_of, seen};
ghost use Rattle.text_out.specs.EntrySteps.{Finds, FindsNone};

use crate::bodies::{push_hexadecimal, push_unit};
use crate::draft::Draft;
use crate::text::{push_number, push_text};
use fsa_types::{
    DirKind, FILE_ACTION_ADDED, FILE_ACTION_ADDED_STREAM, FILE_ACTION_MODIFIED,
    FILE_ACTION_MODIFIED_STREAM, FILE_ACTION_REMOVED, FILE_ACTION_REMOVED_STREAM,
    FILE_ACTION_RENAMED_NEW_NAME, FILE_ACTION_RENAMED_OLD_NAME, NoMemory, PackKind,
};
use itoa::Buffer;
use pack_info::{DirEntries, NotifyEntries, PackedEntry, StreamEntries, pack_kind};

// The word of a change's action, and the number of one that isn't known.
fn push_action(draft: &mut Draft, action: u32) -> Result<(), NoMemory>
    ensures lines { IfOk result (λ _. draft.new.lines ≡ draft.old.lines ++ change_word action) }
    ensures before { draft.new.before ≡ draft.old.before }
{
    if action == FILE_ACTION_ADDED {
        push_text(draft, "ADDED")
    } else if action == FILE_ACTION_REMOVED {
        push_text(draft, "REMOVED")
    } else if action == FILE_ACTION_MODIFIED {
        push_text(draft, "MODIFIED")
    } else if action == FILE_ACTION_RENAMED_OLD_NAME {
        push_text(draft, "RENAMED_OLD_NAME")
    } else if action == FILE_ACTION_RENAMED_NEW_NAME {
        push_text(draft, "RENAMED_NEW_NAME")
    } else if action == FILE_ACTION_ADDED_STREAM {
        push_text(draft, "ADDED_STREAM")
    } else if action == FILE_ACTION_REMOVED_STREAM {
        push_text(draft, "REMOVED_STREAM")
    } else if action == FILE_ACTION_MODIFIED_STREAM {
        push_text(draft, "MODIFIED_STREAM")
    } else {
        push_number(draft, action)
    }
}

// The units in a field of two bytes each, one after another.
fn push_field(draft: &mut Draft, field: &[u8]) -> Result<(), NoMemory>
    ensures lines { IfOk result (λ _. draft.new.lines ≡ draft.old.lines ++ flat_map unit_text (units_in field.now)) }
    ensures before { draft.new.before ≡ draft.old.before }
{
    let mut rest = field;
    'units: while let [low, high, more @ ..] = rest {
        push_unit(draft, u16::from(*low) + u16::from(*high) * 256)?;
        rest = more;
    }
    Ok(())
}

// A length, behind a comma.
fn push_length(draft: &mut Draft, number: u64) -> Result<(), NoMemory>
    ensures lines { IfOk result (λ _. draft.new.lines ≡ draft.old.lines ++ length_text number) }
    ensures before { draft.new.before ≡ draft.old.before }
{
    let mut buffer = Buffer::new();
    draft.push(b',')?;
    draft.push_bytes(buffer.format(number).as_bytes())
}

// Attributes, behind a comma.
fn push_attributes(draft: &mut Draft, mask: u32) -> Result<(), NoMemory>
    ensures lines { IfOk result (λ _. draft.new.lines ≡ draft.old.lines ++ attributes_text mask) }
    ensures before { draft.new.before ≡ draft.old.before }
{
    push_text(draft, ",0x")?;
    push_hexadecimal(draft, mask)
}

// An entry, behind a space.
fn push_entry(draft: &mut Draft, kind: PackKind, entry: &PackedEntry) -> Result<(), NoMemory>
    ensures lines { IfOk result (λ _. draft.new.lines ≡ draft.old.lines ++ entry_text kind (seen entry.now)) }
    ensures before { draft.new.before ≡ draft.old.before }
{
    match kind {
        PackKind::Changes => {
            draft.push(b' ')?;
            push_action(draft, entry.action)?;
            draft.push(b'=')?;
            push_field(draft, entry.name)
        }
        PackKind::Names => {
            push_text(draft, " =")?;
            push_field(draft, entry.name)
        }
        PackKind::Dir | PackKind::Full | PackKind::IdFull => {
            push_text(draft, " =")?;
            push_field(draft, entry.name)?;
            push_attributes(draft, entry.attributes)?;
            push_length(draft, entry.length)
        }
        PackKind::Streams => {
            push_text(draft, " =")?;
            push_field(draft, entry.name)?;
            push_length(draft, entry.length)
        }
    }
}

// The next change; none at the end, and none where no entry begins.
#[tactic(auto, using(crate::proofs::EntryLaws::found_of, crate::proofs::EntryLaws::none_of))]
fn next_change<'a>(walk: &mut NotifyEntries<'a>) -> Option<PackedEntry<'a>>
    ensures found { IfSome result (λ entry. Finds walk.old walk.new (seen entry)) }
    ensures only { IfNone result (FindsNone walk.old) }
{
    match walk.next() {
        Ok(next) => next,
        Err(_) => None,
    }
}

// The changes of a buffer.
fn push_changes(draft: &mut Draft, bytes: &[u8]) -> Result<(), NoMemory>
    ensures lines { IfOk result (λ _. draft.new.lines ≡ draft.old.lines ++ packed_text Changes bytes.now) }
    ensures before { draft.new.before ≡ draft.old.before }
{
    let mut walk = NotifyEntries::of(bytes);
    'entries: while let Some(entry) = next_change(&mut walk) {
        push_entry(draft, PackKind::Changes, &entry)?;
    }
    Ok(())
}

// The next stream; none at the end, and none where no entry begins.
#[tactic(auto, using(crate::proofs::EntryLaws::found_of, crate::proofs::EntryLaws::none_of))]
fn next_stream<'a>(walk: &mut StreamEntries<'a>) -> Option<PackedEntry<'a>>
    ensures found { IfSome result (λ entry. Finds walk.old walk.new (seen entry)) }
    ensures only { IfNone result (FindsNone walk.old) }
{
    match walk.next() {
        Ok(next) => next,
        Err(_) => None,
    }
}

// The streams of a buffer.
fn push_streams(draft: &mut Draft, bytes: &[u8]) -> Result<(), NoMemory>
    ensures lines { IfOk result (λ _. draft.new.lines ≡ draft.old.lines ++ packed_text Streams bytes.now) }
    ensures before { draft.new.before ≡ draft.old.before }
{
    let mut walk = StreamEntries::of(bytes);
    'entries: while let Some(entry) = next_stream(&mut walk) {
        push_entry(draft, PackKind::Streams, &entry)?;
    }
    Ok(())
}

// The next entry of a directory; none at the end, and none where no entry begins.
#[tactic(auto, using(crate::proofs::EntryLaws::found_of, crate::proofs::EntryLaws::none_of))]
fn next_listed<'a>(walk: &mut DirEntries<'a>) -> Option<PackedEntry<'a>>
    ensures found { IfSome result (λ entry. Finds walk.old walk.new (seen entry)) }
    ensures only { IfNone result (FindsNone walk.old) }
{
    match walk.next() {
        Ok(next) => next,
        Err(_) => None,
    }
}

// The entries of a directory in a buffer.
fn push_listing(draft: &mut Draft, kind: DirKind, bytes: &[u8]) -> Result<(), NoMemory>
    ensures lines { IfOk result (λ _. draft.new.lines ≡ draft.old.lines ++ packed_text (pack_kind kind) bytes.now) }
    ensures before { draft.new.before ≡ draft.old.before }
{
    let mut walk = DirEntries::of(kind, bytes);
    'entries: while let Some(entry) = next_listed(&mut walk) {
        push_entry(draft, pack_kind(kind), &entry)?;
    }
    Ok(())
}

/// Puts the entries of a buffer at the end, up to where no entry begins.
pub fn push_entries(draft: &mut Draft, kind: PackKind, bytes: &[u8]) -> Result<(), NoMemory>
    ensures lines { IfOk result (λ _. draft.new.lines ≡ draft.old.lines ++ packed_text kind bytes.now) }
    ensures before { draft.new.before ≡ draft.old.before }
{
    match kind {
        PackKind::Changes => push_changes(draft, bytes),
        PackKind::Names => push_listing(draft, DirKind::Names, bytes),
        PackKind::Dir => push_listing(draft, DirKind::Dir, bytes),
        PackKind::Full => push_listing(draft, DirKind::Full, bytes),
        PackKind::IdFull => push_listing(draft, DirKind::IdFull, bytes),
        PackKind::Streams => push_streams(draft, bytes),
    }
}
