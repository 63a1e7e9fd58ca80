//! The rows that are packed.

ghost use Rattle.std.specs.Prelude.{◌≡◌};
ghost use Rattle.fsa_types.specs.PackedRows.{PackRow};

use crate::layout::Numbers;
use fsa_types::Name;
use std::marker::Model;

// What can be packed: numbers, and a name of units.
pub(crate) trait Row {
    // The row that it is.
    ghost row_of: { Self → PackRow };

    // Its numbers; those that a row of its kind doesn't have are 0.
    fn numbers(&self) -> Numbers
        ensures { result ≡ (row_of self.now).numbers };

    // The units of its name.
    fn units(&self) -> &[u16]
        ensures { result.now ≡ (row_of self.now).name };
}

/// A change that is told, after [MS-FSCC] 'FILE_NOTIFY_INFORMATION'.
#[derive(Drop)]
pub struct ChangeRow {
    /// What happened, as a FILE_ACTION.
    pub action: u32,
    /// The name, relative to the directory that is watched.
    pub name: Name,
}

impl Model for ChangeRow {
    ghost use Rattle.fsa_types.specs.PackedRows.{PackRow, change_row};

    ghost Value = { PackRow };

    ghost view = { λ r. change_row r.action r.name };
}

/// An entry of a directory, after [MS-FSCC] 'FileIdFullDirectoryInformation'. Times are in units of
/// 100 nanoseconds.
#[derive(Drop)]
pub struct DirRow {
    /// The time of creation.
    pub creation: u64,
    /// The time of the last access.
    pub access: u64,
    /// The time of the last write.
    pub write: u64,
    /// The time of the last change.
    pub change: u64,
    /// The length in bytes.
    pub length: u64,
    /// The allocation in bytes.
    pub room: u64,
    /// The attributes that are shown.
    pub attributes: u32,
    /// The id of the file.
    pub file: u64,
    /// The name.
    pub name: Name,
}

impl Model for DirRow {
    ghost use Rattle.fsa_types.specs.PackedRows.{PackRow};

    ghost Value = { PackRow };

    ghost view = { λ r. record {
      numbers = record {
        action = 0;
        creation = r.creation;
        access = r.access;
        write = r.write;
        change = r.change;
        length = r.length;
        room = r.room;
        attributes = r.attributes;
        file = r.file;
      };
      name = r.name;
    } };
}

/// A stream of a file, after [MS-FSCC] 'FileStreamInformation'.
#[derive(Drop)]
pub struct StreamInfoRow {
    /// The length in bytes.
    pub length: u64,
    /// The allocation in bytes.
    pub room: u64,
    /// The name, without colons; that of the default stream is empty.
    pub name: Name,
}

impl Model for StreamInfoRow {
    ghost use Rattle.fsa_types.specs.PackedRows.{PackRow, stream_row};

    ghost Value = { PackRow };

    ghost view = { λ r. stream_row r.length r.room r.name };
}

impl Row for ChangeRow {
    ghost row_of = { λ r. r };

    fn numbers(&self) -> Numbers {
        let mut numbers = Numbers::none();
        numbers.action = self.action;
        numbers
    }

    fn units(&self) -> &[u16] {
        self.name.units()
    }
}

impl Row for DirRow {
    ghost row_of = { λ r. r };

    fn numbers(&self) -> Numbers {
        Numbers {
            action: 0,
            creation: self.creation,
            access: self.access,
            write: self.write,
            change: self.change,
            length: self.length,
            room: self.room,
            attributes: self.attributes,
            file: self.file,
        }
    }

    fn units(&self) -> &[u16] {
        self.name.units()
    }
}

impl Row for StreamInfoRow {
    ghost row_of = { λ r. r };

    fn numbers(&self) -> Numbers {
        let mut numbers = Numbers::none();
        numbers.length = self.length;
        numbers.room = self.room;
        numbers
    }

    fn units(&self) -> &[u16] {
        self.name.units()
    }
}
