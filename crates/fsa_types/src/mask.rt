//! The masks of requests and replies, as sets of named bits. Their names are the standard's without the beginning that
//! the type says, where they have it: FILE_, FILE_SHARE_, FILE_ATTRIBUTE_ or FILE_NOTIFY_CHANGE_. Constants have whole
//! names.

ghost use Rattle.std.specs.Prelude.{⊤, [], ◌∷◌, codes};

use bitflags::{Flag, Flags, bitflag_items};

/// The rights of an open or of an access entry, after [MS-DTYP] 'ACCESS_MASK'. Generic rights are mapped to
/// these before they count.
#[derive(Clone, Copy, PartialEq, Eq, Debug)]
pub struct AccessMask(u32);

bitflag_items! {
    impl AccessMask: u32 {
        /// Read the stream, list the directory.
        const READ_DATA = 0x1;
        /// Write the stream, add a file to the directory.
        const WRITE_DATA = 0x2;
        /// Write at the end of the stream, add a directory to the directory.
        const APPEND_DATA = 0x4;
        /// Read extended attributes; there are none here.
        const READ_EA = 0x8;
        /// Write extended attributes; there are none here.
        const WRITE_EA = 0x10;
        /// Execute the file. It counts as read access in sharing.
        const EXECUTE = 0x20;
        /// Delete an entry of the directory; it grants nothing here.
        const DELETE_CHILD = 0x40;
        /// Read attributes and times.
        const READ_ATTRIBUTES = 0x80;
        /// Write attributes and times.
        const WRITE_ATTRIBUTES = 0x100;
        /// Delete or rename.
        const DELETE = 0x10000;
        /// Read the owner and the access list.
        const READ_CONTROL = 0x20000;
        /// Write the access list.
        const WRITE_DAC = 0x40000;
        /// Write the owner.
        const WRITE_OWNER = 0x80000;
        /// Wait for the handle.
        const SYNCHRONIZE = 0x100000;
        /// Stands for `0x1F01FF`.
        const GENERIC_ALL = 0x10000000;
        /// Stands for `0x1200A0`.
        const GENERIC_EXECUTE = 0x20000000;
        /// Stands for `0x120116`.
        const GENERIC_WRITE = 0x40000000;
        /// Stands for `0x120089`.
        const GENERIC_READ = 0x80000000;
    }
}

impl Flags for AccessMask {
    type Bits = u32;

    ghost exact = { ⊤ };

    ghost table = { (codes "READ_DATA", 0x1) ∷
        (codes "WRITE_DATA", 0x2) ∷
        (codes "APPEND_DATA", 0x4) ∷
        (codes "READ_EA", 0x8) ∷
        (codes "WRITE_EA", 0x10) ∷
        (codes "EXECUTE", 0x20) ∷
        (codes "DELETE_CHILD", 0x40) ∷
        (codes "READ_ATTRIBUTES", 0x80) ∷
        (codes "WRITE_ATTRIBUTES", 0x100) ∷
        (codes "DELETE", 0x10000) ∷
        (codes "READ_CONTROL", 0x20000) ∷
        (codes "WRITE_DAC", 0x40000) ∷
        (codes "WRITE_OWNER", 0x80000) ∷
        (codes "SYNCHRONIZE", 0x100000) ∷
        (codes "GENERIC_ALL", 0x10000000) ∷
        (codes "GENERIC_EXECUTE", 0x20000000) ∷
        (codes "GENERIC_WRITE", 0x40000000) ∷
        (codes "GENERIC_READ", 0x80000000) ∷
        [] };

    ghost set_of = { λ p. p.0 };

    fn flags<'a>() -> &'a [Flag<AccessMask>] {
        AccessMask::FLAGS
    }

    fn bits(&self) -> u32 {
        self.0
    }

    fn from_bits_retain(bits: u32) -> AccessMask {
        AccessMask(bits)
    }
}

/// What an open lets others have, after [MS-FSA] 'Server Requests an Open of a File', ShareAccess.
#[derive(Clone, Copy, PartialEq, Eq, Debug)]
pub struct ShareAccess(u32);

bitflag_items! {
    impl ShareAccess: u32 {
        /// Others may have read access.
        const SHARE_READ = 0x1;
        /// Others may have write access.
        const SHARE_WRITE = 0x2;
        /// Others may have delete access.
        const SHARE_DELETE = 0x4;
    }
}

impl Flags for ShareAccess {
    type Bits = u32;

    ghost exact = { ⊤ };

    ghost table = { (codes "SHARE_READ", 0x1) ∷
        (codes "SHARE_WRITE", 0x2) ∷
        (codes "SHARE_DELETE", 0x4) ∷
        [] };

    ghost set_of = { λ p. p.0 };

    fn flags<'a>() -> &'a [Flag<ShareAccess>] {
        ShareAccess::FLAGS
    }

    fn bits(&self) -> u32 {
        self.0
    }

    fn from_bits_retain(bits: u32) -> ShareAccess {
        ShareAccess(bits)
    }
}

/// The options of an open, after [MS-FSA] 'Server Requests an Open of a File', CreateOptions. Only the first
/// five have an effect here; the others are accepted.
#[derive(Clone, Copy, PartialEq, Eq, Debug)]
pub struct CreateOptions(u32);

bitflag_items! {
    impl CreateOptions: u32 {
        /// Open or make a directory.
        const DIRECTORY_FILE = 0x1;
        /// Open or make a file.
        const NON_DIRECTORY_FILE = 0x40;
        /// Answer OPLOCK_BREAK_IN_PROGRESS at once where a break of write caching has to be waited for.
        const COMPLETE_IF_OPLOCKED = 0x100;
        /// Mark for deletion when the handle closes.
        const DELETE_ON_CLOSE = 0x1000;
        /// Open the reparse point itself.
        const OPEN_REPARSE_POINT = 0x200000;
        /// Accepted without effect.
        const WRITE_THROUGH = 0x2;
        /// Accepted without effect.
        const SEQUENTIAL_ONLY = 0x4;
        /// Accepted without effect.
        const NO_INTERMEDIATE_BUFFERING = 0x8;
        /// Accepted without effect.
        const SYNCHRONOUS_IO_ALERT = 0x10;
        /// Accepted without effect.
        const SYNCHRONOUS_IO_NONALERT = 0x20;
        /// Accepted without effect.
        const NO_EA_KNOWLEDGE = 0x200;
        /// Accepted without effect.
        const RANDOM_ACCESS = 0x800;
        /// Accepted without effect.
        const OPEN_FOR_BACKUP_INTENT = 0x4000;
        /// Accepted without effect.
        const NO_COMPRESSION = 0x8000;
        /// Accepted without effect.
        const OPEN_NO_RECALL = 0x400000;
    }
}

impl Flags for CreateOptions {
    type Bits = u32;

    ghost exact = { ⊤ };

    ghost table = { (codes "DIRECTORY_FILE", 0x1) ∷
        (codes "NON_DIRECTORY_FILE", 0x40) ∷
        (codes "COMPLETE_IF_OPLOCKED", 0x100) ∷
        (codes "DELETE_ON_CLOSE", 0x1000) ∷
        (codes "OPEN_REPARSE_POINT", 0x200000) ∷
        (codes "WRITE_THROUGH", 0x2) ∷
        (codes "SEQUENTIAL_ONLY", 0x4) ∷
        (codes "NO_INTERMEDIATE_BUFFERING", 0x8) ∷
        (codes "SYNCHRONOUS_IO_ALERT", 0x10) ∷
        (codes "SYNCHRONOUS_IO_NONALERT", 0x20) ∷
        (codes "NO_EA_KNOWLEDGE", 0x200) ∷
        (codes "RANDOM_ACCESS", 0x800) ∷
        (codes "OPEN_FOR_BACKUP_INTENT", 0x4000) ∷
        (codes "NO_COMPRESSION", 0x8000) ∷
        (codes "OPEN_NO_RECALL", 0x400000) ∷
        [] };

    ghost set_of = { λ p. p.0 };

    fn flags<'a>() -> &'a [Flag<CreateOptions>] {
        CreateOptions::FLAGS
    }

    fn bits(&self) -> u32 {
        self.0
    }

    fn from_bits_retain(bits: u32) -> CreateOptions {
        CreateOptions(bits)
    }
}

/// File attributes of requests, after [MS-FSCC] 'File Attributes'. READONLY, HIDDEN, SYSTEM and ARCHIVE are
/// kept; TEMPORARY, OFFLINE and NOT_CONTENT_INDEXED are accepted in requests and not kept.
#[derive(Clone, Copy, PartialEq, Eq, Debug)]
pub struct FileAttributes(u32);

bitflag_items! {
    impl FileAttributes: u32 {
        /// The file may not be written or deleted.
        const READONLY = 0x1;
        /// Hidden.
        const HIDDEN = 0x2;
        /// Of the system.
        const SYSTEM = 0x4;
        /// Shown for a directory.
        const DIRECTORY = 0x10;
        /// Changed since it was last archived.
        const ARCHIVE = 0x20;
        /// Shown where there is no other.
        const NORMAL = 0x80;
        /// Accepted and not kept.
        const TEMPORARY = 0x100;
        /// Accepted and not kept.
        const OFFLINE = 0x1000;
        /// Accepted and not kept.
        const NOT_CONTENT_INDEXED = 0x2000;
    }
}

impl Flags for FileAttributes {
    type Bits = u32;

    ghost exact = { ⊤ };

    ghost table = { (codes "READONLY", 0x1) ∷
        (codes "HIDDEN", 0x2) ∷
        (codes "SYSTEM", 0x4) ∷
        (codes "DIRECTORY", 0x10) ∷
        (codes "ARCHIVE", 0x20) ∷
        (codes "NORMAL", 0x80) ∷
        (codes "TEMPORARY", 0x100) ∷
        (codes "OFFLINE", 0x1000) ∷
        (codes "NOT_CONTENT_INDEXED", 0x2000) ∷
        [] };

    ghost set_of = { λ p. p.0 };

    fn flags<'a>() -> &'a [Flag<FileAttributes>] {
        FileAttributes::FLAGS
    }

    fn bits(&self) -> u32 {
        self.0
    }

    fn from_bits_retain(bits: u32) -> FileAttributes {
        FileAttributes(bits)
    }
}

/// What changes a watch asks for, after [MS-FSA] 'Server Requests Change Notifications for a Directory', CompletionFilter.
#[derive(Clone, Copy, PartialEq, Eq, Debug)]
pub struct NotifyFilter(u32);

bitflag_items! {
    impl NotifyFilter: u32 {
        /// A file was added, removed or renamed.
        const FILE_NAME = 0x1;
        /// A directory was added, removed or renamed.
        const DIR_NAME = 0x2;
        /// Attributes.
        const ATTRIBUTES = 0x4;
        /// The length of the default stream.
        const SIZE = 0x8;
        /// The time of the last write.
        const LAST_WRITE = 0x10;
        /// The time of the last access.
        const LAST_ACCESS = 0x20;
        /// The time of creation.
        const CREATION = 0x40;
        /// Extended attributes; there are none here.
        const EA = 0x80;
        /// Owner or access list.
        const SECURITY = 0x100;
        /// A named stream was added or removed.
        const STREAM_NAME = 0x200;
        /// The length of a named stream.
        const STREAM_SIZE = 0x400;
        /// A named stream was written.
        const STREAM_WRITE = 0x800;
    }
}

impl Flags for NotifyFilter {
    type Bits = u32;

    ghost exact = { ⊤ };

    ghost table = { (codes "FILE_NAME", 0x1) ∷
        (codes "DIR_NAME", 0x2) ∷
        (codes "ATTRIBUTES", 0x4) ∷
        (codes "SIZE", 0x8) ∷
        (codes "LAST_WRITE", 0x10) ∷
        (codes "LAST_ACCESS", 0x20) ∷
        (codes "CREATION", 0x40) ∷
        (codes "EA", 0x80) ∷
        (codes "SECURITY", 0x100) ∷
        (codes "STREAM_NAME", 0x200) ∷
        (codes "STREAM_SIZE", 0x400) ∷
        (codes "STREAM_WRITE", 0x800) ∷
        [] };

    ghost set_of = { λ p. p.0 };

    fn flags<'a>() -> &'a [Flag<NotifyFilter>] {
        NotifyFilter::FLAGS
    }

    fn bits(&self) -> u32 {
        self.0
    }

    fn from_bits_retain(bits: u32) -> NotifyFilter {
        NotifyFilter(bits)
    }
}

/// The attribute that is shown for a file with a reparse point and that no request may ask for,
/// after [MS-FSCC] 'File Attributes'.
pub const FILE_ATTRIBUTE_REPARSE_POINT: u32 = 0x400;

/// The tag 0 is reserved: no reparse point has it. After [MS-FSCC] 'Reparse Tags', as are the three below.
pub const IO_REPARSE_TAG_RESERVED_ZERO: u32 = 0;

/// The tag 1 is reserved: no reparse point has it.
pub const IO_REPARSE_TAG_RESERVED_ONE: u32 = 1;

/// The bit of the tags that Microsoft owns.
pub const MICROSOFT_TAG: u32 = 0x8000_0000;

/// The tag of a reparse point that is a symbolic link.
pub const IO_REPARSE_TAG_SYMLINK: u32 = 0xA000_000C;
