//! The statuses that calls answer, with the codes of [MS-ERREF] 'NTSTATUS Values'.

ghost use Rattle.std.specs.Prelude.{◌≡◌};
ghost use Rattle.fsa_types.specs.Status.{status_code, status_name};

/// A status. Each has one code and one name. The names are those of [MS-ERREF] without their
/// prefix `STATUS_`; `Stalled` and `NoMemory` are this store's own, with codes outside Microsoft's.
#[derive(Clone, Copy, Debug, PartialEq, Eq)]
pub enum Status {
    /// `0x0`, STATUS_SUCCESS.
    Success,
    /// `0x103`, STATUS_PENDING.
    Pending,
    /// `0x104`, STATUS_REPARSE.
    Reparse,
    /// `0x108`, STATUS_OPLOCK_BREAK_IN_PROGRESS.
    OplockBreakInProgress,
    /// `0x10B`, STATUS_NOTIFY_CLEANUP.
    NotifyCleanup,
    /// `0x10C`, STATUS_NOTIFY_ENUM_DIR.
    NotifyEnumDir,
    /// `0x215`, STATUS_OPLOCK_SWITCHED_TO_NEW_HANDLE.
    OplockSwitchedToNewHandle,
    /// `0x216`, STATUS_OPLOCK_HANDLE_CLOSED.
    OplockHandleClosed,
    /// `0x80000005`, STATUS_BUFFER_OVERFLOW.
    BufferOverflow,
    /// `0x80000006`, STATUS_NO_MORE_FILES.
    NoMoreFiles,
    /// `0x8000002D`, STATUS_STOPPED_ON_SYMLINK.
    StoppedOnSymlink,
    /// `0xC0000008`, STATUS_INVALID_HANDLE.
    InvalidHandle,
    /// `0xC000000D`, STATUS_INVALID_PARAMETER.
    InvalidParameter,
    /// `0xC000000F`, STATUS_NO_SUCH_FILE.
    NoSuchFile,
    /// `0xC0000010`, STATUS_INVALID_DEVICE_REQUEST.
    InvalidDeviceRequest,
    /// `0xC0000011`, STATUS_END_OF_FILE.
    EndOfFile,
    /// `0xC0000022`, STATUS_ACCESS_DENIED.
    AccessDenied,
    /// `0xC0000023`, STATUS_BUFFER_TOO_SMALL.
    BufferTooSmall,
    /// `0xC0000033`, STATUS_OBJECT_NAME_INVALID.
    ObjectNameInvalid,
    /// `0xC0000034`, STATUS_OBJECT_NAME_NOT_FOUND.
    ObjectNameNotFound,
    /// `0xC0000035`, STATUS_OBJECT_NAME_COLLISION.
    ObjectNameCollision,
    /// `0xC000003A`, STATUS_OBJECT_PATH_NOT_FOUND.
    ObjectPathNotFound,
    /// `0xC0000043`, STATUS_SHARING_VIOLATION.
    SharingViolation,
    /// `0xC0000044`, STATUS_QUOTA_EXCEEDED.
    QuotaExceeded,
    /// `0xC0000054`, STATUS_FILE_LOCK_CONFLICT.
    FileLockConflict,
    /// `0xC0000055`, STATUS_LOCK_NOT_GRANTED.
    LockNotGranted,
    /// `0xC0000056`, STATUS_DELETE_PENDING.
    DeletePending,
    /// `0xC000007E`, STATUS_RANGE_NOT_LOCKED.
    RangeNotLocked,
    /// `0xC000007F`, STATUS_DISK_FULL.
    DiskFull,
    /// `0xC00000BA`, STATUS_FILE_IS_A_DIRECTORY.
    FileIsADirectory,
    /// `0xC00000E2`, STATUS_OPLOCK_NOT_GRANTED.
    OplockNotGranted,
    /// `0xC00000E3`, STATUS_INVALID_OPLOCK_PROTOCOL.
    InvalidOplockProtocol,
    /// `0xC0000101`, STATUS_DIRECTORY_NOT_EMPTY.
    DirectoryNotEmpty,
    /// `0xC0000103`, STATUS_NOT_A_DIRECTORY.
    NotADirectory,
    /// `0xC0000120`, STATUS_CANCELLED.
    Cancelled,
    /// `0xC0000121`, STATUS_CANNOT_DELETE.
    CannotDelete,
    /// `0xC00001A1`, STATUS_INVALID_LOCK_RANGE.
    InvalidLockRange,
    /// `0xC0000265`, STATUS_TOO_MANY_LINKS.
    TooManyLinks,
    /// `0xC0000275`, STATUS_NOT_A_REPARSE_POINT.
    NotAReparsePoint,
    /// `0xC0000276`, STATUS_IO_REPARSE_TAG_INVALID.
    IoReparseTagInvalid,
    /// `0xC0000277`, STATUS_IO_REPARSE_TAG_MISMATCH.
    IoReparseTagMismatch,
    /// `0xC0000278`, STATUS_IO_REPARSE_DATA_INVALID.
    IoReparseDataInvalid,
    /// `0xC0000004`, STATUS_INFO_LENGTH_MISMATCH.
    InfoLengthMismatch,
    /// `0xE0000001`, own: every client that hasn't left waits for one of its calls to end.
    Stalled,
    /// `0xE0000002`, own: a pending call was taken up and found no memory.
    NoMemory,
}

impl Status {
    /// The code, as [MS-ERREF] 'NTSTATUS Values' has it. It takes no memory.
    pub fn code(&self) -> u32
        ensures { result ≡ status_code self.now }
    {
        match self {
            Status::Success => 0x0,
            Status::Pending => 0x103,
            Status::Reparse => 0x104,
            Status::OplockBreakInProgress => 0x108,
            Status::NotifyCleanup => 0x10B,
            Status::NotifyEnumDir => 0x10C,
            Status::OplockSwitchedToNewHandle => 0x215,
            Status::OplockHandleClosed => 0x216,
            Status::BufferOverflow => 0x80000005,
            Status::NoMoreFiles => 0x80000006,
            Status::StoppedOnSymlink => 0x8000002D,
            Status::InvalidHandle => 0xC0000008,
            Status::InvalidParameter => 0xC000000D,
            Status::NoSuchFile => 0xC000000F,
            Status::InvalidDeviceRequest => 0xC0000010,
            Status::EndOfFile => 0xC0000011,
            Status::AccessDenied => 0xC0000022,
            Status::BufferTooSmall => 0xC0000023,
            Status::ObjectNameInvalid => 0xC0000033,
            Status::ObjectNameNotFound => 0xC0000034,
            Status::ObjectNameCollision => 0xC0000035,
            Status::ObjectPathNotFound => 0xC000003A,
            Status::SharingViolation => 0xC0000043,
            Status::QuotaExceeded => 0xC0000044,
            Status::FileLockConflict => 0xC0000054,
            Status::LockNotGranted => 0xC0000055,
            Status::DeletePending => 0xC0000056,
            Status::RangeNotLocked => 0xC000007E,
            Status::DiskFull => 0xC000007F,
            Status::FileIsADirectory => 0xC00000BA,
            Status::OplockNotGranted => 0xC00000E2,
            Status::InvalidOplockProtocol => 0xC00000E3,
            Status::DirectoryNotEmpty => 0xC0000101,
            Status::NotADirectory => 0xC0000103,
            Status::Cancelled => 0xC0000120,
            Status::CannotDelete => 0xC0000121,
            Status::InvalidLockRange => 0xC00001A1,
            Status::TooManyLinks => 0xC0000265,
            Status::NotAReparsePoint => 0xC0000275,
            Status::IoReparseTagInvalid => 0xC0000276,
            Status::IoReparseTagMismatch => 0xC0000277,
            Status::IoReparseDataInvalid => 0xC0000278,
            Status::InfoLengthMismatch => 0xC0000004,
            Status::Stalled => 0xE0000001,
            Status::NoMemory => 0xE0000002,
        }
    }

    /// The name in capitals, without the prefix `STATUS_`. It takes no memory.
    pub fn name(&self) -> &'static str
        ensures { result.now ≡ status_name self.now }
    {
        match self {
            Status::Success => "SUCCESS",
            Status::Pending => "PENDING",
            Status::Reparse => "REPARSE",
            Status::OplockBreakInProgress => "OPLOCK_BREAK_IN_PROGRESS",
            Status::NotifyCleanup => "NOTIFY_CLEANUP",
            Status::NotifyEnumDir => "NOTIFY_ENUM_DIR",
            Status::OplockSwitchedToNewHandle => "OPLOCK_SWITCHED_TO_NEW_HANDLE",
            Status::OplockHandleClosed => "OPLOCK_HANDLE_CLOSED",
            Status::BufferOverflow => "BUFFER_OVERFLOW",
            Status::NoMoreFiles => "NO_MORE_FILES",
            Status::StoppedOnSymlink => "STOPPED_ON_SYMLINK",
            Status::InvalidHandle => "INVALID_HANDLE",
            Status::InvalidParameter => "INVALID_PARAMETER",
            Status::NoSuchFile => "NO_SUCH_FILE",
            Status::InvalidDeviceRequest => "INVALID_DEVICE_REQUEST",
            Status::EndOfFile => "END_OF_FILE",
            Status::AccessDenied => "ACCESS_DENIED",
            Status::BufferTooSmall => "BUFFER_TOO_SMALL",
            Status::ObjectNameInvalid => "OBJECT_NAME_INVALID",
            Status::ObjectNameNotFound => "OBJECT_NAME_NOT_FOUND",
            Status::ObjectNameCollision => "OBJECT_NAME_COLLISION",
            Status::ObjectPathNotFound => "OBJECT_PATH_NOT_FOUND",
            Status::SharingViolation => "SHARING_VIOLATION",
            Status::QuotaExceeded => "QUOTA_EXCEEDED",
            Status::FileLockConflict => "FILE_LOCK_CONFLICT",
            Status::LockNotGranted => "LOCK_NOT_GRANTED",
            Status::DeletePending => "DELETE_PENDING",
            Status::RangeNotLocked => "RANGE_NOT_LOCKED",
            Status::DiskFull => "DISK_FULL",
            Status::FileIsADirectory => "FILE_IS_A_DIRECTORY",
            Status::OplockNotGranted => "OPLOCK_NOT_GRANTED",
            Status::InvalidOplockProtocol => "INVALID_OPLOCK_PROTOCOL",
            Status::DirectoryNotEmpty => "DIRECTORY_NOT_EMPTY",
            Status::NotADirectory => "NOT_A_DIRECTORY",
            Status::Cancelled => "CANCELLED",
            Status::CannotDelete => "CANNOT_DELETE",
            Status::InvalidLockRange => "INVALID_LOCK_RANGE",
            Status::TooManyLinks => "TOO_MANY_LINKS",
            Status::NotAReparsePoint => "NOT_A_REPARSE_POINT",
            Status::IoReparseTagInvalid => "IO_REPARSE_TAG_INVALID",
            Status::IoReparseTagMismatch => "IO_REPARSE_TAG_MISMATCH",
            Status::IoReparseDataInvalid => "IO_REPARSE_DATA_INVALID",
            Status::InfoLengthMismatch => "INFO_LENGTH_MISMATCH",
            Status::Stalled => "STALLED",
            Status::NoMemory => "NO_MEMORY",
        }
    }
}
