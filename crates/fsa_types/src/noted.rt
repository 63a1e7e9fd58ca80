//! The actions of changes that are noted, after [MS-FSCC] 'FILE_NOTIFY_INFORMATION', Action.

/// A file or a directory was made.
pub const FILE_ACTION_ADDED: u32 = 1;

/// It was removed.
pub const FILE_ACTION_REMOVED: u32 = 2;

/// It was modified.
pub const FILE_ACTION_MODIFIED: u32 = 3;

/// It was renamed; this is its old name.
pub const FILE_ACTION_RENAMED_OLD_NAME: u32 = 4;

/// It was renamed; this is its new name.
pub const FILE_ACTION_RENAMED_NEW_NAME: u32 = 5;

/// A named stream was made.
pub const FILE_ACTION_ADDED_STREAM: u32 = 6;

/// A named stream was removed.
pub const FILE_ACTION_REMOVED_STREAM: u32 = 7;

/// A named stream was modified.
pub const FILE_ACTION_MODIFIED_STREAM: u32 = 8;
