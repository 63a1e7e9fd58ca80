//! What breaks oplocks, and of which handles.

/// What a request does that breaks oplocks, after [MS-FSA] 'Algorithm to Check for an Oplock Break'.
#[derive(Clone, Copy)]
pub enum Class {
    /// An open that clashes with an open handle. It leaves read and write caching.
    Clash,
    /// A rename, a replacement or a mark for deletion. It leaves read and write caching.
    NameChange,
    /// A read, or an open for more than attributes. It leaves read and handle caching.
    ReadOpen,
    /// A change of the bytes, or a byte-range lock. It leaves nothing.
    Change,
}

/// Which handles.
#[derive(Clone, Copy)]
pub enum HandleSet {
    /// Those of the stream of this number.
    Stream(u64),
    /// Those that were opened by the link of this number; 0 are the root's.
    Link(u64),
    /// Those whose link lies below the directory with this file number.
    Below(u64),
}
