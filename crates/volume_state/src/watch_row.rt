//! Watches as they are kept.

ghost use Rattle.std.specs.Prelude.{◌≡◌, ◌==◌, find};
ghost use Rattle.std.specs.Option.{option_copied};

/// A watch of a directory, after [MS-FSA] 'Per ChangeNotifyEntry', with what is known of its handle, of what is due
/// to it, and of who asks for that.
#[derive(Clone, Copy)]
pub struct WatchRow {
    /// Its handle.
    pub handle: u64,
    /// What it asks for, as a `NotifyFilter`.
    pub filter: u32,
    /// Whether all below the directory counts.
    pub tree: bool,
    /// The place in the list of changes, from 0, from which on they are due.
    pub from: u64,
    /// The file number of the directory that its handle is of.
    pub dir: u64,
    /// The client whose call opened its handle.
    pub client: u32,
    /// The number of that call.
    pub number: u32,
    /// Whether something may be due; false only where nothing is.
    pub due: bool,
    /// Whether a Notify may be pending on its handle; false only where none is.
    pub asked: bool,
}

// Whether a watch is of this handle.
pub(crate) fn is_watch_of(row: &WatchRow, handle: u64) -> bool
    ensures { result ≡ (row.now.handle == handle) }
{
    row.handle == handle
}

// The watch of this handle; `None` exactly where there is none.
pub(crate) fn find_watch(rows: &[WatchRow], handle: u64) -> Option<&WatchRow>
    ensures { option_copied result ≡ find (λ row. row.handle == handle) rows.now }
{
    rows.iter().find(|row| is_watch_of(row, handle))
}
