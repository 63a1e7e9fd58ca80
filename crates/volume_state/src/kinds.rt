//! What kind a file is of, by its number alone.

ghost use Rattle.std.specs.Prelude.{◌≡◌};
ghost use Rattle.fsa_model.specs.Lookups.{is_directory};

use crate::volume::Volume;

impl Volume {
    /// Whether there is a directory of this number.
    pub fn is_directory(&self, file: u64) -> bool
        ensures { result ≡ is_directory self.now.content.files file }
    {
        match self.files.get(file) {
            None => false,
            Some(row) => row.directory,
        }
    }
}
