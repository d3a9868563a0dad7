//! Laws over the constants that contracts cite.
ghost use Rattle.std.specs.Prelude.{◌≡◌};

use crate::disk::MAX_FILE_BYTES;

/// The bytes of the longest file that is read.
pub fn numbers()
    ensures { MAX_FILE_BYTES ≡ 1073741824 }
{}
