//! Where files are read.
ghost use Rattle.std.specs.Prelude.{◌≡◌, ℕ, List, Option, IfOk, drop, vec_len};
ghost use Rattle.std.specs.Io.{StartsWith};
ghost use Rattle.rx_base.specs.Count.{one_more};
ghost use Rattle.rx_base.specs.Sink.{HasRisen};
ghost use Rattle.rx_base.specs.Files.{HasFile, IsNoted, OnFailed, UnlessFailed};
ghost use Rattle.rx_base.specs.declared.files.ReadFault.TheVariants.{OutOfMemory};

use std::alloc::{AllocError, Global};
use std::error::Error;
use std::fmt;

/// Why a read has no answer.
#[derive(Clone, Copy, Debug, PartialEq, Eq)]
pub enum ReadFault {
    /// The file can't be read. The files have counted it.
    Failed,
    /// There is no memory for the answer. It isn't counted, and the read may be tried again.
    OutOfMemory,
}

impl fmt::Display for ReadFault {
    fn fmt<W: fmt::Write>(&self, f: &mut fmt::Formatter<W>) -> fmt::Result {
        match self {
            ReadFault::Failed => f.write_str("the file can't be read"),
            ReadFault::OutOfMemory => f.write_str("out of memory"),
        }
    }
}

impl Error for ReadFault {}

impl From<AllocError> for ReadFault {
    ghost from_gives = { λ _ fault. fault ≡ OutOfMemory };

    fn from(_error: AllocError) -> ReadFault {
        ReadFault::OutOfMemory
    }
}

/// Where files are read by name, each read whole and counted. A count stands still at 2^64-1.
pub trait Files {
    /// The files by name, where they are told. Of two with one name the first counts.
    ghost contents: { Self → Option (List (List ℕ × List ℕ)) };

    /// The name whose read failed last, or none yet, where it is told.
    ghost failed_last: { Self → Option (Option (List ℕ)) };

    /// How many reads failed.
    ghost faults: { Self → ℕ };

    /// How many reads there were, whatever they answered.
    ghost reads: { Self → ℕ };

    /// The bytes of the whole file of that name.
    final fn read(&mut self, alloc: Global, name: &str) -> Result<Vec<u8>, ReadFault>
        ensures ok { IfOk result (λ bytes. HasFile (contents self.old) name.now bytes.items) }
        ensures same_contents { contents self.new ≡ contents self.old }
        ensures numbered { reads self.new ≡ one_more (reads self.old) }

        ensures failed { OnFailed result
            (IsNoted (failed_last self.old) (failed_last self.new) name.now) }
        ensures counted { OnFailed result (HasRisen (faults self.old) (faults self.new)) }

        ensures same { UnlessFailed result (faults self.new ≡ faults self.old) }
        ensures same_failed_last { UnlessFailed result
            (failed_last self.new ≡ failed_last self.old) }
    {
        self.read_behind(Vec::new(alloc), name)
    }

    /// The bytes that are there, and behind them those of the whole file of that name.
    fn read_behind(&mut self, front: Vec<u8>, name: &str) -> Result<Vec<u8>, ReadFault>
        ensures front { IfOk result (λ bytes. StartsWith bytes.items front.items) }
        ensures ok { IfOk result (λ bytes. HasFile (contents self.old) name.now (drop (vec_len front) bytes.items)) }
        ensures same_contents { contents self.new ≡ contents self.old }
        ensures numbered { reads self.new ≡ one_more (reads self.old) }

        ensures failed { OnFailed result
            (IsNoted (failed_last self.old) (failed_last self.new) name.now) }
        ensures counted { OnFailed result (HasRisen (faults self.old) (faults self.new)) }

        ensures same { UnlessFailed result (faults self.new ≡ faults self.old) }
        ensures same_failed_last { UnlessFailed result
            (failed_last self.new ≡ failed_last self.old) };
}
