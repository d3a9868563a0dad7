//! Files in memory, for tests.
ghost use Rattle.std.specs.Prelude.{◌≡◌, ◌⊎◌, ℕ, List, Option, Some, None, Contains, IfOk, IsErr, option_map, drop};
ghost use Rattle.std.specs.Prelude.{vec_len};
ghost use Rattle.std.specs.Io.{StartsWith};
ghost use Rattle.std.specs.Option.{option_copied};
ghost use Rattle.std.specs.String.{string_bytes};
ghost use Rattle.rx_base.specs.Count.{one_more};
ghost use Rattle.rx_base.specs.Sink.{HasRisen};
ghost use Rattle.rx_base.specs.Files.{contents_of, HasFile, IsNoted, OnFailed, UnlessFailed};
ghost use Rattle.rx_base.specs.MemFiles.{MemFilesState, files_of};

use crate::files::{Files, ReadFault};
use std::alloc::Global;
use std::marker::Model;

/// Files in memory. They tell their names and bytes, and the name whose read failed last.
#[derive(Debug, Drop)]
pub struct MemFiles {
    files: Vec<(String, Vec<u8>)>,
    failing: Vec<u64>,
    reads: u64,
    failed_last: Option<String>,
    faults: u64,
}

impl Model for MemFiles {
    ghost Value = { MemFilesState };

    ghost view = { λ s. record {
      files = files_of s.files.items;
      failing = s.failing.items;
      reads = s.reads;
      failed_last = option_map string_bytes s.failed_last;
      faults = s.faults;
    } };
}

impl MemFiles {
    /// Files by name, of which the first of a name counts. The reads whose numbers, from 1, are in
    /// `failing` fail, and so does a read of a name that isn't there.
    pub fn make(files: Vec<(String, Vec<u8>)>, failing: Vec<u64>) -> MemFiles
        ensures empty { result ≡ record {
          files = files_of files.items;
          failing = failing.items;
          reads = 0;
          failed_last = None;
          faults = 0;
        } }
    {
        MemFiles {
            files,
            failing,
            reads: 0,
            failed_last: None,
            faults: 0,
        }
    }
}

// The bytes of the first file of that name.
fn find<'a>(files: &'a [(String, Vec<u8>)], name: &str) -> Option<&'a [u8]>
    ensures { option_copied result ≡ contents_of (files_of files.now) name.now }
{
    for (name_here, bytes) in files {
        if name_here.as_str() == name {
            return Some(bytes.as_slice());
        }
    }
    None
}

impl Files for MemFiles {
    ghost contents = { λ s. Some s.files };

    ghost failed_last = { λ s. Some s.failed_last };

    ghost faults = { λ s. s.faults };

    ghost reads = { λ s. s.reads };

    fn read_behind(&mut self, mut front: Vec<u8>, name: &str) -> Result<Vec<u8>, ReadFault>
        ensures front { IfOk result (λ bytes. StartsWith bytes.items front.items) }
        ensures ok { IfOk result (λ bytes. HasFile (Some self.old.files) name.now (drop (vec_len front) bytes.items)) }
        ensures same_contents { Some self.new.files ≡ Some self.old.files }
        ensures numbered { self.new.reads ≡ one_more self.old.reads }
        ensures failed { OnFailed result
            (IsNoted (Some self.old.failed_last) (Some self.new.failed_last) name.now) }
        ensures counted { OnFailed result (HasRisen self.old.faults self.new.faults) }
        ensures same { UnlessFailed result (self.new.faults ≡ self.old.faults) }
        ensures same_failed_last { UnlessFailed result
            (Some self.new.failed_last ≡ Some self.old.failed_last) }

        // What these files add to the trait's clauses.
        ensures same_plan { self.new.failing ≡ self.old.failing }
        ensures planned { Contains self.old.failing self.new.reads → IsErr result }
        ensures cause { OnFailed result (Contains self.old.failing self.new.reads
            ⊎ (contents_of self.old.files name.now ≡ None)) }
    {
        self.reads = self.reads.saturating_add(1);
        let is_planned = self.failing.contains(&self.reads);
        if !is_planned && let Some(bytes) = find(&self.files, name) {
            front.extend_from_slice(bytes)?;
            return Ok(front);
        }
        // What can fail for want of memory comes before the count.
        self.failed_last = Some(String::from_str(*front.allocator(), name)?);
        self.faults = self.faults.saturating_add(1);
        Err(ReadFault::Failed)
    }
}
