//! The files of the system.
ghost use Rattle.std.specs.Prelude.{◌≡◌, ◌≢◌, ◌<◌, ◌≤◌, ◌+◌, ◌-◌, ◌^◌, ◌++◌, IfOk, IfErr, IfSome, vec_len};
ghost use Rattle.std.specs.Prelude.{drop};
ghost use Rattle.std.specs.Io.{StartsWith};
ghost use Rattle.std.specs.IoError.{error_kind};
ghost use Rattle.rx_base.specs.Count.{one_more};
ghost use Rattle.rx_base.specs.DiskFiles.{DiskFilesState};
ghost use Rattle.rx_base.specs.Files.{HasFile, IsNoted, OnFailed, UnlessFailed, untold_contents, untold_name};
ghost use Rattle.rx_base.specs.Sink.{HasRisen};

use crate::files::{Files, ReadFault};
use std::fs::File;
use std::io::{ErrorKind, Read};
use std::marker::Model;
use std::{io, rt};

/// The longest file that `DiskFiles` reads, in bytes.
pub const MAX_FILE_BYTES: u64 = 1 << 30;

/// The files of the system. They tell nothing of names and bytes.
#[derive(Debug, Drop)]
pub struct DiskFiles<'a, R: rt::Files> {
    rt: &'a R,
    reads: u64,
    faults: u64,
}

impl<'a, R: rt::Files> Model for DiskFiles<'a, R> {
    ghost Value = { DiskFilesState };

    ghost view = { λ s. record { reads = s.reads; faults = s.faults } };
}

impl<'a, R: rt::Files> DiskFiles<'a, R> {
    /// The files that the runtime reaches, with no read and no fault counted yet.
    pub fn make(rt: &'a R) -> DiskFiles<'a, R>
        ensures empty { result ≡ record { reads = 0; faults = 0 } }
    {
        DiskFiles {
            rt,
            reads: 0,
            faults: 0,
        }
    }
}

impl<'a, R: rt::Files> Files for DiskFiles<'a, R> {
    ghost contents = { λ _. untold_contents };

    ghost failed_last = { λ _. untold_name };

    ghost faults = { λ s. s.faults };

    ghost reads = { λ s. s.reads };

    /// A file longer than `MAX_FILE_BYTES` is Failed.
    fn read_behind(&mut self, front: Vec<u8>, name: &str) -> Result<Vec<u8>, ReadFault>
        // The trait's clauses, where nothing is told of names and bytes.
        ensures front { IfOk result (λ bytes. StartsWith bytes.items front.items) }
        ensures ok { IfOk result (λ bytes. HasFile untold_contents name.now (drop (vec_len front) bytes.items)) }
        ensures same_contents { untold_contents ≡ untold_contents }
        ensures numbered { self.new.reads ≡ one_more self.old.reads }
        ensures failed { OnFailed result (IsNoted untold_name untold_name name.now) }
        ensures counted { OnFailed result (HasRisen self.old.faults self.new.faults) }
        ensures same { UnlessFailed result (self.new.faults ≡ self.old.faults) }
        ensures same_failed_last { UnlessFailed result (untold_name ≡ untold_name) }

        // What these files add to the trait's clauses.
        ensures within { IfOk result (λ bytes. vec_len bytes ≤ vec_len front + MAX_FILE_BYTES) }
    {
        self.reads = self.reads.saturating_add(1);
        // No clause can say what a file of the system has: tests read some.
        match read_file(self.rt, front, name) {
            Ok(bytes) => Ok(bytes),
            Err(ReadFault::OutOfMemory) => Err(ReadFault::OutOfMemory),
            Err(ReadFault::Failed) => {
                self.faults = self.faults.saturating_add(1);
                Err(ReadFault::Failed)
            }
        }
    }
}

fn read_file<R: rt::Files>(rt: &R, front: Vec<u8>, name: &str) -> Result<Vec<u8>, ReadFault>
    ensures front { IfOk result (λ bytes. StartsWith bytes.items front.items) }
    ensures within { IfOk result (λ bytes. vec_len bytes ≤ vec_len front + MAX_FILE_BYTES) }
{
    let file = File::open(rt, name).map_err(fault_of)?;
    read_within(front, file, MAX_FILE_BYTES)
}

/// The bytes that are there, and behind them all that a reader has left, of which there are at most so many.
fn read_within<R: Read + Drop>(
    mut bytes: Vec<u8>,
    reader: R,
    most: u64,
) -> Result<Vec<u8>, ReadFault>
    requires { most < 2 ^ 64 - 1 }
    ensures front { IfOk result (λ read. StartsWith read.items bytes.items) }
    ensures all { IfOk result (λ read. IfSome (R.remaining reader) (λ left. read.items ≡ bytes.items ++ left)) }
    ensures within { IfOk result (λ read. vec_len read ≤ vec_len bytes + most) }
{
    match reader.take(most + 1).read_to_end(&mut bytes) {
        Ok(read) => bounded(bytes, read, most),
        Err(error) => Err(fault_of(error)),
    }
}

/// The same bytes, unless more than so many of them were read.
fn bounded(bytes: Vec<u8>, read: usize, most: u64) -> Result<Vec<u8>, ReadFault>
    ensures ok { IfOk result (λ same. same ≡ bytes) }
    ensures within { IfOk result (λ _. read ≤ most) }
    ensures over { IfErr result (λ fault. (fault ≡ ReadFault.Failed) × (most < read)) }
{
    if read as u64 > most {
        return Err(ReadFault::Failed);
    }
    Ok(bytes)
}

/// Which fault an error of the system is: want of memory, or a read that failed for any other kind.
fn fault_of(error: io::Error) -> ReadFault
    ensures memory { error_kind error ≡ ErrorKind.OutOfMemory → result ≡ ReadFault.OutOfMemory }
    ensures failed { error_kind error ≢ ErrorKind.OutOfMemory → result ≡ ReadFault.Failed }
{
    if error.kind() == ErrorKind::OutOfMemory {
        ReadFault::OutOfMemory
    } else {
        ReadFault::Failed
    }
}

#[cfg(test)]
mod tests;
