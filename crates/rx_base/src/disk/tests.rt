//! Files of the system as they are read: short and long ones, long names, and a bound that is handed in.

use super::read_within;
use crate::{DiskFiles, Files, ReadFault};
use std::alloc::{AllocError, Global};
use std::fs::File;
use std::io::{ErrorKind, Read};
use std::test::Fail;
use std::{env, fs, io, process};

/// So many bytes, of which no two blocks of the system's sizes are alike.
fn counting(alloc: Global, len: usize) -> Result<Vec<u8>, AllocError> {
    let mut bytes = Vec::with_capacity(alloc, len)?;
    for at in 0..len {
        bytes.push((at % 251) as u8)?;
    }
    Ok(bytes)
}

/// The path of a folder of this test's own.
fn own_folder(rt: &HostRuntime, test: &str) -> Result<String, Fail> {
    let temp = env::temp_dir(rt)?;
    let temp = temp.as_str();
    let id = process::id(rt.process());
    Ok(format!(in rt.alloc(); "{temp}/rx_base_{test}_{id}")?)
}

#[test]
fn the_disk_gives_whole_files(rt: HostRuntime) -> Result<(), Fail> {
    let alloc = rt.alloc();
    let folder = own_folder(&rt, "whole_files")?;
    fs::create_dir(&rt, &folder)?;
    let mut files = DiskFiles::make(&rt);
    for len in [0, 1, 4_096, 4_097, 65_537, 1_000_000] {
        let path = format!(in alloc; "{folder}/{len}")?;
        let bytes = counting(alloc, len)?;
        fs::write(&rt, &path, bytes.as_slice())?;
        let got = files.read(alloc, path.as_str())?;
        assert_eq!(rt; got.len(), len);
        assert!(rt; got.as_slice() == bytes.as_slice(), "a file of {len} bytes");
        let behind = files.read_behind(Vec::from_slice(alloc, &[7; 5])?, path.as_str())?;
        let (front, rest) = behind.as_slice().split_at(5);
        assert_eq!(rt; front, [7; 5].as_slice());
        assert!(rt; rest == bytes.as_slice(), "{len} bytes behind five");
    }
    fs::remove_dir_all(&rt, &folder)?;
    Ok(())
}

#[test]
fn the_disk_takes_long_names(rt: HostRuntime) -> Result<(), Fail> {
    let alloc = rt.alloc();
    let folder = own_folder(&rt, "long_names")?;
    // The folder's own name has 200 bytes and the file's 100, so the path has more than 300.
    let inner = format!(in alloc; "{folder}/{:a>200}", "")?;
    fs::create_dir_all(&rt, &inner)?;
    let path = format!(in alloc; "{inner}/{:b>100}", "")?;
    fs::write(&rt, &path, b"six\n")?;
    let mut files = DiskFiles::make(&rt);
    let got = files.read(alloc, path.as_str())?;
    assert_eq!(rt; got.as_slice(), b"six\n".as_slice());
    // The system has no name of 300 bytes between two slashes.
    let path = format!(in alloc; "{folder}/{:c>300}", "")?;
    let got = files.read(alloc, path.as_str()).map(|bytes| bytes.len());
    assert_eq!(rt; got, Err(ReadFault::Failed));
    fs::remove_dir_all(&rt, &folder)?;
    Ok(())
}

#[test]
fn the_disk_fails_where_there_is_no_file(rt: HostRuntime) -> Result<(), Fail> {
    let alloc = rt.alloc();
    let folder = own_folder(&rt, "no_file")?;
    fs::create_dir(&rt, &folder)?;
    let missing = format!(in alloc; "{folder}/missing")?;
    let mut files = DiskFiles::make(&rt);
    for name in ["", folder.as_str(), missing.as_str(), "a\0b"] {
        let got = files.read(alloc, name).map(|bytes| bytes.len());
        assert_eq!(rt; got, Err(ReadFault::Failed), "{name:?}");
    }
    fs::remove_dir(&rt, &folder)?;
    Ok(())
}

#[test]
fn a_bound_is_the_most_bytes_that_are_read(rt: HostRuntime) -> Result<(), Fail> {
    let alloc = rt.alloc();
    let folder = own_folder(&rt, "bound")?;
    fs::create_dir(&rt, &folder)?;
    let rows = [
        (0, 0, Ok(0)),
        (1, 0, Err(ReadFault::Failed)),
        (4, 5, Ok(4)),
        (5, 5, Ok(5)),
        (6, 5, Err(ReadFault::Failed)),
        (100_000, 5, Err(ReadFault::Failed)),
        (99_999, 100_000, Ok(99_999)),
        (100_000, 100_000, Ok(100_000)),
        (100_001, 100_000, Err(ReadFault::Failed)),
    ];
    for (len, most, want) in rows {
        let path = format!(in alloc; "{folder}/{len}")?;
        fs::write(&rt, &path, counting(alloc, len)?.as_slice())?;
        // What is there before doesn't count.
        let front = Vec::from_slice(alloc, &[7; 3])?;
        let got = read_within(front, File::open(&rt, &path)?, most);
        assert_eq!(rt;
            got.map(|bytes| bytes.len() - 3),
            want,
            "{len} bytes, at most {most}"
        );
    }
    fs::remove_dir_all(&rt, &folder)?;
    Ok(())
}

/// A reader that gives bytes, and then fails with an error of this kind.
#[derive(Drop)]
struct Broken {
    bytes: usize,
    kind: ErrorKind,
}

impl Read for Broken {
    fn read(&mut self, buf: &mut [u8]) -> io::Result<usize> {
        if self.bytes == 0 {
            return Err(io::Error::from(self.kind));
        }
        let len = buf.len().min(self.bytes);
        self.bytes -= len;
        Ok(len)
    }
}

/// A reader that a signal interrupts before each byte.
#[derive(Drop)]
struct Interrupted {
    bytes: usize,
    is_next: bool,
}

impl Read for Interrupted {
    fn read(&mut self, buf: &mut [u8]) -> io::Result<usize> {
        self.is_next = !self.is_next;
        if !self.is_next {
            return Err(io::Error::from(ErrorKind::Interrupted));
        }
        if self.bytes == 0 || buf.is_empty() {
            return Ok(0);
        }
        self.bytes -= 1;
        buf[0] = 7;
        Ok(1)
    }
}

#[test]
fn a_read_that_a_signal_interrupts_goes_on(rt: HostRuntime) -> Result<(), Fail> {
    for is_next in [false, true] {
        let reader = Interrupted { bytes: 3, is_next };
        let got = read_within(Vec::from_slice(rt.alloc(), &[8])?, reader, 9)?;
        assert_eq!(rt; got.as_slice(), [8, 7, 7, 7].as_slice());
    }
    Ok(())
}

#[test]
fn a_read_that_fails_has_the_fault_of_its_error(rt: HostRuntime) {
    let rows = [
        (ErrorKind::OutOfMemory, ReadFault::OutOfMemory),
        (ErrorKind::NotFound, ReadFault::Failed),
        (ErrorKind::PermissionDenied, ReadFault::Failed),
        (ErrorKind::IsADirectory, ReadFault::Failed),
        (ErrorKind::UnexpectedEof, ReadFault::Failed),
        (ErrorKind::Uncategorized, ReadFault::Failed),
    ];
    for (kind, fault) in rows {
        for bytes in [0, 3, 5_000] {
            let got = read_within(Vec::new(rt.alloc()), Broken { bytes, kind }, 10_000);
            assert_eq!(rt; got.map(|bytes| bytes.len()), Err(fault));
        }
    }
}
