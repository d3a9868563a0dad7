//! Files and sinks in memory, and streams that take little.

use crate::{Failed, Files, MemFiles, MemSink, ReadFault, Sink, StdSink};
use std::alloc::{AllocError, Global};
use std::fmt::Display;
use std::io;
use std::io::{ErrorKind, Print};
use std::test::Fail;

fn files_named(
    alloc: Global,
    names: &[(&str, &[u8])],
) -> Result<Vec<(String, Vec<u8>)>, AllocError> {
    let mut files = Vec::new(alloc);
    for (name, bytes) in names {
        files.push((
            String::from_str(alloc, name)?,
            Vec::from_slice(alloc, bytes)?,
        ))?;
    }
    Ok(files)
}

#[test]
fn memory_gives_the_first_file_of_a_name(rt: HostRuntime) -> Result<(), Fail> {
    let alloc = rt.alloc();
    let named: [(&str, &[u8]); 3] = [("a", &[1, 2]), ("", &[3]), ("a", &[4])];
    let mut files = MemFiles::make(files_named(alloc, &named)?, Vec::new(alloc));
    assert_eq!(rt; files.read(alloc, "a")?.as_slice(), [1, 2].as_slice());
    assert_eq!(rt; files.read(alloc, "")?.as_slice(), [3].as_slice());
    assert!(rt; matches!(files.read(alloc, "b"), Err(ReadFault::Failed)));
    assert_eq!(rt; files.read(alloc, "a")?.as_slice(), [1, 2].as_slice());
    Ok(())
}

#[test]
fn memory_gives_a_file_behind_what_is_there(rt: HostRuntime) -> Result<(), Fail> {
    let alloc = rt.alloc();
    let named: [(&str, &[u8]); 2] = [("a", &[1, 2]), ("b", &[])];
    let mut files = MemFiles::make(files_named(alloc, &named)?, Vec::new(alloc));
    let front = Vec::from_slice(alloc, &[8, 9])?;
    let both = files.read_behind(front, "a")?;
    assert_eq!(rt; both.as_slice(), [8, 9, 1, 2].as_slice());
    let same = files.read_behind(both, "b")?;
    assert_eq!(rt; same.as_slice(), [8, 9, 1, 2].as_slice());
    assert!(rt; matches!(files.read_behind(same, "c"), Err(ReadFault::Failed)));
    Ok(())
}

#[test]
fn memory_fails_the_reads_that_are_listed(rt: HostRuntime) -> Result<(), Fail> {
    let alloc = rt.alloc();
    let named: [(&str, &[u8]); 1] = [("a", &[7])];
    let failing = Vec::from_slice(alloc, &[1, 3])?;
    let mut files = MemFiles::make(files_named(alloc, &named)?, failing);
    let wanted = [Err(ReadFault::Failed), Ok(1), Err(ReadFault::Failed), Ok(1)];
    for len in wanted {
        assert_eq!(rt; files.read(alloc, "a").map(|bytes| bytes.len()), len);
    }
    Ok(())
}

#[test]
fn a_room_without_memory_is_refused(rt: HostRuntime) {
    let alloc = rt.alloc();
    let refused = MemSink::make(alloc, usize::MAX, Vec::new(alloc)).err();
    assert_eq!(rt; refused.map(ReadFault::from), Some(ReadFault::OutOfMemory));
}

#[test]
fn faults_are_told_in_words(rt: HostRuntime) -> Result<(), Fail> {
    let alloc = rt.alloc();
    let rows = [
        (
            format!(in alloc; "{}", ReadFault::Failed)?,
            "the file can't be read",
        ),
        (
            format!(in alloc; "{}", ReadFault::OutOfMemory)?,
            "out of memory",
        ),
        (
            format!(in alloc; "{}", Failed)?,
            "the sink takes no more bytes",
        ),
    ];
    for (told, want) in rows {
        assert_eq!(rt; told.as_str(), want);
    }
    Ok(())
}

#[test]
fn a_full_sink_keeps_what_fits(rt: HostRuntime) -> Result<(), Fail> {
    let alloc = rt.alloc();
    let mut sink = MemSink::make(alloc, 4, Vec::new(alloc))?;
    let puts: [(&[u8], Result<(), Failed>, usize); 5] = [
        (&[1, 2, 3], Ok(()), 3),
        (&[], Ok(()), 3),
        (&[4, 5], Err(Failed), 4),
        (&[6], Err(Failed), 4),
        (&[], Ok(()), 4),
    ];
    for (bytes, want, len) in puts {
        assert_eq!(rt; sink.put(bytes), want);
        assert_eq!(rt; sink.as_slice().len(), len);
    }
    assert_eq!(rt; sink.as_slice(), [1, 2, 3, 4].as_slice());
    Ok(())
}

#[test]
fn a_sink_fails_the_puts_that_are_listed(rt: HostRuntime) -> Result<(), Fail> {
    let alloc = rt.alloc();
    let mut sink = MemSink::make(alloc, 9, Vec::from_slice(alloc, &[2])?)?;
    assert_eq!(rt; sink.put(b"ab"), Ok(()));
    assert_eq!(rt; sink.put(b"cd"), Err(Failed));
    assert_eq!(rt; sink.put(b"ef"), Ok(()));
    assert_eq!(rt; sink.as_slice(), b"abef".as_slice());
    Ok(())
}

/// An output that is closed.
struct Closed;

impl Print for Closed {
    fn print<D: Display + Drop>(&self, _value: D) -> io::Result<()> {
        Err(io::Error::from(ErrorKind::BrokenPipe))
    }

    fn println<D: Display + Drop>(&self, _value: D) -> io::Result<()> {
        Err(io::Error::from(ErrorKind::BrokenPipe))
    }

    fn write_all(&self, _bytes: &[u8]) -> io::Result<()> {
        Err(io::Error::from(ErrorKind::BrokenPipe))
    }
}

#[test]
fn a_closed_stream_fails(rt: HostRuntime) {
    let (out, err) = (rt.stdout(), rt.stderr());
    assert_eq!(rt; StdSink::make(&out).put(b"out\n"), Ok(()));
    assert_eq!(rt; StdSink::make(&err).put(&[0xff, b'\n']), Ok(()));
    assert_eq!(rt; StdSink::make(&Closed).put(b"out\n"), Err(Failed));
}
