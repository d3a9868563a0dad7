//! Plans whose trace finds no room or that can't be read, and words that aren't given.

use super::case::{CASE, Case, check};
use rx_base::MemSink;
use rx_top::end_without_words;
use std::io;
use std::io::ErrorKind;
use std::test::Fail;

static PLANS: [Case; 3] = [
    // a trace that doesn't fit has its first bytes
    Case {
        line: "sim plan",
        room: 20,
        status: 7,
        out: "s accept -> none\ns a",
        err: "rx: cannot write\n",
        events: Some(2),
        ..CASE
    },
    // failing-put: the second line can't be put
    Case {
        line: "sim p",
        put_faults: &[2],
        is_joined: true,
        status: 7,
        out: "s take 10.0.0.2:7001 0000000100000004000000010000000100000001010500000000000168690a -> kept\n",
        err: "rx: cannot write\n",
        events: Some(2),
        ..CASE
    },
    // failing-read: the plan can't be read
    Case {
        line: "sim p",
        read_faults: &[1],
        status: 6,
        err: "rx: cannot read p\n",
        events: Some(0),
        ..CASE
    },
];

#[test]
fn plans_end_by_the_faults_of_sinks_and_files(rt: HostRuntime) -> Result<(), Fail> {
    for case in &PLANS {
        check(&rt, rt.alloc(), case)?;
    }
    Ok(())
}

#[test]
fn words_that_are_not_given_are_memory_or_usage(rt: HostRuntime) -> Result<(), Fail> {
    let alloc = rt.alloc();
    let rows: [(ErrorKind, u8, &[u8]); 3] = [
        (ErrorKind::OutOfMemory, 5, b"rx: out of memory\n"),
        (ErrorKind::InvalidData, 1, b"rx: usage\n"),
        (ErrorKind::Uncategorized, 1, b"rx: usage\n"),
    ];
    for (kind, status, line) in rows {
        let mut err = MemSink::make(alloc, 64, Vec::new(alloc))?;
        let ended = end_without_words(io::Error::from(kind), &mut err);
        assert_eq!(&rt; ended.number(), status);
        assert_eq!(&rt; err.as_slice(), line);
    }
    Ok(())
}
