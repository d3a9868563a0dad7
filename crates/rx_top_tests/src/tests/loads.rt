//! Loads: what their two lines say. They were made by the rules of the protocol, without the program:
//! `tools/player load NUMBER CALLS`.

use rx_base::{MemFiles, MemSink};
use rx_top::rx_main;
use rx_wire::{Forgetting, MemWire};
use std::test::Fail;

/// Room for the two lines.
const ROOM: usize = 512;

/// The words of a command, its status, and what it puts on standard output and on standard error.
const ROWS: [(&str, u8, &str, &str); 10] = [
    (
        "load 1 40",
        0,
        "calls 40 ok 40 abort 0 dead 0 open 0\nrounds 34 given 205 lost 10 repeated 14 held 14\n",
        "",
    ),
    (
        "load 0 1",
        0,
        "calls 1 ok 1 abort 0 dead 0 open 0\nrounds 3 given 4 lost 0 repeated 1 held 0\n",
        "",
    ),
    (
        "load 18446744073709551615 1",
        0,
        "calls 1 ok 1 abort 0 dead 0 open 0\nrounds 5 given 6 lost 0 repeated 0 held 0\n",
        "",
    ),
    (
        "load 18446744073709551615 9",
        0,
        "calls 9 ok 9 abort 0 dead 0 open 0\nrounds 9 given 44 lost 2 repeated 6 held 4\n",
        "",
    ),
    ("load 18446744073709551616 1", 1, "", "rx: usage\n"),
    ("load a 1", 1, "", "rx: usage\n"),
    ("load 1 0", 1, "", "rx: usage\n"),
    ("load 1 10001", 1, "", "rx: usage\n"),
    ("load 1", 1, "", "rx: usage\n"),
    ("load 1 1 1", 1, "", "rx: usage\n"),
];

#[test]
fn loads_put_what_became_of_their_calls(rt: HostRuntime) -> Result<(), Fail> {
    let alloc = rt.alloc();
    for (line, status, puts, says) in ROWS {
        let mut words = Vec::new(alloc);
        for word in line.split(' ') {
            words.push(String::from_str(alloc, word)?)?;
        }
        let mut files = MemFiles::make(Vec::new(alloc), Vec::new(alloc));
        let mut out = MemSink::make(alloc, ROOM, Vec::new(alloc))?;
        let mut err = MemSink::make(alloc, ROOM, Vec::new(alloc))?;
        let mut wire = MemWire::make(alloc, Vec::new(alloc), 0, Vec::new(alloc))?;
        let mut book = Forgetting;
        let ended = rx_main(
            alloc, &words, &mut files, &mut out, &mut err, &mut wire, &mut book,
        );
        assert_eq!(&rt; ended.number(), status, "{line}");
        assert!(&rt;
            out.as_slice() == puts.as_bytes(),
            "{line} puts another text"
        );
        assert!(&rt;
            err.as_slice() == says.as_bytes(),
            "{line} says another line"
        );
    }
    Ok(())
}
