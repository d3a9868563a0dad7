//! Rx over the system: its words, files, streams and sockets.
#![tactic(auto)]

use rx_base::{DiskFiles, StdSink, Terminal};
use rx_top::{end_without_words, rx_main};
use rx_wire::{Forgetting, UdpWire};
use std::io::IsTerminal;
use std::process::ExitCode;
use std::{env, io};

fn main(rt: HostRuntime) -> ExitCode {
    let (stdout, stderr) = (rt.stdout(), rt.stderr());
    let mut files = DiskFiles::make(&rt);
    let mut out = StdSink::make(&stdout);
    let mut err = Terminal::make(&stderr, &rt, stderr.is_terminal());
    let mut wire = UdpWire::make(&rt);
    let mut book = Forgetting;
    let status = match words(&rt) {
        Ok(words) => rx_main(
            rt.alloc(),
            &words,
            &mut files,
            &mut out,
            &mut err,
            &mut wire,
            &mut book,
        ),
        Err(error) => end_without_words(error, &mut err),
    };
    ExitCode::from(status.number())
}

/// The words behind the program's name.
fn words(rt: &HostRuntime) -> io::Result<Vec<String>> {
    let mut words = Vec::new(rt.alloc());
    for word in env::args(rt)?.skip(1) {
        words.push(word)?;
    }
    Ok(words)
}
