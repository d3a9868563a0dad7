//! A client and a server that are joined in memory: `rx_node_bench CALLS CHANNELS BYTES IDLE LIVE` makes so many tiny
//! calls, on 1 to 4 channels at a time, and then moves one stream of so many bytes each way, with so many idle
//! connections beside the one in use, and so many more on which a call lives. Prints a checksum of what was read, how
//! many calls ended, and how many datagrams were given and taken.
#![tactic(auto)]

mod bytes;
mod calls;
mod joined;
mod streams;
mod work;

use std::marker::Brand;
use std::process::ExitCode;
use std::sync::ledger::Blank;
use std::{env, io};
use work::{Work, measured};

fn main(rt: HostRuntime) -> io::Result<ExitCode> {
    let mut words = env::args(&rt)?;
    let (Some(_program), Some(calls), Some(channels), Some(bytes), Some(idle), Some(live), None) = (
        words.next(),
        words.next(),
        words.next(),
        words.next(),
        words.next(),
        words.next(),
        words.next(),
    ) else {
        return Ok(ExitCode::from(1));
    };
    let (Ok(calls), Ok(channels), Ok(bytes), Ok(idle), Ok(live)) = (
        calls.as_str().parse::<u32>(),
        channels.as_str().parse::<u32>(),
        bytes.as_str().parse::<u64>(),
        idle.as_str().parse::<u32>(),
        live.as_str().parse::<u32>(),
    ) else {
        return Ok(ExitCode::from(1));
    };
    let work = Work {
        calls,
        channels,
        bytes,
        idle,
        live,
    };
    let Some(counts) = measured::<Brand>(rt.alloc(), &work, Blank::new(1))? else {
        return Ok(ExitCode::from(2));
    };
    println!(rt; "{} {} {}", counts.sum, counts.calls, counts.datagrams)?;
    Ok(ExitCode::from(0))
}
