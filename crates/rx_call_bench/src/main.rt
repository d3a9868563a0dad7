//! Moves a stream of so many bytes from one end of a call to the other, at a window of so many packets, and prints a
//! checksum of what was read: `rx_call_bench BYTES WINDOW`.
#![tactic(auto)]

mod call_end;
mod moving;
mod stream;

use moving::moved;
use rx_model::wire::{MAX_WINDOW, MIN_WINDOW};
use std::process::ExitCode;
use std::{env, io};

fn main(rt: HostRuntime) -> io::Result<ExitCode> {
    let mut words = env::args(&rt)?;
    let (Some(_program), Some(bytes), Some(window), None) = (
        words.next(),
        words.next(),
        words.next(),
        words.next(),
    ) else {
        return Ok(ExitCode::from(1));
    };
    let (Ok(bytes), Ok(window)) = (
        bytes.as_str().parse::<u64>(),
        window.as_str().parse::<u32>(),
    ) else {
        return Ok(ExitCode::from(1));
    };
    if window < MIN_WINDOW || window > MAX_WINDOW {
        return Ok(ExitCode::from(1));
    }
    let Some(sum) = moved(rt.alloc(), bytes, window)? else {
        return Ok(ExitCode::from(2));
    };
    println!(rt; "{sum}")?;
    Ok(ExitCode::from(0))
}
