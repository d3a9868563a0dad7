//! Reads and writes a pool of mixed datagrams so many times, and prints a checksum: `rx_packet_bench ROUNDS`.
#![tactic(auto)]

mod pool;
mod sums;

use pool::pool;
use rx_model::wire::DATAGRAM_BYTES;
use std::process::ExitCode;
use std::{env, io};
use sums::fold_datagram;

fn main(rt: HostRuntime) -> io::Result<ExitCode> {
    let mut words = env::args(&rt)?;
    let (Some(_program), Some(word), None) = (words.next(), words.next(), words.next()) else {
        return Ok(ExitCode::from(1));
    };
    let Ok(rounds) = word.as_str().parse::<u32>() else {
        return Ok(ExitCode::from(1));
    };
    let datagrams = pool(rt.alloc())?;
    let mut to = [0u8; DATAGRAM_BYTES];
    let mut sum = 0;
    for _ in 0..rounds {
        for datagram in &datagrams {
            sum = fold_datagram(sum, datagram.as_slice(), &mut to);
        }
    }
    println!(rt; "{sum}")?;
    Ok(ExitCode::from(0))
}
