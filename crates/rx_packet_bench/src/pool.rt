ghost use Rattle.std.specs.Prelude.{◌<◌};

use rand_core::utils::NextWord;
use rand_pcg::Pcg32;
use rx_model::wire::{ABORT, ACK, BUSY, CHALLENGE, DATA};
use std::alloc::{AllocError, Global};

/// How many datagrams there are.
const DATAGRAMS: u32 = 2048;

/// The types of the datagrams, as often as they come.
const KINDS: [u8; 16] = [
    DATA, DATA, DATA, DATA, DATA, DATA, DATA, DATA, ACK, ACK, ACK, ACK, ACK, BUSY, ABORT, CHALLENGE,
];

/// A type that isn't one.
const UNKNOWN: u8 = 9;

/// Datagrams of all kinds but ACKALL and RESPONSE, some of an unknown type. Payloads have up to 1,412 bytes, ACKs up
/// to 32 marks and the whole trailer.
pub fn pool(alloc: Global) -> Result<Vec<Vec<u8>>, AllocError> {
    let mut rng = Pcg32::new(1, 1);
    let mut datagrams = Vec::new(alloc);
    for _ in 0..DATAGRAMS {
        datagrams.push(datagram(alloc, &mut rng)?)?;
    }
    Ok(datagrams)
}

fn datagram(alloc: Global, rng: &mut Pcg32) -> Result<Vec<u8>, AllocError> {
    let kind = match below(rng, 64) {
        0 => UNKNOWN,
        draw => KINDS[draw as usize % 16],
    };
    let marks = below(rng, 33);
    let length = match kind {
        DATA => 28 + below(rng, 1413),
        ACK => 28 + 18 + marks + 19,
        _ => 28 + 8,
    };
    let mut bytes = Vec::new(alloc);
    for place in 0..length {
        let byte = match place {
            20 => kind,
            21 => below(rng, 8) as u8,
            45 if kind == ACK => marks as u8,
            _ => below(rng, 4) as u8,
        };
        bytes.push(byte)?;
    }
    Ok(bytes)
}

/// A number below the limit.
fn below(rng: &mut Pcg32, limit: u32) -> u32
    requires { 0 < limit }
    ensures { result < limit }
{
    rng.next_word() % limit
}
