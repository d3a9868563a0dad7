//! Laws over the definitions that contracts cite.

ghost use Rattle.std.specs.Prelude.{◌≡◌, ◌↔◌, ◌∷◌, [], IsTrue, codes, drop, map, take};
ghost use Rattle.xdr_value.specs.Data.{Datum};
ghost use Rattle.rx_script.specs.Options.{option_text};
ghost use Rattle.rx_script.specs.Same.{same_value};
ghost use Rattle.rx_script.specs.Verbs.{verb_text};

use crate::limits::{
    DEFAULT_FIRST, DEFAULT_SERVICE, END_OF_TIME, KEY_BYTES, MAX_BYTES, MAX_LINES, MAX_ROUNDS,
    MAX_WAIT,
};
use crate::marks::{
    ACCEPTED, CALLED, CLIENT, COLON, DOT, HASH, LINE_FEED, MINUS, PACKET, PEER, SPACE, STAR,
};
use crate::options::{CLIENT_OPTIONS, CONNECT_OPTIONS, PEER_OPTIONS, SERVER_OPTIONS};
use crate::verb::VERBS;

/// The numbers that bound what texts say, and those that stand where a line names none.
pub fn numbers()
    ensures lines { MAX_LINES ≡ 1000000 }
    ensures bytes { MAX_BYTES ≡ 16777216 }
    ensures wait { MAX_WAIT ≡ 1000 }
    ensures rounds { MAX_ROUNDS ≡ 1000000 }
    ensures moment { END_OF_TIME ≡ 4611686018427387904 }
    ensures service { DEFAULT_SERVICE ≡ 1 }
    ensures first { DEFAULT_FIRST ≡ 1 }
    ensures key { KEY_BYTES ≡ 32 }
{}

/// The characters that part the words of a text, or stand at their head.
pub fn characters()
    ensures parting { LINE_FEED ∷ SPACE ∷ COLON ∷ DOT ∷ STAR ∷ [] ≡ 10 ∷ codes " :.*" }
    ensures heads { HASH ∷ CALLED ∷ ACCEPTED ∷ PACKET ∷ CLIENT ∷ PEER ∷ MINUS ∷ [] ≡ codes "##@%cp-" }
{}

/// The first words that lines may have, and the options of the lines that make a node or a
/// connection.
pub fn tables()
    ensures script { map verb_text (take 12 VERBS) ≡ codes "on" ∷ codes "wait" ∷ codes "up" ∷ codes "down"
        ∷ codes "when" ∷ codes "fail" ∷ codes "set" ∷ codes "copy" ∷ codes "size" ∷ codes "count" ∷ codes "echo"
        ∷ codes "send" ∷ [] }
    ensures plan { map verb_text (drop 12 VERBS) ≡ codes "server" ∷ codes "client" ∷ codes "peer" ∷ codes "connect"
        ∷ codes "call" ∷ codes "write" ∷ codes "shut" ∷ codes "read" ∷ codes "ask" ∷ codes "cancel" ∷ codes "accept"
        ∷ codes "finish" ∷ codes "poll" ∷ codes "deliver" ∷ codes "jumbo" ∷ codes "forge" ∷ codes "clock"
        ∷ codes "invoke" ∷ codes "turn" ∷ codes "round" ∷ codes "rounds" ∷ codes "lossy" ∷ [] }
    ensures server { map option_text SERVER_OPTIONS ≡ codes "service=" ∷ codes "conns=" ∷ codes "calls="
        ∷ codes "slots=" ∷ codes "window=" ∷ codes "key=" ∷ codes "nonce=" ∷ [] }
    ensures client { map option_text CLIENT_OPTIONS ≡ codes "conns=" ∷ codes "calls=" ∷ codes "slots="
        ∷ codes "window=" ∷ codes "key=" ∷ [] }
    ensures peer { map option_text PEER_OPTIONS ≡ codes "service=" ∷ codes "conns=" ∷ codes "calls="
        ∷ codes "slots=" ∷ codes "window=" ∷ [] }
    ensures connect { map option_text CONNECT_OPTIONS ≡ codes "first=" ∷ [] }
{}

/// The test of two values says yes exactly where they are one.
pub fn same_is()
    ensures { (a b : Datum) → IsTrue (same_value a b) ↔ (a ≡ b) }
{}
