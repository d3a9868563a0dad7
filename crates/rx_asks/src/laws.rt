//! What holds of callers, whatever happens, and the numbers of this crate.
ghost use Rattle.std.specs.Prelude.{◌≡◌, negsuc};
ghost use Rattle.rx_asks.specs.History.{ReadsGiveBytes, TellsOfItsCall};

use crate::ask::{BLOCK_BYTES, CC_UNMARSHAL, REPLY_BYTES};

/// Where a caller was made for a call that its client had just started, and nobody else writes, shuts or reads that
/// call: in each legal history of the client, what was said of the call and what the caller still offers are its
/// request, all of it was said where the call is shut, the caller's reply is what was read of the call, and the caller
/// is finished by its own cancel or with the call's end.
pub fn tells_of_its_call()
    ensures { TellsOfItsCall }
{}

/// A read of a client that is answered Got gives at least one byte: so a turn reads until the answer isn't Got.
pub fn reads_give_bytes()
    ensures { ReadsGiveBytes }
{}

/// A call offers or reads at most 4,096 bytes; a reply that passes 16,842,756 is given up with -451.
pub fn numbers()
    ensures block { BLOCK_BYTES ≡ 4096 }
    ensures reply { REPLY_BYTES ≡ 16842756 }
    ensures code { CC_UNMARSHAL ≡ negsuc 450 }
{}
