//! What became of a load, in numbers.
ghost use Rattle.std.specs.Prelude.{◌≡◌};
ghost use Rattle.rx_load.specs.Summing.{is_answered, summed};

use rx_load::{Ends, Summary};
use rx_plan::Tally;
use rx_stage::Invoked;

/// Whether the reply of a call spells the length of its Body.
fn is_answered(invoked: &Invoked, bodies: &[u32]) -> bool
    ensures { result ≡ is_answered bodies.now invoked.now }
{
    match bodies.get(invoked.line) {
        Some(length) => invoked.caller.reply() == length.to_be_bytes().as_slice(),
        None => false,
    }
}

/// What became of so many calls, by their callers, the lengths of their Bodies, the rounds, and the datagrams.
pub fn sum_up(calls: u32, callers: &[Invoked], bodies: &[u32], rounds: u32, tally: Tally) -> Summary
    ensures { result ≡ summed calls callers.now bodies.now rounds tally }
{
    let mut ends = Ends::none();
    for invoked in callers {
        ends.count(is_answered(invoked, bodies), invoked.caller.ended());
    }
    Summary {
        calls,
        ok: ends.ok,
        aborted: ends.aborted,
        dead: ends.dead,
        unended: calls
            .saturating_sub(ends.ok)
            .saturating_sub(ends.aborted)
            .saturating_sub(ends.dead),
        rounds,
        given: tally.given,
        lost: tally.lost,
        repeated: tally.repeated,
        held: tally.held,
    }
}
