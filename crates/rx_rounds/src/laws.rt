//! Laws of the rounds of plans.
ghost use Rattle.rx_rounds.specs.Arriving.{PlansArrive};
ghost use Rattle.rx_rounds.specs.Clocks.{DueGives, PolledLater, QuietMoves};
ghost use Rattle.rx_rounds.specs.Completing.{PlansComplete};
ghost use Rattle.rx_rounds.specs.Ended.{CallsEnd};

/// Where a plan has a server and a client with the default limits and one key or none, on two hosts, and its client
/// connects, calls, writes at most 45,184 bytes, shuts the request, and then so many rounds are made: two for each
/// piece of the request, and four more. Then the server keeps each piece of the request as it was said, or its handler
/// finished the call with a code other than 0. No line of the plan is refused; only want of memory, a fault of the
/// sink, or a polling or a turn of 2^64 - 1 events stands in the way.
pub fn plans_arrive()
    ensures { PlansArrive }
{}

/// Where a plan has a server and a client with the default limits and one key or none, on two hosts, and its client
/// connects and makes an invoke, and then so many rounds are made: four for each piece of the request and of the reply
/// that is served for it, one for each turn that its handler waits, and sixteen, or with a key twenty-four. Then the
/// line of its caller says what is served: ok with what the reply says, or abort with the code. So the call ends. No
/// line of the plan is refused; only want of memory, a fault of the sink, or a polling or a turn of 2^64 - 1 events
/// stands in the way.
pub fn plans_complete()
    ensures { PlansComplete }
{}

/// What is said of a plan that completes says by itself that its call ended: a stage behind so many rounds at which the
/// call is open, or was given up for silence, isn't of that, whatever was made on the way. So it refuses what is left
/// by a server that accepts and never reads, a handler that is never finished, a client that never polls its last
/// piece, a caller that never shuts, and clocks that stand where nothing else happens.
pub fn completed_calls_have_ended()
    ensures { CallsEnd }
{}

/// Where nothing is given in a round, all clocks move on by the least time until something is due at a node, and
/// nothing else changes, unless one would reach 2^62. Where something is due at once, the polls of the next round give
/// something, or a call is silent; and a poll of a node that gives nothing leaves nothing that is due at once. So of
/// two rounds that give nothing the first moves all clocks, or a call is silent behind it.
pub fn clocks_move()
    ensures moves { QuietMoves }
    ensures gives { DueGives }
    ensures later { PolledLater }
{}
