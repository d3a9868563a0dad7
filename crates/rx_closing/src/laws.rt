//! Laws of the calls that live as fair rounds begin.
ghost use Rattle.rx_closing.specs.Closing.{ClosesOne};
ghost use Rattle.rx_closing.specs.Ended.{PlansClose};
ghost use Rattle.rx_closing.specs.EndedAll.{PlansCloseAll};
ghost use Rattle.rx_closing.specs.Left.{NoneDiesHeard, NoneLivesOn};
ghost use Rattle.rx_closing.specs.LeftAll.{NoneOfAllDiesHeard, NoneOfAllLivesOn};
ghost use Rattle.rx_closing.specs.Several.{ClosesAll, DeadAllInSilence};
ghost use Rattle.rx_closing.specs.Silence.{DeadOneInSilence};

/// Behind the lines of a driven plan, whatever was lost, repeated and reordered in them, one call lives, and then fair
/// rounds are made, at least 2,000 for each piece of its work: a piece of its request, or of what is served for it, or
/// a turn that its handler waits, and eight more. Then the call lives at its client no more: it ended, or its client
/// found it dead of silence.
///
/// So it is where no node has a key and no two clients share host and epoch, the server forgot nothing or no datagram
/// is old, no node's clock is past 2^61 ms as the rounds begin, what is served isn't longer than a caller keeps, and no
/// handler waits longer than a script may say.
///
/// The same is said of the run of a plan whose last line makes the rounds. Of several calls that live as the rounds
/// begin `all_close` says it, where there is room for them. Nothing is said of how long a call lives on at its server.
pub fn calls_close()
    ensures one { ClosesOne }
    ensures plans { PlansClose }
{}

/// Behind such lines one call lives, and then fair rounds are made, however many. Where its client found it dead of
/// silence though a message of it was heard in these rounds, a message of it came to the server in them for which it
/// had no place.
///
/// So it is under the same conditions, and of the run of a plan whose last line makes the rounds.
pub fn dead_only_in_silence()
    ensures { DeadOneInSilence }
{}

/// Behind the lines of a driven plan, whatever was lost, repeated and reordered in them, n calls live at any node, one
/// that lives at both ends counting once, and each node has room for all: it may have n calls, and has two windows of
/// slots for each of n beside one slot for each of its calls. Then fair rounds are made, at least 1,000 times n and one
/// more for each piece of the work of these calls: a piece of a request, or of what is served for it, or a turn that
/// its handler waits, and eight more a call. Then none of them lives at its client: it ended, or its client found it
/// dead of silence.
///
/// So it is where no node has a key and no two clients share host and epoch, the server forgot nothing or no datagram
/// is old, no node's clock is past 2^61 ms as the rounds begin, what is served isn't longer than a caller keeps, and no
/// handler waits longer than a script may say.
///
/// The same is said of the run of a plan whose last line makes the rounds. Nothing is said where calls contend for
/// slots or for places, nor how long a call lives on at its server.
pub fn all_close()
    ensures all { ClosesAll }
    ensures plans { PlansCloseAll }
{}

/// Behind such lines, where each node has room for all, fair rounds are made, however many. Where the client of one of
/// these calls found it dead of silence though a message of it was heard in these rounds, a message of it came to the
/// server in them for which it had no place.
pub fn all_dead_only_in_silence()
    ensures { DeadAllInSilence }
{}

/// What is said of the rounds that a plan ends with says of their two stages and the events between them alone,
/// whatever these are, that neither is left of the one call that lived as they began: that it lives at its client
/// still, where there were enough rounds; and that its client found it dead of silence, though a message of it was
/// heard in them and none came to the server that had no place for it. So it refuses what is left by an end that gives
/// a lost piece again only once, a server that takes what lies below a mark for acknowledged, one that forgets a reply
/// of which a part is marked, and a client that asks for no sign of life.
pub fn closed_calls_live_no_more()
    ensures lives { NoneLivesOn }
    ensures dies { NoneDiesHeard }
{}

/// What is said of the rounds that a plan ends with says of their two stages and the events between them alone,
/// whatever these are, that neither is left of any of the calls that lived as they began, where each node has room for
/// all: that it lives at its client still, where there were enough rounds; and that its client found it dead of
/// silence, though a message of it was heard in them and none came to the server that had no place for it. So it
/// refuses what is left by a poll that waits for a node's first channel, by one that looks at that channel alone, and
/// by a server that answers Busy for ever to a call whose channel had one before.
pub fn all_closed_live_no_more()
    ensures lives { NoneOfAllLivesOn }
    ensures dies { NoneOfAllDiesHeard }
{}
