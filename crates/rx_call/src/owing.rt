ghost use Rattle.std.specs.Prelude.{◌≡◌, ◌≤◌, ◌+◌, ◌<◌, ◌^◌, ◌==◌, suc, not, if◌then◌else◌, Some};
ghost use Rattle.rx_model.specs.Body.{Body};
ghost use Rattle.rx_model.specs.Message.{has_flag};
ghost use Rattle.rx_packet.specs.Seen.{message_with_head};
ghost use Rattle.rx_rules.specs.Owing.{at_once, behind_read, delayed, delayed_by, owed_for, owed_for_kept};
ghost use Rattle.rx_rules.specs.Owing.{ack_delay_of, hastened, owed_for_ack, owed_for_done, owed_for_given};
ghost use Rattle.rx_call.specs.Standing.{owed_ack, owed_of};

use rx_model::Took;
use rx_model::wire::{
    ACK_DELAY, ACK_DELAY_MS, ACK_DUPLICATE, ACK_EXCEEDS_WINDOW, ACK_NOSPACE, ACK_OUT_OF_SEQUENCE,
    ACK_PING, ACK_PING_RESPONSE, ACK_REQUESTED, LAST_PACKET, PROMPT_ACK_DELAY_MS, REQUEST_ACK,
};
use rx_packet::Head;

/// How long nothing is heard before a prompt node tells a hole again, in milliseconds.
const HOLE_MS: u64 = 10;

/// An acknowledgement that is owed: why, the serial that caused it, and the moment from which it is due, 0 for at once.
#[derive(Clone, Copy, Debug, PartialEq, Eq)]
pub struct OwedAck {
    pub reason: u8,
    pub serial: u32,
    pub rank: u64,
}

/// How the packets stood before one came: all up to `front` without a gap, and one above the next where there was a
/// `hole`.
#[derive(Clone, Copy, Debug, PartialEq, Eq)]
pub struct Before {
    pub front: u32,
    pub hole: bool,
}

/// Whether a flag is set.
pub fn has_flag(flags: u8, flag: u8) -> bool
    ensures { result ≡ has_flag flag flags }
{
    flags & flag != 0
}

/// A cause at once takes the place of whatever is owed.
pub fn owe_now(reason: u8, serial: u32) -> Option<OwedAck>
    ensures { owed_of result ≡ at_once reason serial }
{
    Some(OwedAck {
        reason,
        serial,
        rank: 0,
    })
}

/// A delayed cause counts only where nothing is owed: it is due so many milliseconds later.
fn owe_within(wait: u64, now: u64, serial: u32, owed: Option<OwedAck>) -> Option<OwedAck>
    requires wait { wait < 2 ^ 62 }
    requires now { now < 2 ^ 62 }
    ensures { owed_of result ≡ delayed_by wait now serial (owed_of owed) }
{
    match owed {
        Some(before) => Some(before),
        None => Some(OwedAck {
            reason: ACK_DELAY,
            serial,
            rank: now + wait,
        }),
    }
}

/// One that waits as long as any node may, `ACK_DELAY_MS`.
pub fn owe_later(now: u64, serial: u32, owed: Option<OwedAck>) -> Option<OwedAck>
    requires { now < 2 ^ 62 }
    ensures { owed_of result ≡ delayed now serial (owed_of owed) }
{
    owe_within(ACK_DELAY_MS, now, serial, owed)
}

/// How many behind a packet with these flags that doesn't ask: a prompt node waits less where more is to come.
fn ack_delay(prompt: bool, flags: u8) -> u64
    ensures value { result ≡ ack_delay_of prompt flags }
    ensures most { result ≤ ACK_DELAY_MS }
{
    if prompt && !has_flag(flags, LAST_PACKET) {
        return PROMPT_ACK_DELAY_MS;
    }
    ACK_DELAY_MS
}

/// So does one that is told behind the read of what came: a prompt node gives that a millisecond, any other none.
fn owe_behind_read(now: u64, prompt: bool, reason: u8, serial: u32) -> Option<OwedAck>
    requires { now < 2 ^ 62 }
    ensures { owed_of result ≡ behind_read now prompt reason serial }
{
    Some(OwedAck {
        reason,
        serial,
        rank: if prompt { now + 1 } else { 0 },
    })
}

/// What is owed behind a packet that was kept.
fn owe_for_kept(
    now: u64,
    prompt: bool,
    before: Before,
    head: &Head,
    owed: Option<OwedAck>,
) -> Option<OwedAck>
    requires { now < 2 ^ 62 }
    ensures { (body : Body) → owed_of result ≡ owed_for_kept now prompt before.hole (message_with_head head.now body)
        before.front (owed_of owed) }
{
    if head.seq as u64 != before.front as u64 + 1 {
        return owe_now(ACK_OUT_OF_SEQUENCE, head.serial);
    }
    if has_flag(head.flags, REQUEST_ACK) {
        return owe_behind_read(now, prompt, ACK_REQUESTED, head.serial);
    }
    if prompt && before.hole {
        return owe_behind_read(now, prompt, ACK_DELAY, head.serial);
    }
    owe_within(ack_delay(prompt, head.flags), now, head.serial, owed)
}

/// What is owed behind a data packet with this answer.
pub fn owe_for(
    took: Took,
    now: u64,
    prompt: bool,
    before: Before,
    head: &Head,
    owed: Option<OwedAck>,
) -> Option<OwedAck>
    requires { now < 2 ^ 62 }
    ensures { (body : Body) → owed_of result ≡ owed_for took now prompt before.hole (message_with_head head.now body)
        before.front (owed_of owed) }
{
    match took {
        Took::Kept => owe_for_kept(now, prompt, before, head, owed),
        Took::Repeat => owe_now(ACK_DUPLICATE, head.serial),
        Took::Beyond => owe_now(ACK_EXCEEDS_WINDOW, head.serial),
        Took::NoSlot => owe_now(ACK_NOSPACE, head.serial),
        Took::Clash => owed,
        Took::Strange => owed,
        Took::Heard => owed,
        Took::Stopped => owed,
        Took::Busy => owed,
        Took::NoRoom => owed,
        Took::Full => owed,
        Took::Old => owed,
        Took::Over => owed,
        Took::Unserved => owed,
        Took::Foreign => owed,
        Took::Bad(_) => owed,
    }
}

/// What is owed behind an acknowledgement that was given, where nothing was heard for so long: a hole that the end
/// `tells` is told again, as soon as that has lasted 10 ms, and then each time that it has lasted twice as long.
pub fn owe_for_given(now: u64, tells: bool, silent: u64) -> Option<OwedAck>
    requires now { now < 2 ^ 62 }
    requires silent { silent < 2 ^ 62 }
    ensures { owed_of result ≡ owed_for_given now tells silent }
{
    if tells {
        return Some(OwedAck {
            reason: ACK_OUT_OF_SEQUENCE,
            serial: 0,
            rank: now + silent.max(HOLE_MS),
        });
    }
    None
}

/// What was left until the read is due at once.
fn hasten(now: u64, owed: OwedAck) -> OwedAck
    requires { now < 2 ^ 62 }
    ensures { owed_ack result ≡ hastened now (owed_ack owed) }
{
    OwedAck {
        reason: owed.reason,
        serial: owed.serial,
        rank: if owed.rank <= now + 1 { 0 } else { owed.rank },
    }
}

/// What is owed behind a read behind which more packets are done with.
pub fn owe_for_done(now: u64, prompt: bool, owed: Option<OwedAck>) -> Option<OwedAck>
    requires { now < 2 ^ 62 }
    ensures { owed_of result ≡ owed_for_done now prompt (owed_of owed) }
{
    let later = owe_later(now, 0, owed);
    if prompt {
        return match later {
            Some(owed) => Some(hasten(now, owed)),
            None => None,
        };
    }
    later
}

/// What is owed behind an ACK with this reason: a ping is answered.
pub fn owe_for_ack(reason: u8, serial: u32, owed: Option<OwedAck>) -> Option<OwedAck>
    ensures { owed_of result ≡ owed_for_ack reason serial (owed_of owed) }
{
    if reason == ACK_PING {
        return owe_now(ACK_PING_RESPONSE, serial);
    }
    owed
}
