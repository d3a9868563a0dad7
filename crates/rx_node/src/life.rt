ghost use Rattle.std.specs.Prelude.{◌≡◌};
ghost use Rattle.rx_rules.specs.After.{is_zero, is_ok_end, served_code, told_code};
ghost use Rattle.rx_rules.specs.Life as rules;
ghost use Rattle.rx_call.specs.Standing.{is_client};
ghost use Rattle.rx_node.specs.Lives.{after_turn, end_of, ended_life, life_of};

use rx_call::Side;
use rx_model::End;
use rx_model::wire::RX_CALL_DEAD;

/// The life of a call at its node.
///
/// ```text
/// at a client:   Calling --(its reply is read to the end, a code, a cancel, silence)--> Ended
/// at a server:   Waiting --accept--> Accepted --finish with 0--> Finished --(all is acknowledged)--> Over
///                Waiting, Finished --(a code, silence, a later call on the channel)--> Over
///                Accepted --finish with another code--> Over
///                Accepted --(a code, silence, a later call on the channel)--> Broken --finish--> Over
/// ```
#[derive(Clone, Copy, Debug, PartialEq, Eq)]
pub enum Life {
    /// A client's call that lives.
    Calling,
    /// A client's call that ended.
    Ended(End),
    /// A server's call that no handler took yet.
    Waiting,
    /// Its handler is at work.
    Accepted,
    /// Its handler ended well: its reply is given.
    Finished,
    /// A code reached it while its handler was at work, which has to be told.
    Broken(i32),
    /// A server's call that ended, with a code or without.
    Over(Option<i32>),
}

/// What turns a life.
#[derive(Clone, Copy, Debug, PartialEq, Eq)]
pub enum Turn {
    /// A code reaches it.
    Code(i32),
    /// Nothing was heard of it for so many milliseconds.
    Silence(u64),
    /// A call with a higher number takes its channel.
    Later,
    /// It was looked at whether all its pieces are acknowledged.
    Acks(bool),
    /// A handler takes it.
    Accept,
    /// Its handler ended with a code, 0 being a good end.
    Finish(i32),
    /// Its handler was told that it is broken.
    Gone,
    /// A read of it answered End, or another answer.
    End(bool),
    /// The application gives it up.
    Cancel(i32),
}

impl Life {
    /// The life behind a turn.
    pub fn after(self, turn: Turn) -> Life
        ensures { life_of result ≡ after_turn turn (life_of self) }
    {
        match turn {
            Turn::Code(code) => self.after_code(code),
            Turn::Silence(silence) => self.after_silence(silence),
            Turn::Later => self.after_later(),
            Turn::Acks(all) => self.after_acks(all),
            Turn::Accept => self.after_accept(),
            Turn::Finish(code) => self.after_finish(code),
            Turn::Gone => self.after_gone(),
            Turn::End(end) => self.after_end(end),
            Turn::Cancel(code) => self.after_cancel(code),
        }
    }

    /// Whether it lives: a call that is broken lives until its handler's finish.
    pub fn is_live(self) -> bool
        ensures { result ≡ rules.is_live (life_of self) }
    {
        match self {
            Life::Calling | Life::Waiting | Life::Accepted | Life::Finished | Life::Broken(_) =>
                true,
            Life::Ended(_) | Life::Over(_) => false,
        }
    }

    /// Whether it lives and isn't broken: it holds slots, sends, and may die of silence.
    pub fn is_active(self) -> bool
        ensures { result ≡ rules.is_active (life_of self) }
    {
        match self {
            Life::Calling | Life::Waiting | Life::Accepted | Life::Finished => true,
            Life::Ended(_) | Life::Broken(_) | Life::Over(_) => false,
        }
    }

    /// Whether it is a client's that lives.
    pub fn is_calling(self) -> bool
        ensures { result ≡ rules.is_calling (life_of self) }
    {
        match self {
            Life::Calling => true,
            Life::Ended(_)
            | Life::Waiting
            | Life::Accepted
            | Life::Finished
            | Life::Broken(_)
            | Life::Over(_) => false,
        }
    }

    /// Whether its handler hasn't ended, so that no later call can take its channel.
    pub fn is_handled(self) -> bool
        ensures { result ≡ rules.is_handled (life_of self) }
    {
        match self {
            Life::Accepted | Life::Broken(_) => true,
            Life::Calling | Life::Ended(_) | Life::Waiting | Life::Finished | Life::Over(_) =>
                false,
        }
    }

    /// A code reached it: by an ABORT, by silence or by a later call.
    pub fn after_code(self, code: i32) -> Life
        ensures { life_of result ≡ rules.after_code code (life_of self) }
    {
        match self {
            Life::Calling => Life::Ended(End::Abort(code)),
            Life::Waiting | Life::Finished => Life::Over(Some(code)),
            Life::Accepted => Life::Broken(code),
            Life::Ended(_) | Life::Broken(_) | Life::Over(_) => self,
        }
    }

    /// Nothing was heard of it for so many milliseconds.
    pub fn after_silence(self, silence: u64) -> Life
        ensures { life_of result ≡ rules.after_silence silence (life_of self) }
    {
        match self {
            Life::Calling => Life::Ended(End::Dead(silence)),
            Life::Ended(_)
            | Life::Waiting
            | Life::Accepted
            | Life::Finished
            | Life::Broken(_)
            | Life::Over(_) => self.after_code(RX_CALL_DEAD),
        }
    }

    /// A call with a higher number takes its channel.
    pub fn after_later(self) -> Life
        ensures { life_of result ≡ rules.after_later (life_of self) }
    {
        match self {
            Life::Waiting => Life::Over(Some(RX_CALL_DEAD)),
            Life::Finished => Life::Over(None),
            Life::Calling | Life::Ended(_) | Life::Accepted | Life::Broken(_) | Life::Over(_) =>
                self,
        }
    }

    /// Whether all its pieces are acknowledged was looked at: a finished call is over then.
    pub fn after_acks(self, all: bool) -> Life
        ensures { life_of result ≡ rules.after_acks all (life_of self) }
    {
        match self {
            Life::Finished if all => Life::Over(None),
            Life::Calling
            | Life::Ended(_)
            | Life::Waiting
            | Life::Accepted
            | Life::Finished
            | Life::Broken(_)
            | Life::Over(_) => self,
        }
    }

    /// A handler takes it.
    pub fn after_accept(self) -> Life
        ensures { life_of result ≡ rules.after_accept (life_of self) }
    {
        match self {
            Life::Waiting => Life::Accepted,
            Life::Calling
            | Life::Ended(_)
            | Life::Accepted
            | Life::Finished
            | Life::Broken(_)
            | Life::Over(_) => self,
        }
    }

    /// Its handler ended with a code, 0 being a good end.
    pub fn after_finish(self, code: i32) -> Life
        ensures { life_of result ≡ rules.after_finish (is_zero code) code (life_of self) }
    {
        match self {
            Life::Accepted if code == 0 => Life::Finished,
            Life::Accepted => Life::Over(Some(code)),
            Life::Calling
            | Life::Ended(_)
            | Life::Waiting
            | Life::Finished
            | Life::Broken(_)
            | Life::Over(_) => self,
        }
    }

    /// Its handler was told that it is broken.
    pub fn after_gone(self) -> Life
        ensures { life_of result ≡ rules.after_gone (life_of self) }
    {
        match self {
            Life::Broken(code) => Life::Over(Some(code)),
            Life::Calling
            | Life::Ended(_)
            | Life::Waiting
            | Life::Accepted
            | Life::Finished
            | Life::Over(_) => self,
        }
    }

    /// A read of it answered End, or another answer.
    pub fn after_end(self, end: bool) -> Life
        ensures { life_of result ≡ rules.after_end end (life_of self) }
    {
        match self {
            Life::Calling if end => Life::Ended(End::Ok),
            Life::Calling
            | Life::Ended(_)
            | Life::Waiting
            | Life::Accepted
            | Life::Finished
            | Life::Broken(_)
            | Life::Over(_) => self,
        }
    }

    /// The application gives it up.
    pub fn after_cancel(self, code: i32) -> Life
        ensures { life_of result ≡ rules.after_cancel code (life_of self) }
    {
        match self {
            Life::Calling => Life::Ended(End::Cancelled(code)),
            Life::Ended(_)
            | Life::Waiting
            | Life::Accepted
            | Life::Finished
            | Life::Broken(_)
            | Life::Over(_) => self,
        }
    }

    /// The code with which a server's call ended or broke.
    pub fn served_code(self) -> Option<i32>
        ensures { result ≡ served_code (life_of self) }
    {
        match self {
            Life::Broken(code) => Some(code),
            Life::Over(code) => code,
            Life::Calling | Life::Ended(_) | Life::Waiting | Life::Accepted | Life::Finished =>
                None,
        }
    }

    /// The code that data for a call that ended has told again: a cancelled call's too.
    pub fn told_code(self) -> Option<i32>
        ensures { result ≡ told_code (life_of self) }
    {
        match self {
            Life::Ended(End::Cancelled(code)) => Some(code),
            Life::Ended(End::Ok | End::Abort(_) | End::Dead(_)) => None,
            Life::Calling
            | Life::Waiting
            | Life::Accepted
            | Life::Finished
            | Life::Broken(_)
            | Life::Over(_) => self.served_code(),
        }
    }

    /// Whether it ended with its reply read.
    pub fn is_ok_end(self) -> bool
        ensures { result ≡ is_ok_end (life_of self) }
    {
        match self {
            Life::Ended(End::Ok) => true,
            Life::Ended(End::Abort(_) | End::Dead(_) | End::Cancelled(_)) => false,
            Life::Calling
            | Life::Waiting
            | Life::Accepted
            | Life::Finished
            | Life::Broken(_)
            | Life::Over(_) => false,
        }
    }
}

/// How a call that doesn't live ended, as its seat keeps it.
pub fn end_of(life: Life) -> End
    ensures { result ≡ end_of (life_of life) }
{
    match life {
        Life::Ended(end) => end,
        Life::Over(Some(code)) => End::Abort(code),
        Life::Over(None)
        | Life::Calling
        | Life::Waiting
        | Life::Accepted
        | Life::Finished
        | Life::Broken(_) => End::Ok,
    }
}

/// The life of a call that ended so at this side.
pub fn ended_life(side: Side, end: End) -> Life
    ensures { life_of result ≡ ended_life (is_client side) end }
{
    match side {
        Side::Client => Life::Ended(end),
        Side::Server => match end {
            End::Abort(code) => Life::Over(Some(code)),
            End::Ok | End::Dead(_) | End::Cancelled(_) => Life::Over(None),
        },
    }
}
