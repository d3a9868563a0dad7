//! Calls and their handlers.

ghost use Rattle.std.specs.Prelude.{◌≡◌, ◌<◌, Ok, length, take, drop};
ghost use Rattle.rx_model.specs.declared.answers.ReadGot.TheVariants as readers;
ghost use Rattle.rx_model.specs.declared.answers.WroteGot.TheVariants as writers;
ghost use Rattle.rx_model.specs.declared.event.Event.TheVariants as events;
ghost use Rattle.rx_rules.specs.After.{finish_done};
ghost use Rattle.rx_rules.specs.Life as lives;
ghost use Rattle.rx_rules.specs.Looks.{Looks, call_at};
ghost use Rattle.rx_rules.specs.Rules.{served_finish, served_read_got};
ghost use Rattle.rx_node.specs.Mirrors.{IsActiveAt};
ghost use Rattle.rx_node.specs.Node.{setup_of};
ghost use Rattle.rx_server.specs.Accepting.{AtMostForAccept};
ghost use Rattle.rx_server.specs.Handling.{Finds, IsFound, IsHandledAt, MayFinish};
ghost use Rattle.rx_server.specs.Server.{Answered, SameSetup, Serves, handler_count};
ghost use Rattle.rx_events.specs.Events.{written_count};

use crate::server::Server;
use crate::server::waiting::next_waiting;
use rx_books::{Life, Turn};
use rx_class::Class;
use rx_due::Steps;
use rx_model::{CallName, CallRead, ServeRead, ServeRefused};
use std::marker::Brand;
use std::sync::ledger::{Blank, Ledger};

/// What a handler finds of a call.
enum Handled {
    /// It is accepted: the key of its channel, and that of its end.
    Open(u32, usize),
    /// It broke with this code; the key of its channel.
    Broken(u32, i32),
    NotOpen,
}

impl<C: Class> Server<C> {
    /// Gives a call to a handler: the one that waits whose packet 1 was kept first, of a client that is proved where
    /// the class challenges. None where no call waits so.
    pub fn accept(&mut self) -> Option<CallName>
        ensures answered { Answered C.class_of self.old self.new (events.Accepted result) }
        ensures setup { setup_of C.class_of self.new.node ≡ setup_of C.class_of self.old.node }
    {
        self.accept_counted::<Brand>(Blank::new(1))
    }

    fn accept_counted<L: Ledger>(&mut self, blank: Blank) -> Option<CallName>
        requires name { blank.name ≡ L.name }
        requires parts { blank.parts ≡ L.parts }
        requires counts { 0 < blank.parts }
        ensures answered { Answered C.class_of self.old self.new (events.Accepted result) }
        ensures setup { setup_of C.class_of self.new.node ≡ setup_of C.class_of self.old.node }
    {
        let mut steps = Steps::<L>::new(blank);
        self.accept_within(&mut steps)
    }

    /// The same, by counted steps: how many it takes has to do with how many channels are no longer ready behind it,
    /// and not with how many calls there are.
    pub fn accept_within<L: Ledger>(&mut self, steps: &mut Steps<L>) -> Option<CallName>
        ensures answered { Answered C.class_of self.old self.new (events.Accepted result) }
        ensures setup { setup_of C.class_of self.new.node ≡ setup_of C.class_of self.old.node }
        ensures steps { AtMostForAccept self.old self.new steps.old steps.new }
    {
        self.firsts.each_came();
        let key = next_waiting(&mut self.firsts, &self.node, steps)?;
        let c = self.node.latest(key);
        self.node.accept(key, steps);
        self.firsts.remove(key, steps);
        Some(c)
    }

    /// Reads the next bytes of the request of a call, as many as fit.
    pub fn read(&mut self, c: &CallName, to: &mut [u8]) -> ServeRead
        requires { 0 < length to.old }
        ensures answered { Answered C.class_of self.old self.new
            (events.HasRead c.now (length to.old) (readers.Server result) (take (handler_count result) to.new)) }
        ensures rest { drop (handler_count result) to.new ≡ drop (handler_count result) to.old }
        ensures setup { setup_of C.class_of self.new.node ≡ setup_of C.class_of self.old.node }
    {
        match self.handled(c) {
            Handled::Open(key, end) => served(self.node.read(key, end, to)),
            Handled::Broken(_key, code) => ServeRead::Gone(code),
            Handled::NotOpen => ServeRead::NotOpen,
        }
    }

    /// Adds bytes to the reply of a call, and answers how many were accepted.
    pub fn write(&mut self, c: &CallName, bytes: &[u8]) -> Result<usize, ServeRefused>
        ensures answered { Answered C.class_of self.old self.new
            (events.Wrote c.now (length bytes.now) (writers.Server result) (take (written_count result) bytes.now)) }
        ensures setup { setup_of C.class_of self.new.node ≡ setup_of C.class_of self.old.node }
    {
        match self.handled(c) {
            Handled::Open(key, end) => {
                if !self.node.all_read(key, end) {
                    return Err(ServeRefused::Unread);
                }
                Ok(self.node.write(key, end, bytes))
            }
            Handled::Broken(_key, code) => Err(ServeRefused::Gone(code)),
            Handled::NotOpen => Err(ServeRefused::NotOpen),
        }
    }

    /// The handler of a call ends: with 0 its reply is whole, with another code the call ends.
    pub fn finish(&mut self, c: &CallName, code: i32) -> Result<(), ServeRefused>
        ensures answered { Answered C.class_of self.old self.new (events.Finished c.now code result) }
        ensures setup { setup_of C.class_of self.new.node ≡ setup_of C.class_of self.old.node }
    {
        match self.handled(c) {
            Handled::Open(key, end) => {
                if code == 0 && !self.node.all_read(key, end) {
                    return Err(ServeRefused::Unread);
                }
                self.finish_open(key, end, code);
                Ok(())
            }
            Handled::Broken(key, told) => {
                self.node.turn(key, Turn::Gone);
                Err(ServeRefused::Gone(told))
            }
            Handled::NotOpen => Err(ServeRefused::NotOpen),
        }
    }

    /// The handler of a call that is open ends.
    fn finish_open(&mut self, key: u32, end: usize, code: i32)
        requires open { IsActiveAt self.old.node key end }
        requires may { (l : Looks) → Serves C.class_of self.old l → MayFinish l key code }
        ensures steps { (l : Looks) (c : CallName) → Serves C.class_of self.old l →
            IsFound l c key lives.Accepted → Ok tt ≡ served_finish (call_at l c) code →
            Serves C.class_of self.new (finish_done c code (Ok tt) l) }
        ensures same { SameSetup C.class_of self.old self.new }
    {
        if code == 0 {
            self.node.turn(key, Turn::Finish(0));
            self.node.shut(key, end);
            return;
        }
        self.node.owe_abort(key, Some(code));
        self.node.turn(key, Turn::Finish(code));
    }

    /// What a handler finds of a call.
    fn handled(&self, c: &CallName) -> Handled
        ensures finds { (l : Looks) → Serves C.class_of self.now l → Finds l c.now result }
        ensures active { IsHandledAt self.now.node result }
    {
        let Some(key) = self.node.own(c) else {
            return Handled::NotOpen;
        };
        match (self.node.life(key), self.node.active(key)) {
            (Some(Life::Accepted), Some(end)) => Handled::Open(key, end),
            (Some(Life::Broken(code)), _) => Handled::Broken(key, code),
            (
                Some(
                    Life::Calling
                    | Life::Ended(_)
                    | Life::Waiting
                    | Life::Accepted
                    | Life::Finished
                    | Life::Over(_),
                )
                | None,
                _,
            ) => Handled::NotOpen,
        }
    }
}

/// The answer to a read of a call that is open.
fn served(got: CallRead) -> ServeRead
    ensures { result ≡ served_read_got got }
{
    match got {
        CallRead::Got(count) => ServeRead::Got(count),
        CallRead::End => ServeRead::End,
        CallRead::NotYet => ServeRead::NotYet,
    }
}
