//! The calls of the handlers of served halves, as events.
ghost use Rattle.std.specs.Prelude.{◌≡◌, ◌<◌, IfOk, OnErr};
ghost use Rattle.rx_events.specs.Events.{written_count};
ghost use Rattle.rx_server.specs.Server.{handler_count};
ghost use Rattle.rx_events.specs.Events.{IsAccepted, IsFinished, IsReadIn, IsReplied};
ghost use Rattle.rx_peer.specs.declared.role.Role.TheVariants as roles;
ghost use Rattle.rx_joint_peers.specs.Joint.{IsPeerThere, Makes};

use crate::joint::JointPeers;
use rx_model::{Bytes, CallName, Event, ReadGot, ServeRead, ServeRefused, WroteGot};
use std::alloc::{AllocError, Global};

impl JointPeers {
    /// A handler of a peer takes the next call.
    pub fn accept(&mut self, number: u32) -> Event
        requires { IsPeerThere self.old number }
        ensures made { Makes self.old self.new number roles.Served result }
        ensures event { IsAccepted result }
    {
        let got = self.peer_mut(number).served.accept();
        Event::Accepted { got }
    }

    /// A handler of a peer reads at most `max` bytes of its request.
    pub fn handler_read(
        &mut self,
        alloc: Global,
        number: u32,
        call: &CallName,
        max: usize,
    ) -> Result<Event, AllocError>
        requires there { IsPeerThere self.old number }
        requires some { 0 < max }
        ensures made { IfOk result (Makes self.old self.new number roles.Served) }
        ensures event { IfOk result (IsReadIn call.now max) }
        ensures same { OnErr result (self.new ≡ self.old) }
    {
        let mut to = vec![in alloc; 0u8; max]?;
        let got = self.peer_mut(number).served.read(call, &mut to);
        to.truncate(given_count(got));
        Ok(Event::HasRead {
            call: *call,
            max,
            got: ReadGot::Server(got),
            bytes: Bytes::of(to),
        })
    }

    /// A handler of a peer adds bytes to its reply.
    pub fn handler_write(
        &mut self,
        alloc: Global,
        number: u32,
        call: &CallName,
        offer: &[u8],
    ) -> Result<Event, AllocError>
        requires { IsPeerThere self.old number }
        ensures made { IfOk result (Makes self.old self.new number roles.Served) }
        ensures event { IfOk result (IsReplied call.now offer.now) }
        ensures same { OnErr result (self.new ≡ self.old) }
    {
        let mut accepted = Vec::from_slice(alloc, offer)?;
        let got = self.peer_mut(number).served.write(call, offer);
        accepted.truncate(accepted_count(&got));
        Ok(Event::Wrote {
            call: *call,
            offered: offer.len(),
            got: WroteGot::Server(got),
            bytes: Bytes::of(accepted),
        })
    }

    /// A handler of a peer ends with a code.
    pub fn finish(&mut self, number: u32, call: &CallName, code: i32) -> Event
        requires { IsPeerThere self.old number }
        ensures made { Makes self.old self.new number roles.Served result }
        ensures event { IsFinished call.now code result }
    {
        let got = self.peer_mut(number).served.finish(call, code);
        Event::Finished {
            call: *call,
            code,
            got,
        }
    }
}

/// How many bytes a write accepted.
fn accepted_count(got: &Result<usize, ServeRefused>) -> usize
    ensures { result ≡ written_count got.now }
{
    match got {
        Ok(count) => *count,
        Err(_) => 0,
    }
}

/// How many bytes a read gave.
fn given_count(got: ServeRead) -> usize
    ensures { result ≡ handler_count got }
{
    match got {
        ServeRead::Got(count) => count,
        ServeRead::End | ServeRead::NotYet | ServeRead::Gone(_) | ServeRead::NotOpen => 0,
    }
}
