//! The calls of the server's handlers, as events.
ghost use Rattle.std.specs.Prelude.{◌≡◌, ◌<◌, IfOk, OnErr};
ghost use Rattle.rx_events.specs.Events.{written_count};
ghost use Rattle.rx_server.specs.Server.{handler_count};
ghost use Rattle.rx_events.specs.Events.{IsAccepted, IsFinished, IsReadIn, IsReplied};
ghost use Rattle.rx_joint.specs.Nodes.{Makes};

use crate::nodes::{Nodes, SERVER};
use rx_model::{Bytes, CallName, Event, ReadGot, ServeRead, ServeRefused, WroteGot};
use std::alloc::{AllocError, Global};

impl Nodes {
    /// A handler takes the next call.
    pub fn accept(&mut self) -> Event
        ensures made { Makes self.old self.new SERVER result }
        ensures event { IsAccepted result }
    {
        let got = self.server_mut().accept();
        Event::Accepted { got }
    }

    /// A handler reads at most `max` bytes of its request.
    pub fn handler_read(
        &mut self,
        alloc: Global,
        call: &CallName,
        max: usize,
    ) -> Result<Event, AllocError>
        requires { 0 < max }
        ensures made { IfOk result (Makes self.old self.new SERVER) }
        ensures event { IfOk result (IsReadIn call.now max) }
        ensures same { OnErr result (self.new ≡ self.old) }
    {
        let mut to = vec![in alloc; 0u8; max]?;
        let got = self.server_mut().read(call, &mut to);
        to.truncate(given_count(got));
        Ok(Event::HasRead {
            call: *call,
            max,
            got: ReadGot::Server(got),
            bytes: Bytes::of(to),
        })
    }

    /// A handler adds bytes to its reply.
    pub fn handler_write(
        &mut self,
        alloc: Global,
        call: &CallName,
        offer: &[u8],
    ) -> Result<Event, AllocError>
        ensures made { IfOk result (Makes self.old self.new SERVER) }
        ensures event { IfOk result (IsReplied call.now offer.now) }
        ensures same { OnErr result (self.new ≡ self.old) }
    {
        let mut accepted = Vec::from_slice(alloc, offer)?;
        let got = self.server_mut().write(call, offer);
        accepted.truncate(accepted_count(&got));
        Ok(Event::Wrote {
            call: *call,
            offered: offer.len(),
            got: WroteGot::Server(got),
            bytes: Bytes::of(accepted),
        })
    }

    /// A handler ends with a code.
    pub fn finish(&mut self, call: &CallName, code: i32) -> Event
        ensures made { Makes self.old self.new SERVER result }
        ensures event { IsFinished call.now code result }
    {
        let got = self.server_mut().finish(call, code);
        Event::Finished {
            call: *call,
            code,
            got,
        }
    }
}

/// How many bytes a write accepted.
fn accepted_count(got: &Result<usize, ServeRefused>) -> usize
    ensures { result ≡ written_count got.now }
{
    match got {
        Ok(count) => *count,
        Err(_) => 0,
    }
}

/// How many bytes a read gave.
fn given_count(got: ServeRead) -> usize
    ensures { result ≡ handler_count got }
{
    match got {
        ServeRead::Got(count) => count,
        ServeRead::End | ServeRead::NotYet | ServeRead::Gone(_) | ServeRead::NotOpen => 0,
    }
}
