//! The lines of the server's calls, as its handlers make them.
ghost use Rattle.std.specs.Prelude.{◌≡◌, ◌≤◌, OnOk};
ghost use Rattle.rx_events.specs.Events.{IsAccepted, IsFinished, IsReadIn, IsReplied};
ghost use Rattle.rx_plan.specs.Finds.{at_accepted};
ghost use Rattle.rx_plan.specs.Lines.{accepts_line};
ghost use Rattle.rx_stage.specs.Ran.{stop_of};
ghost use Rattle.rx_stage.specs.Shown.{Plays, script_of};
ghost use Rattle.rx_plan.specs.Stages.{event, name_accepted, with_some};
ghost use Rattle.rx_stage.specs.Tells.{told};

use crate::stop::Stop;
use crate::world::World;
use rx_base::Sink;
use rx_joint::SERVER;
use rx_model::{CallName, Event};
use rx_script::Spelled;
use rx_wire::Journal;
use std::alloc::AllocError;

impl World {
    /// A handler takes the next call, whose name is kept.
    pub fn accept_line<O: Sink, J: Journal>(
        &mut self,
        out: &mut O,
        book: &mut J,
    ) -> Result<(), Stop>
        ensures plays { Plays accepts_line self.old self.new (stop_of result)
            (told (J.told book.old) (O.told out.old) (O.faults out.old))
            (told (J.told book.new) (O.told out.new) (O.faults out.new)) }
        ensures script { script_of self.new ≡ script_of self.old }
    {
        let event = self.nodes.accept();
        self.tell(SERVER, &event, out, book)?;
        keep_accepted(&mut self.accepted, &event)?;
        Ok(())
    }

    /// A handler reads at most `max` bytes of a request.
    pub fn handler_read_line<O: Sink, J: Journal>(
        &mut self,
        k: u32,
        max: u32,
        out: &mut O,
        book: &mut J,
    ) -> Result<(), Stop>
        requires { 1 ≤ max }
        ensures plays { Plays (at_accepted k (λ c. event 0 (IsReadIn c max))) self.old self.new (stop_of result)
            (told (J.told book.old) (O.told out.old) (O.faults out.old))
            (told (J.told book.new) (O.told out.new) (O.faults out.new)) }
        ensures script { script_of self.new ≡ script_of self.old }
    {
        let name = self.accepted(k)?;
        let event = self.nodes.handler_read(self.alloc, &name, max as usize)?;
        self.tell(SERVER, &event, out, book)
    }

    /// A handler offers bytes to a reply.
    pub fn handler_write_line<O: Sink, J: Journal>(
        &mut self,
        k: u32,
        bytes: &Spelled,
        out: &mut O,
        book: &mut J,
    ) -> Result<(), Stop>
        ensures plays { Plays (at_accepted k (λ c. event 0 (IsReplied c bytes.now))) self.old self.new (stop_of result)
            (told (J.told book.old) (O.told out.old) (O.faults out.old))
            (told (J.told book.new) (O.told out.new) (O.faults out.new)) }
        ensures script { script_of self.new ≡ script_of self.old }
    {
        let name = self.accepted(k)?;
        let sent = bytes.spell_out(self.alloc)?;
        let event = self
            .nodes
            .handler_write(self.alloc, &name, sent.as_slice())?;
        self.tell(SERVER, &event, out, book)
    }

    /// A handler ends with a code.
    pub fn finish_line<O: Sink, J: Journal>(
        &mut self,
        k: u32,
        code: i32,
        out: &mut O,
        book: &mut J,
    ) -> Result<(), Stop>
        ensures plays { Plays (at_accepted k (λ c. event 0 (IsFinished c code))) self.old self.new (stop_of result)
            (told (J.told book.old) (O.told out.old) (O.faults out.old))
            (told (J.told book.new) (O.told out.new) (O.faults out.new)) }
        ensures script { script_of self.new ≡ script_of self.old }
    {
        let name = self.accepted(k)?;
        let event = self.nodes.finish(&name, code);
        self.tell(SERVER, &event, out, book)
    }
}

/// Keeps the name that an accept answered.
fn keep_accepted(names: &mut Vec<CallName>, event: &Event) -> Result<(), AllocError>
    ensures { OnOk result (names.new.items ≡ with_some names.old.items (name_accepted event.now)) }
{
    if let Event::Accepted { got: Some(name) } = event {
        names.push(*name)?;
    }
    Ok(())
}
