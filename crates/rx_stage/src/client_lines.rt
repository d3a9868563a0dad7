//! The lines of a client's calls.
ghost use Rattle.std.specs.Prelude.{◌≡◌, ◌≤◌, ◌≢◌, pos};
ghost use Rattle.rx_events.specs.Events.{IsAsked, IsCancelled, IsReadBack, IsSaid, IsShut};
ghost use Rattle.rx_plan.specs.Finds.{at_call, at_client};
ghost use Rattle.rx_plan.specs.Lines.{connects};
ghost use Rattle.rx_stage.specs.Ran.{stop_of};
ghost use Rattle.rx_stage.specs.Shown.{Plays, script_of};
ghost use Rattle.rx_plan.specs.Stages.{event};
ghost use Rattle.rx_stage.specs.Tells.{told};

use crate::stop::Stop;
use crate::world::World;
use rx_base::Sink;
use rx_joint::SERVER;
use rx_script::Spelled;
use rx_wire::Journal;

impl World {
    /// The client connects to the server; `first` is the first call number.
    pub fn connect_line<O: Sink, J: Journal>(
        &mut self,
        client: u32,
        first: u32,
        out: &mut O,
        book: &mut J,
    ) -> Result<(), Stop>
        requires { 1 ≤ first }
        ensures plays { Plays (at_client client (connects first)) self.old self.new (stop_of result)
            (told (J.told book.old) (O.told out.old) (O.faults out.old))
            (told (J.told book.new) (O.told out.new) (O.faults out.new)) }
        ensures script { script_of self.new ≡ script_of self.old }
    {
        let node = self.client(client)?;
        let to = self.nodes.host(SERVER);
        let event = self.nodes.connect(node, to, self.service, first);
        self.tell(node, &event, out, book)
    }

    /// The client offers bytes to a request.
    pub fn write_line<O: Sink, J: Journal>(
        &mut self,
        k: u32,
        bytes: &Spelled,
        out: &mut O,
        book: &mut J,
    ) -> Result<(), Stop>
        ensures plays { Plays (at_call k (λ c. event c.node (IsSaid c.name bytes.now)))
            self.old self.new (stop_of result)
            (told (J.told book.old) (O.told out.old) (O.faults out.old))
            (told (J.told book.new) (O.told out.new) (O.faults out.new)) }
        ensures script { script_of self.new ≡ script_of self.old }
    {
        let call = self.call(k)?;
        let sent = bytes.spell_out(self.alloc)?;
        let event = self
            .nodes
            .write(self.alloc, call.node, &call.name, sent.as_slice())?;
        self.tell(call.node, &event, out, book)
    }

    /// The client ends a request.
    pub fn shut_line<O: Sink, J: Journal>(
        &mut self,
        k: u32,
        out: &mut O,
        book: &mut J,
    ) -> Result<(), Stop>
        ensures plays { Plays (at_call k (λ c. event c.node (IsShut c.name))) self.old self.new (stop_of result)
            (told (J.told book.old) (O.told out.old) (O.faults out.old))
            (told (J.told book.new) (O.told out.new) (O.faults out.new)) }
        ensures script { script_of self.new ≡ script_of self.old }
    {
        let call = self.call(k)?;
        let event = self.nodes.shut(call.node, &call.name);
        self.tell(call.node, &event, out, book)
    }

    /// The client reads at most `max` bytes of a reply.
    pub fn read_line<O: Sink, J: Journal>(
        &mut self,
        k: u32,
        max: u32,
        out: &mut O,
        book: &mut J,
    ) -> Result<(), Stop>
        requires { 1 ≤ max }
        ensures plays { Plays (at_call k (λ c. event c.node (IsReadBack c.name max)))
            self.old self.new (stop_of result)
            (told (J.told book.old) (O.told out.old) (O.faults out.old))
            (told (J.told book.new) (O.told out.new) (O.faults out.new)) }
        ensures script { script_of self.new ≡ script_of self.old }
    {
        let call = self.call(k)?;
        let event = self
            .nodes
            .read(self.alloc, call.node, &call.name, max as usize)?;
        self.tell(call.node, &event, out, book)
    }

    /// The client asks how a call stands.
    pub fn ask_line<O: Sink, J: Journal>(
        &mut self,
        k: u32,
        out: &mut O,
        book: &mut J,
    ) -> Result<(), Stop>
        ensures plays { Plays (at_call k (λ c. event c.node (IsAsked c.name))) self.old self.new (stop_of result)
            (told (J.told book.old) (O.told out.old) (O.faults out.old))
            (told (J.told book.new) (O.told out.new) (O.faults out.new)) }
        ensures script { script_of self.new ≡ script_of self.old }
    {
        let call = self.call(k)?;
        let event = self.nodes.ask(call.node, &call.name);
        self.tell(call.node, &event, out, book)
    }

    /// The client ends a call with a code.
    pub fn cancel_line<O: Sink, J: Journal>(
        &mut self,
        k: u32,
        code: i32,
        out: &mut O,
        book: &mut J,
    ) -> Result<(), Stop>
        requires { code ≢ pos 0 }
        ensures plays { Plays (at_call k (λ c. event c.node (IsCancelled c.name code)))
            self.old self.new (stop_of result)
            (told (J.told book.old) (O.told out.old) (O.faults out.old))
            (told (J.told book.new) (O.told out.new) (O.faults out.new)) }
        ensures script { script_of self.new ≡ script_of self.old }
    {
        let call = self.call(k)?;
        let event = self.nodes.cancel(call.node, &call.name, code);
        self.tell(call.node, &event, out, book)
    }
}
