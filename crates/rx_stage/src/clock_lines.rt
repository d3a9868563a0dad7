//! The lines that set clocks.
ghost use Rattle.std.specs.Prelude.{◌≡◌, ◌<◌, ◌≤◌, ◌^◌, false};
ghost use Rattle.rx_joint.specs.Nodes.{IsNodeThere, KeepsOthers, moment_of, nodes_of};
ghost use Rattle.rx_events.specs.Waits.{is_later};
ghost use Rattle.rx_joint.specs.Nodes.{moments_of};
ghost use Rattle.rx_events.specs.Events.{IsClocked};
ghost use Rattle.rx_plan.specs.Finds.{at_node};
ghost use Rattle.rx_plan.specs.Lines.{clocks, clocks_all, sets_clocks};
ghost use Rattle.rx_stage.specs.Ran.{stop_of};
ghost use Rattle.rx_stage.specs.Shown.{Plays, script_of};
ghost use Rattle.rx_plan.specs.Stages.{event};
ghost use Rattle.rx_stage.specs.Tells.{told};

use crate::stop::Stop;
use crate::world::{World, node_count};
use rx_base::Sink;
use rx_joint::SERVER;
use rx_script::PlanWhy;
use rx_wire::Journal;

impl World {
    /// The clock of a node is set, in milliseconds.
    pub fn clock_line<O: Sink, J: Journal>(
        &mut self,
        node: u32,
        now: u64,
        out: &mut O,
        book: &mut J,
    ) -> Result<(), Stop>
        requires { now < 2 ^ 62 }
        ensures plays { Plays (at_node node (clocks now)) self.old self.new (stop_of result)
            (told (J.told book.old) (O.told out.old) (O.faults out.old))
            (told (J.told book.new) (O.told out.new) (O.faults out.new)) }
        ensures script { script_of self.new ≡ script_of self.old }
    {
        let node = self.node(node)?;
        if self.nodes.moment(node) > now {
            return Err(Stop::Refused(PlanWhy::ClockBack));
        }
        self.clock(node, now, out, book)
    }

    /// All clocks are set: those of the clients in their order, and then the server's.
    pub fn clocks_line<O: Sink, J: Journal>(
        &mut self,
        now: u64,
        out: &mut O,
        book: &mut J,
    ) -> Result<(), Stop>
        requires { now < 2 ^ 62 }
        ensures plays { Plays (clocks_all now) self.old self.new (stop_of result)
            (told (J.told book.old) (O.told out.old) (O.faults out.old))
            (told (J.told book.new) (O.told out.new) (O.faults out.new)) }
        ensures script { script_of self.new ≡ script_of self.old }
    {
        if self.nodes.is_later(now) {
            return Err(Stop::Refused(PlanWhy::ClockBack));
        }
        self.set_clocks(now, out, book)
    }

    /// Sets all clocks.
    fn set_clocks<O: Sink, J: Journal>(
        &mut self,
        now: u64,
        out: &mut O,
        book: &mut J,
    ) -> Result<(), Stop>
        requires now { now < 2 ^ 62 }
        requires later { is_later now (moments_of self.old.nodes) ≡ false }
        ensures plays { Plays (sets_clocks now) self.old self.new (stop_of result)
            (told (J.told book.old) (O.told out.old) (O.faults out.old))
            (told (J.told book.new) (O.told out.new) (O.faults out.new)) }
        ensures script { script_of self.new ≡ script_of self.old }
    {
        for node in 1..node_count(&self.nodes) {
            self.clock(node, now, out, book)?;
        }
        self.clock(SERVER, now, out, book)
    }

    /// Sets the clock of a node.
    pub fn clock<O: Sink, J: Journal>(
        &mut self,
        node: u32,
        now: u64,
        out: &mut O,
        book: &mut J,
    ) -> Result<(), Stop>
        requires there { IsNodeThere self.old.nodes node }
        requires later { moment_of self.old.nodes node ≤ now }
        requires now { now < 2 ^ 62 }
        ensures plays { Plays (event node (IsClocked now)) self.old self.new (stop_of result)
            (told (J.told book.old) (O.told out.old) (O.faults out.old))
            (told (J.told book.new) (O.told out.new) (O.faults out.new)) }
        ensures script { script_of self.new ≡ script_of self.old }
        ensures others { KeepsOthers self.old.nodes self.new.nodes node }
        ensures nodes { nodes_of self.new.nodes ≡ nodes_of self.old.nodes }
    {
        let event = self.nodes.clock(node, now);
        self.tell(node, &event, out, book)
    }
}
