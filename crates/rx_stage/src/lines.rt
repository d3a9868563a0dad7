//! The events of one line of a plan.
ghost use Rattle.std.specs.Prelude.{◌≡◌};
ghost use Rattle.rx_jobs.specs.Handlers.{handlers_of};
ghost use Rattle.rx_plan.specs.Lines.{IsWell, line_part, turn_line};
ghost use Rattle.rx_plan.specs.Finds.{at_node};
ghost use Rattle.rx_stage.specs.Ran.{stop_of};
ghost use Rattle.rx_stage.specs.Shown.{Plays, script_of};
ghost use Rattle.rx_stage.specs.Tells.{told};

use crate::call_lines::{Invoke, invoked_bytes};
use crate::stop::Stop;
use crate::world::World;
use rx_base::Sink;
use rx_joint::SERVER;
use rx_script::{PlanLine, PlanWhy};
use rx_wire::Journal;
use xdr_value::Interface;

impl World {
    /// Makes the events of a line that makes no node, at its place of the plan.
    pub fn line<O: Sink, J: Journal>(
        &mut self,
        iface: &Interface,
        place: usize,
        line: &PlanLine,
        out: &mut O,
        book: &mut J,
    ) -> Result<(), Stop>
        requires { IsWell (handlers_of iface.now (script_of self.old)) line.now }
        ensures plays { Plays (line_part (handlers_of iface.now (script_of self.old)) place line.now)
            self.old self.new (stop_of result)
            (told (J.told book.old) (O.told out.old) (O.faults out.old))
            (told (J.told book.new) (O.told out.new) (O.faults out.new)) }
        ensures script { script_of self.new ≡ script_of self.old }
    {
        match line {
            PlanLine::Server { .. } => Err(Stop::Refused(PlanWhy::Late)),
            PlanLine::Client { .. } => Err(Stop::Refused(PlanWhy::Late)),
            PlanLine::Connect { client, first } => self.connect_line(*client, *first, out, book),
            PlanLine::Call { client, cid } => self.call_line(*client, *cid, out, book),
            PlanLine::Write { call, bytes } => self.write_line(*call, bytes, out, book),
            PlanLine::Shut { call } => self.shut_line(*call, out, book),
            PlanLine::Read { call, max } => self.read_line(*call, *max, out, book),
            PlanLine::Ask { call } => self.ask_line(*call, out, book),
            PlanLine::Cancel { call, code } => self.cancel_line(*call, *code, out, book),
            PlanLine::Accept => self.accept_line(out, book),
            PlanLine::HandlerRead { call, max } => self.handler_read_line(*call, *max, out, book),
            PlanLine::HandlerWrite { call, bytes } => {
                self.handler_write_line(*call, bytes, out, book)
            }
            PlanLine::Finish { call, code } => self.finish_line(*call, *code, out, book),
            PlanLine::Poll { node } => self.poll_line(*node, out, book),
            PlanLine::Deliver { packet } => self.deliver_line(*packet, out, book),
            PlanLine::Jumbo { first, last } => self.jumbo_line(*first, *last, out, book),
            PlanLine::Forge { node, host, bytes } => self.forge_line(
                *node, *host, bytes, out, book,
            ),
            PlanLine::Clock {
                node: Some(node),
                now,
            } => self.clock_line(*node, *now, out, book),
            PlanLine::Clock { node: None, now } => self.clocks_line(*now, out, book),
            PlanLine::Invoke {
                client,
                cid,
                proc,
                up,
                down: _,
                args,
            } => {
                let bytes = invoked_bytes(self.alloc, iface, proc.as_str(), args, up)?;
                let invoke = Invoke {
                    client: *client,
                    cid: *cid,
                    line: place,
                    bytes,
                };
                self.invoke_line(invoke, out, book)
            }
            PlanLine::Turn { node } => self.turn_line(iface, *node, out, book),
            PlanLine::Rounds { rounds } => self.rounds(iface, *rounds, out, book),
            PlanLine::Lossy { number, rounds } => self.lossy(iface, *number, *rounds, out, book),
        }
    }

    /// A turn of the dispatcher, or of a client's callers.
    fn turn_line<O: Sink, J: Journal>(
        &mut self,
        iface: &Interface,
        node: u32,
        out: &mut O,
        book: &mut J,
    ) -> Result<(), Stop>
        ensures plays { Plays (at_node node (turn_line (handlers_of iface.now (script_of self.old))))
            self.old self.new (stop_of result)
            (told (J.told book.old) (O.told out.old) (O.faults out.old))
            (told (J.told book.new) (O.told out.new) (O.faults out.new)) }
        ensures script { script_of self.new ≡ script_of self.old }
    {
        let node = self.node(node)?;
        if node == SERVER {
            return self.dispatch(iface, out, book);
        }
        self.turn_of(node, out, book)
    }
}
