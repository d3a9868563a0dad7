//! What is outside of a command, as one value.

ghost use Rattle.std.specs.Prelude.{◌≡◌, ◌≤◌, ◌^◌, ◌++◌, codes, IfErr, IfOk, None, drop, true, vec_len};
ghost use Rattle.std.specs.Io.{StartsWith};
ghost use Rattle.std.specs.List.{All, flat_map};
ghost use Rattle.rx_base.specs.Count.{one_more};
ghost use Rattle.rx_base.specs.Files.{HasFile, IsNoted, OnFailed};
ghost use Rattle.rx_jobs.specs.Handlers.{handlers_of};
ghost use Rattle.rx_jumbo.specs.declared.sizes.TheConstants.{JUMBO_PARTS};
ghost use Rattle.rx_loader.specs.Loaded.{LoadIs, LoadKeeps};
ghost use Rattle.rx_plan.specs.Lines.{IsWell};
ghost use Rattle.rx_reply.specs.Replies.{printed_line, printed_of};
ghost use Rattle.rx_rules.specs.Setup.{FitsLimits};
ghost use Rattle.rx_script.specs.Saying.{blocks_of};
ghost use Rattle.rx_stage.specs.Runs.{KeepsPromises, RunIs};
ghost use Rattle.rx_stage.specs.Tells.{told as told_of_plan};
ghost use Rattle.rx_token.specs.Chosen.{chosen, secret_of};
ghost use Rattle.rx_wire_loop.specs.Calls.{CallIs};
ghost use Rattle.rx_wire_loop.specs.Serving.{ServeIs, server_setup, terms_of};
ghost use Rattle.rx_wire_loop.specs.Tells.{sink_tells, wire_tells};
ghost use Rattle.rx_world.specs.Runs.{AllClose, Arrives, Closes, Completes};
ghost use Rattle.rx_top.specs.Outside.{Counts, OnlyErr, OnlyFiles, OnlyOut, OnlyPlan, OnlyWire, Outside, Says};
ghost use Rattle.rx_top.specs.Outside.{plan_told, read_status, wire_told};
ghost use Rattle.rx_top.specs.Puts.{PutsText};

use crate::ok_line::put_ok_line;
use crate::saying::say;
use rx_base::{Failed, Files, ReadFault, Sink};
use rx_load::Loaded;
use rx_reply::ReplyParts;
use rx_script::{Outcome, Plan, Script};
use rx_token::Chosen;
use rx_wire::{Journal, Wire};
use rx_wire_loop::{CallEnd, Calling, ServeEnd, Serving, Stop};
use std::alloc::Global;
use xdr_value::Interface;

/// What is outside of a command: files, `out`, `err`, a wire and a journal, as far as a command has to do with them.
pub trait Surroundings {
    ghost use Rattle.std.specs.Prelude.{Bool};
    ghost use Rattle.rx_top.specs.Outside.{Outside};

    /// What they tell.
    ghost told: { Self → Outside };

    /// Whether a note in the journal may want memory.
    ghost may_want: { Bool };

    /// The bytes of the whole file of that name.
    fn read(&mut self, alloc: Global, name: &str) -> Result<Vec<u8>, ReadFault>
        ensures ok { IfOk result (λ bytes. HasFile (told self.old).files.contents name.now bytes.items) }
        ensures failed { OnFailed result
            (IsNoted (told self.old).files.last (told self.new).files.last name.now) }
        ensures numbered { (told self.new).files.reads ≡ one_more (told self.old).files.reads }
        ensures counts { Counts (read_status result) (told self.old) (told self.new) }
        ensures only { OnlyFiles (told self.old) (told self.new) };

    /// The bytes that are there, and behind them those of the whole file of that name.
    fn read_behind(&mut self, front: Vec<u8>, name: &str) -> Result<Vec<u8>, ReadFault>
        ensures front { IfOk result (λ bytes. StartsWith bytes.items front.items) }
        ensures ok { IfOk result (λ bytes. HasFile (told self.old).files.contents name.now
            (drop (vec_len front) bytes.items)) }
        ensures failed { OnFailed result
            (IsNoted (told self.old).files.last (told self.new).files.last name.now) }
        ensures numbered { (told self.new).files.reads ≡ one_more (told self.old).files.reads }
        ensures counts { Counts (read_status result) (told self.old) (told self.new) }
        ensures only { OnlyFiles (told self.old) (told self.new) };

    /// Puts bytes on `out`.
    fn put(&mut self, bytes: &[u8]) -> Result<(), Failed>
        ensures puts { PutsText result bytes.now (told self.old).out (told self.new).out }
        ensures only { OnlyOut (told self.old) (told self.new) };

    /// Puts the line of a reply on `out`.
    fn put_reply(&mut self, parts: &ReplyParts<'_>) -> Result<(), Failed>
        ensures puts { PutsText result (codes "ok " ++ printed_line (printed_of parts.now) ++ codes "\n")
            (told self.old).out (told self.new).out }
        ensures only { OnlyOut (told self.old) (told self.new) };

    /// Puts the parts of a line on `err`, up to the first whose put fails.
    fn say(&mut self, parts: &[&str])
        ensures said { Says (told self.old) (told self.new) (flat_map (λ part. part.now) parts.now) }
        ensures only { OnlyErr (told self.old) (told self.new) };

    /// Runs a plan.
    fn run(&mut self, alloc: Global, iface: &Interface, script: Script, plan: &Plan) -> Outcome
        requires { All (λ n. IsWell (handlers_of iface.now (blocks_of script.blocks.items)) n.what)
            plan.now.lines.items }
        ensures run { RunIs (handlers_of iface.now (blocks_of script.blocks.items)) plan.now.lines.items result
            (plan_told (told self.old)) (plan_told (told self.new)) }
        ensures headline { KeepsPromises (handlers_of iface.now (blocks_of script.blocks.items))
            plan.now.lines.items result (plan_told (told self.old)) (plan_told (told self.new)) }
        ensures arrives { Arrives (handlers_of iface.now (blocks_of script.blocks.items)) plan.now.lines.items
            result (plan_told (told self.old)) (plan_told (told self.new)) }
        ensures completes { Completes (handlers_of iface.now (blocks_of script.blocks.items)) plan.now.lines.items
            result (plan_told (told self.old)) (plan_told (told self.new)) }
        ensures closes { Closes (handlers_of iface.now (blocks_of script.blocks.items)) plan.now.lines.items
            result (plan_told (told self.old)) (plan_told (told self.new)) }
        ensures all_close { AllClose (handlers_of iface.now (blocks_of script.blocks.items)) plan.now.lines.items
            result (plan_told (told self.old)) (plan_told (told self.new)) }
        ensures only { OnlyPlan (told self.old) (told self.new) };

    /// Serves a node.
    fn serve(
        &mut self,
        alloc: Global,
        iface: &Interface,
        script: Script,
        serving: &Serving,
        class: Chosen,
    ) -> Result<ServeEnd, Stop>
        requires limits { FitsLimits serving.now.limits }
        requires some { 1 ≤ serving.now.jumbo }
        requires few { serving.now.jumbo ≤ JUMBO_PARTS }
        requires span { serving.now.span ≤ 2 ^ 40 }
        ensures serves { ServeIs (terms_of serving.now (handlers_of iface.now (blocks_of script.blocks.items)))
            (server_setup serving.now (chosen (secret_of class))) serving.now.at result (wire_told (told self.old))
            (wire_told (told self.new)) }
        ensures unnoted { IfErr result (λ stop. stop ≡ Stop.Unnoted → may_want ≡ true) }
        ensures only { OnlyWire (told self.old) (told self.new) };

    /// Makes a call.
    fn call(
        &mut self,
        alloc: Global,
        request: Vec<u8>,
        calling: &Calling,
        class: Chosen,
    ) -> Result<CallEnd, Stop>
        requires limits { FitsLimits calling.now.limits }
        requires some { 1 ≤ calling.now.jumbo }
        requires few { calling.now.jumbo ≤ JUMBO_PARTS }
        ensures calls { CallIs calling.now request.items (chosen (secret_of class)) result
            (wire_told (told self.old)) (wire_told (told self.new)) }
        ensures unnoted { IfErr result (λ stop. stop ≡ Stop.Unnoted → may_want ≡ true) }
        ensures only { OnlyWire (told self.old) (told self.new) }
        ensures out { (told self.new).out ≡ (told self.old).out };

    /// Makes a load. How far it is is shown on `err`.
    fn load(&mut self, alloc: Global, number: u64, calls: u32) -> Loaded
        requires { (1 ≤ calls) × (calls ≤ 10000) }
        ensures load { LoadIs number calls result (told_of_plan (told self.old).noted None 0)
            (told_of_plan (told self.new).noted None 0) }
        ensures promises { LoadKeeps number calls result (told_of_plan (told self.old).noted None 0)
            (told_of_plan (told self.new).noted None 0) }
        ensures only { OnlyPlan (told self.old) (told self.new) }
        ensures out { (told self.new).out ≡ (told self.old).out };
}

/// Files, `out`, `err`, a wire and a journal.
#[derive(Drop)]
pub struct Around<'f, 'o, 'e, 'w, 'j, F: Files, O: Sink, E: Sink, W: Wire, J: Journal> {
    pub files: &'f mut F,
    pub out: &'o mut O,
    pub err: &'e mut E,
    pub wire: &'w mut W,
    pub book: &'j mut J,
}

impl<'f, 'o, 'e, 'w, 'j, F: Files, O: Sink, E: Sink, W: Wire, J: Journal> Surroundings
    for Around<'f, 'o, 'e, 'w, 'j, F, O, E, W, J> {
    ghost use Rattle.rx_wire_loop.specs.Tells.{sink_tells, wire_tells};

    ghost told = { λ s. record {
      files = record {
        contents = F.contents s.files.now;
        last = F.failed_last s.files.now;
        reads = F.reads s.files.now;
        faults = F.faults s.files.now;
      };
      out = sink_tells (O.told s.out.now) (O.faults s.out.now);
      err = sink_tells (E.told s.err.now) (E.faults s.err.now);
      wire = wire_tells (W.told s.wire.now) (W.faults s.wire.now) (W.moment s.wire.now);
      noted = J.told s.book.now;
      names = record {
        files = s.files.ghost_name;
        out = s.out.ghost_name;
        err = s.err.ghost_name;
        wire = s.wire.ghost_name;
        book = s.book.ghost_name;
      };
    } };

    ghost may_want = { J.may_want };

    fn read(&mut self, alloc: Global, name: &str) -> Result<Vec<u8>, ReadFault> {
        self.files.read(alloc, name)
    }

    fn read_behind(&mut self, front: Vec<u8>, name: &str) -> Result<Vec<u8>, ReadFault> {
        self.files.read_behind(front, name)
    }

    fn put(&mut self, bytes: &[u8]) -> Result<(), Failed> {
        self.out.put(bytes)
    }

    fn put_reply(&mut self, parts: &ReplyParts<'_>) -> Result<(), Failed> {
        put_ok_line(parts, self.out)
    }

    fn say(&mut self, parts: &[&str]) {
        say(self.err, parts);
    }

    fn run(&mut self, alloc: Global, iface: &Interface, script: Script, plan: &Plan) -> Outcome {
        rx_world::run(alloc, iface, script, plan, self.out, self.book)
    }

    fn serve(
        &mut self,
        alloc: Global,
        iface: &Interface,
        script: Script,
        serving: &Serving,
        class: Chosen,
    ) -> Result<ServeEnd, Stop> {
        rx_wire_loop::serve(
            alloc, iface, script, serving, class, self.wire, self.out, self.book,
        )
    }

    fn call(
        &mut self,
        alloc: Global,
        request: Vec<u8>,
        calling: &Calling,
        class: Chosen,
    ) -> Result<CallEnd, Stop> {
        rx_wire_loop::call(alloc, request, calling, class, self.wire, self.book)
    }

    fn load(&mut self, alloc: Global, number: u64, calls: u32) -> Loaded {
        rx_loader::load(alloc, number, calls, self.err, self.book)
    }
}
