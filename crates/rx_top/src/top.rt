//! The program behind its words, files and sinks.

ghost use Rattle.std.specs.Prelude.{◌≤◌, ◌≡◌, ◌≢◌, map, List, ℕ, Some, false};
ghost use Rattle.std.specs.IoError.{error_kind};
ghost use Rattle.std.specs.String.{string_bytes};
ghost use Rattle.rx_base.specs.Sink.{HasRisen, IsPut};
ghost use Rattle.rx_words.specs.Commands.{command_of};
ghost use Rattle.rx_words.specs.declared.command.CallWords.{CallWords};
ghost use Rattle.rx_words.specs.declared.command.ServeFiles.{ServeFiles};
ghost use Rattle.rx_words.specs.declared.command.SimFiles.{SimFiles};
ghost use Rattle.rx_words.specs.declared.options.CallOptions.{CallOptions};
ghost use Rattle.rx_words.specs.declared.options.ServeOptions.{ServeOptions};
ghost use Rattle.rx_wire_loop.specs.Tells.{sink_tells, told as told_over, wire_tells};
ghost use Rattle.rx_stage.specs.Tells.{told};
ghost use Rattle.rx_top.specs.Calls.{CallLeaves, CanCall};
ghost use Rattle.rx_top.specs.Commands.{has_command, has_events, has_files, has_wire, is_command};
ghost use Rattle.rx_top.specs.Compiles.{CompileLeaves};
ghost use Rattle.rx_top.specs.Endings.{memory_text, seen_by, usage_text};
ghost use Rattle.rx_top.specs.Inputs.{reads_by};
ghost use Rattle.rx_top.specs.LoadLines.{LoadLeaves};
ghost use Rattle.rx_top.specs.Leaves.{CanDo, Leaves, Spares, calling_of, serving_of};
ghost use Rattle.rx_top.specs.Outside.{Counts, OnlyErr, Says, plan_told, reads_of, seen_of, wire_told};
ghost use Rattle.rx_top.specs.Serves.{CanServe, ServeLeaves};
ghost use Rattle.rx_top.specs.Sims.{SimLeaves};

use crate::around::{Around, Surroundings};
use crate::call::call_files;
use crate::compile::{compile_file, say_compiled};
use crate::load::{load_calls, say_loaded};
use crate::outcome::say_outcome;
use crate::saying::say;
use crate::serve::serve_files;
use crate::setup::{calling_of, serving_of};
use crate::sim::sim;
use crate::status::Status;
use crate::wire_outcome::say_ended;
use rx_base::{Files, Sink};
use rx_wire::{Journal, Wire};
use rx_wire_loop::{Calling, Serving};
use rx_words::{CallWords, Command, ServeFiles, SimFiles, WordsFault, read_words};
use std::alloc::Global;
use std::io;
use std::io::ErrorKind;

/// Does the command that the words name: `sim PLAN` runs a plan, with the interface and the script that are named, and
/// puts its trace on `out`, each event noted in `book` before; `serve XG SCRIPT` serves a node over `wire`, and
/// `call XG PROC ARGS` makes a call, each event of the node noted in `book`; `compile XG` puts the table of an
/// interface file; `load NUMBER CALLS` makes a load, each event noted in `book`, and puts what became of it. The other
/// command of the words isn't built yet.
/// What isn't done whole says its line on `err`, as far as that takes it.
pub fn rx_main<F: Files, O: Sink, E: Sink, W: Wire, J: Journal>(
    alloc: Global,
    words: &[String],
    files: &mut F,
    out: &mut O,
    err: &mut E,
    wire: &mut W,
    book: &mut J,
) -> Status
    // Words that are no command that the program has. Want of memory for them stands in the way of it alone.
    ensures usage { result ≡ Status.Usage → is_command (command_of (map string_bytes words.now)) ≡ false }
    ensures no_command { is_command (command_of (map string_bytes words.now)) ≡ false
        → result ≢ Status.Memory → result ≡ Status.Usage }
    ensures usage_said { result ≡ Status.Usage
        → IsPut (E.told err.old) (E.told err.new) (E.faults err.old) (E.faults err.new) usage_text }
    ensures no_command_said { is_command (command_of (map string_bytes words.now)) ≡ false → result ≡ Status.Memory
        → IsPut (E.told err.old) (E.told err.new) (E.faults err.old) (E.faults err.new) memory_text }
    ensures no_command_out { is_command (command_of (map string_bytes words.now)) ≡ false
        → O.told out.new ≡ O.told out.old }
    ensures no_read { has_files (command_of (map string_bytes words.now)) ≡ false
        → F.reads files.new ≡ F.reads files.old }
    ensures no_events { has_events (command_of (map string_bytes words.now)) ≡ false
        → J.told book.new ≡ J.told book.old }
    ensures no_wire { has_wire (command_of (map string_bytes words.now)) ≡ false
        → (W.told wire.new ≡ W.told wire.old) × (W.moment wire.new ≡ W.moment wire.old) }

    // What `sim PLAN [--xg XG] [--script SCRIPT]` does, and what it says of that.
    ensures sim { (names : SimFiles) → command_of (map string_bytes words.now) ≡ Some (Command.Sim names)
        → SimLeaves result names (reads_by F.contents F.failed_last F.reads files.old files.new)
        (told (J.told book.old) (O.told out.old) (O.faults out.old))
        (told (J.told book.new) (O.told out.new) (O.faults out.new))
        (IsPut (E.told err.old) (E.told err.new) (E.faults err.old) (E.faults err.new)) }

    // What `serve XG SCRIPT --at HOST ..` does, and what it says of that.
    ensures serve { (names : ServeFiles) (given : ServeOptions)
        → command_of (map string_bytes words.now) ≡ Some (Command.Serve names given)
        → ServeLeaves result names (serving_of given)
        (reads_by F.contents F.failed_last F.reads files.old files.new)
        (told_over (J.told book.old) (sink_tells (O.told out.old) (O.faults out.old))
        (wire_tells (W.told wire.old) (W.faults wire.old) (W.moment wire.old)))
        (told_over (J.told book.new) (sink_tells (O.told out.new) (O.faults out.new))
        (wire_tells (W.told wire.new) (W.faults wire.new) (W.moment wire.new))) J.may_want
        (IsPut (E.told err.old) (E.told err.new) (E.faults err.old) (E.faults err.new)) }

    // What `call XG PROC ARGS --to HOST --epoch N ..` does, and what it says of that.
    ensures call { (asked : CallWords) (given : CallOptions)
        → command_of (map string_bytes words.now) ≡ Some (Command.Call asked given)
        → CallLeaves result asked (calling_of given)
        (reads_by F.contents F.failed_last F.reads files.old files.new)
        (told_over (J.told book.old) (sink_tells (O.told out.old) (O.faults out.old))
        (wire_tells (W.told wire.old) (W.faults wire.old) (W.moment wire.old)))
        (told_over (J.told book.new) (sink_tells (O.told out.new) (O.faults out.new))
        (wire_tells (W.told wire.new) (W.faults wire.new) (W.moment wire.new))) J.may_want
        (IsPut (E.told err.old) (E.told err.new) (E.faults err.old) (E.faults err.new)) }

    // What `compile XG` does, and what it says of that.
    ensures compile { (xg : List ℕ) → command_of (map string_bytes words.now) ≡ Some (Command.Compile xg)
        → CompileLeaves result xg (seen_by F.contents F.failed_last F.reads O.told files.old files.new out.old out.new)
        (IsPut (E.told err.old) (E.told err.new) (E.faults err.old) (E.faults err.new)) }

    // What `load NUMBER CALLS` does, and what it says of that.
    ensures load { (number calls : ℕ) → command_of (map string_bytes words.now) ≡ Some (Command.Load number calls)
        → LoadLeaves result number calls (told (J.told book.old) (O.told out.old) (O.faults out.old))
        (told (J.told book.new) (O.told out.new) (O.faults out.new))
        (IsPut (E.told err.old) (E.told err.new) (E.faults err.old) (E.faults err.new)) }

    // A command that is done whole says nothing.
    ensures quiet_told { result ≡ Status.Ok → E.told err.new ≡ E.told err.old }
    ensures quiet_faults { result ≡ Status.Ok → E.faults err.new ≡ E.faults err.old }

    // Each fault has its status, and each such status its fault.
    ensures file_fault { result ≡ Status.FileFault → HasRisen (F.faults files.old) (F.faults files.new) }
    ensures no_file_fault { result ≢ Status.FileFault → F.faults files.new ≡ F.faults files.old }
    ensures sink_fault { result ≡ Status.SinkFault → HasRisen (O.faults out.old) (O.faults out.new) }
    ensures no_sink_fault { result ≢ Status.SinkFault → O.faults out.new ≡ O.faults out.old }
    ensures wire_fault { result ≡ Status.WireFault → HasRisen (W.faults wire.old) (W.faults wire.new) }
    ensures no_wire_fault { result ≢ Status.WireFault → W.faults wire.new ≡ W.faults wire.old }
    ensures same_contents { F.contents files.new ≡ F.contents files.old }
    ensures same_failed_last { result ≢ Status.FileFault → F.failed_last files.new ≡ F.failed_last files.old }
{
    match read_words(alloc, words) {
        Ok(command) => {
            let mut x = Around {
                files,
                out,
                err,
                wire,
                book,
            };
            do_command(alloc, &command, &mut x)
        }
        Err(WordsFault::Usage) => refuse(err),
        Err(WordsFault::OutOfMemory) => end_for_memory(err),
    }
}

/// Does a command.
fn do_command<X: Surroundings>(alloc: Global, command: &Command, x: &mut X) -> Status
    requires { CanDo command.now }
    ensures leaves { Leaves command.now result X.may_want (X.told x.old) (X.told x.new) }
    ensures usage { result ≡ Status.Usage → has_command command.now ≡ false }
    ensures nothing { has_command command.now ≡ false → result ≡ Status.Usage }
    ensures spares { Spares command.now (X.told x.old) (X.told x.new) }
    ensures counts { Counts result (X.told x.old) (X.told x.new) }
    ensures quiet { result ≡ Status.Ok → (X.told x.new).err ≡ (X.told x.old).err }
{
    match command {
        Command::Sim(names) => do_sim(alloc, names, x),
        Command::Serve(names, given) => do_serve(alloc, names, &serving_of(given), x),
        Command::Call(asked, given) => do_call(alloc, asked, &calling_of(given), x),
        Command::Compile(xg) => do_compile(alloc, xg.as_str(), x),
        Command::Load { number, calls } => do_load(alloc, *number, *calls, x),
        Command::Peers { .. } => do_nothing(x),
    }
}

/// Runs the plan of a file, and says how that ended.
fn do_sim<X: Surroundings>(alloc: Global, names: &SimFiles, x: &mut X) -> Status
    ensures sim { SimLeaves result names.now (reads_of (X.told x.old) (X.told x.new)) (plan_told (X.told x.old))
        (plan_told (X.told x.new)) (Says (X.told x.old) (X.told x.new)) }
    ensures a_command { result ≢ Status.Usage }
    ensures counts { Counts result (X.told x.old) (X.told x.new) }
    ensures quiet { result ≡ Status.Ok → (X.told x.new).err ≡ (X.told x.old).err }
    ensures same_wire { (X.told x.new).wire ≡ (X.told x.old).wire }
{
    let outcome = sim(alloc, names, x);
    say_outcome(x, &outcome);
    outcome.status()
}

/// Serves a node, and says how that ended.
fn do_serve<X: Surroundings>(
    alloc: Global,
    names: &ServeFiles,
    serving: &Serving,
    x: &mut X,
) -> Status
    requires { CanServe serving.now }
    ensures serve { ServeLeaves result names.now serving.now (reads_of (X.told x.old) (X.told x.new))
        (wire_told (X.told x.old)) (wire_told (X.told x.new)) X.may_want (Says (X.told x.old) (X.told x.new)) }
    ensures a_command { result ≢ Status.Usage }
    ensures counts { Counts result (X.told x.old) (X.told x.new) }
    ensures quiet { result ≡ Status.Ok → (X.told x.new).err ≡ (X.told x.old).err }
{
    let outcome = serve_files(alloc, names, serving, x);
    say_ended(x, &outcome);
    outcome.status()
}

/// Makes a call, and says how that ended.
fn do_call<X: Surroundings>(
    alloc: Global,
    asked: &CallWords,
    calling: &Calling,
    x: &mut X,
) -> Status
    requires { CanCall calling.now }
    ensures call { CallLeaves result asked.now calling.now (reads_of (X.told x.old) (X.told x.new))
        (wire_told (X.told x.old)) (wire_told (X.told x.new)) X.may_want (Says (X.told x.old) (X.told x.new)) }
    ensures a_command { result ≢ Status.Usage }
    ensures counts { Counts result (X.told x.old) (X.told x.new) }
    ensures quiet { result ≡ Status.Ok → (X.told x.new).err ≡ (X.told x.old).err }
{
    let outcome = call_files(alloc, asked, calling, x);
    say_ended(x, &outcome);
    outcome.status()
}

/// Puts the table of an interface file, and says how that ended.
fn do_compile<X: Surroundings>(alloc: Global, xg: &str, x: &mut X) -> Status
    ensures compile { CompileLeaves result xg.now (seen_of (X.told x.old) (X.told x.new))
        (Says (X.told x.old) (X.told x.new)) }
    ensures a_command { result ≢ Status.Usage }
    ensures counts { Counts result (X.told x.old) (X.told x.new) }
    ensures quiet { result ≡ Status.Ok → (X.told x.new).err ≡ (X.told x.old).err }
    ensures same_wire { (X.told x.new).wire ≡ (X.told x.old).wire }
    ensures no_events { (X.told x.new).noted ≡ (X.told x.old).noted }
{
    let outcome = compile_file(alloc, xg, x);
    say_compiled(x, xg, &outcome);
    outcome.status()
}

/// Makes a load, and says how that ended.
fn do_load<X: Surroundings>(alloc: Global, number: u64, calls: u32, x: &mut X) -> Status
    requires { (1 ≤ calls) × (calls ≤ 10000) }
    ensures load { LoadLeaves result number calls (plan_told (X.told x.old)) (plan_told (X.told x.new))
        (Says (X.told x.old) (X.told x.new)) }
    ensures a_command { result ≢ Status.Usage }
    ensures counts { Counts result (X.told x.old) (X.told x.new) }
    ensures quiet { result ≡ Status.Ok → (X.told x.new).err ≡ (X.told x.old).err }
    ensures same_wire { (X.told x.new).wire ≡ (X.told x.old).wire }
    ensures same_files { (X.told x.new).files ≡ (X.told x.old).files }
{
    let outcome = load_calls(alloc, number, calls, x);
    say_loaded(x, outcome);
    outcome.status()
}

/// Ends the program at a command that it doesn't have.
fn do_nothing<X: Surroundings>(x: &mut X) -> Status
    ensures usage { result ≡ Status.Usage }
    ensures said { Says (X.told x.old) (X.told x.new) usage_text }
    ensures only { OnlyErr (X.told x.old) (X.told x.new) }
{
    x.say(&["rx: usage\n"]);
    Status::Usage
}

/// Ends the program where its words are no command.
fn refuse<E: Sink>(err: &mut E) -> Status
    ensures usage { result ≡ Status.Usage }
    ensures said { IsPut (E.told err.old) (E.told err.new) (E.faults err.old) (E.faults err.new) usage_text }
{
    say(err, &["rx: usage\n"]);
    Status::Usage
}

/// Ends the program where there is no memory for its words.
fn end_for_memory<E: Sink>(err: &mut E) -> Status
    ensures memory { result ≡ Status.Memory }
    ensures said { IsPut (E.told err.old) (E.told err.new) (E.faults err.old) (E.faults err.new) memory_text }
{
    say(err, &["rx: out of memory\n"]);
    Status::Memory
}

/// Ends the program where the system doesn't give its words: for want of memory, or because they aren't text, and so
/// no command.
pub fn end_without_words<E: Sink>(error: io::Error, err: &mut E) -> Status
    ensures memory { error_kind error ≡ ErrorKind.OutOfMemory → result ≡ Status.Memory }
    ensures usage { error_kind error ≢ ErrorKind.OutOfMemory → result ≡ Status.Usage }
    ensures memory_said { result ≡ Status.Memory
        → IsPut (E.told err.old) (E.told err.new) (E.faults err.old) (E.faults err.new) memory_text }
    ensures usage_said { result ≡ Status.Usage
        → IsPut (E.told err.old) (E.told err.new) (E.faults err.old) (E.faults err.new) usage_text }
{
    if error.kind() == ErrorKind::OutOfMemory {
        end_for_memory(err)
    } else {
        refuse(err)
    }
}
