//! Each command, by the words behind its name.

ghost use Rattle.std.specs.Prelude.{map};
ghost use Rattle.std.specs.String.{string_bytes};
ghost use Rattle.rx_words.specs.Answers.{IsReading};
ghost use Rattle.rx_words.specs.Commands.{call_of, command_by, compile_of, load_of, peers_of, serve_of, sim_of};
ghost use Rattle.rx_words.specs.Parts.{parts_of};

use crate::command::{CallWords, Command, ServeFiles, SimFiles};
use crate::fault::WordsFault;
use crate::limits::MAX_LOAD_CALLS;
use crate::names::{ARGS, CommandName, OptionName, PLAN, PROC, SCRIPT, XG};
use crate::number::number_within;
use crate::options::{call_options, down_of, serve_options};
use crate::rules::{one_plain, three_plain, two_plain, value_of};
use crate::split::Split;
use std::alloc::Global;

/// The command of this name, by the words behind it.
pub fn command_by(
    alloc: Global,
    command: CommandName,
    words: &[String],
) -> Result<Command, WordsFault>
    ensures { IsReading (command_by command (parts_of (map string_bytes words.now))) result }
{
    match command {
        CommandName::Sim => sim(alloc, words),
        CommandName::Serve => serve(alloc, words),
        CommandName::Call => call(alloc, words),
        CommandName::Compile => compile(alloc, words),
        CommandName::Load => load(words),
        CommandName::Peers => peers(alloc, words),
    }
}

fn sim(alloc: Global, words: &[String]) -> Result<Command, WordsFault>
    ensures { IsReading (sim_of (parts_of (map string_bytes words.now))) result }
{
    let plan = one_plain(words).ok_or(WordsFault::Usage)?;
    let xg = value_of(words, OptionName::Xg);
    let script = value_of(words, OptionName::Script);
    if script.is_some() && xg.is_none() {
        return Err(WordsFault::Usage);
    }
    let split = Split::of(alloc, CommandName::Sim, words)?;
    let plan = split.plain(PLAN, plan)?;
    let xg = split.value(OptionName::Xg, xg)?;
    let script = split.value(OptionName::Script, script)?;
    Ok(Command::Sim(SimFiles { plan, xg, script }))
}

fn serve(alloc: Global, words: &[String]) -> Result<Command, WordsFault>
    ensures { IsReading (serve_of (parts_of (map string_bytes words.now))) result }
{
    let (xg, script) = two_plain(words).ok_or(WordsFault::Usage)?;
    let given = serve_options(words).ok_or(WordsFault::Usage)?;
    let key = value_of(words, OptionName::Key);
    let split = Split::of(alloc, CommandName::Serve, words)?;
    let xg = split.plain(XG, xg)?;
    let script = split.plain(SCRIPT, script)?;
    let key = split.value(OptionName::Key, key)?;
    Ok(Command::Serve(ServeFiles { xg, script, key }, given))
}

fn call(alloc: Global, words: &[String]) -> Result<Command, WordsFault>
    ensures { IsReading (call_of (parts_of (map string_bytes words.now))) result }
{
    let (xg, proc, args) = three_plain(words).ok_or(WordsFault::Usage)?;
    let given = call_options(words).ok_or(WordsFault::Usage)?;
    let down = down_of(value_of(words, OptionName::Down)).ok_or(WordsFault::Usage)?;
    let up = value_of(words, OptionName::Up);
    let key = value_of(words, OptionName::Key);
    let split = Split::of(alloc, CommandName::Call, words)?;
    let xg = split.plain(XG, xg)?;
    let proc = split.plain(PROC, proc)?;
    let args = split.plain(ARGS, args)?;
    let up = split.value(OptionName::Up, up)?;
    let key = split.value(OptionName::Key, key)?;
    let asked = CallWords {
        xg,
        proc,
        args,
        up,
        down,
        key,
    };
    Ok(Command::Call(asked, given))
}

fn compile(alloc: Global, words: &[String]) -> Result<Command, WordsFault>
    ensures { IsReading (compile_of (parts_of (map string_bytes words.now))) result }
{
    let xg = one_plain(words).ok_or(WordsFault::Usage)?;
    let split = Split::of(alloc, CommandName::Compile, words)?;
    let xg = split.plain(XG, xg)?;
    Ok(Command::Compile(xg))
}

fn load(words: &[String]) -> Result<Command, WordsFault>
    ensures { IsReading (load_of (parts_of (map string_bytes words.now))) result }
{
    let (number, calls) = two_plain(words).ok_or(WordsFault::Usage)?;
    let number = number_within(number, 0, u64::MAX).ok_or(WordsFault::Usage)?;
    let calls = number_within(calls, 1, MAX_LOAD_CALLS.into()).ok_or(WordsFault::Usage)?;
    Ok(Command::Load {
        number,
        calls: calls as u32,
    })
}

fn peers(alloc: Global, words: &[String]) -> Result<Command, WordsFault>
    ensures { IsReading (peers_of (parts_of (map string_bytes words.now))) result }
{
    let (xg, script, plan) = three_plain(words).ok_or(WordsFault::Usage)?;
    let split = Split::of(alloc, CommandName::Peers, words)?;
    let xg = split.plain(XG, xg)?;
    let script = split.plain(SCRIPT, script)?;
    let plan = split.plain(PLAN, plan)?;
    Ok(Command::Peers { xg, script, plan })
}
