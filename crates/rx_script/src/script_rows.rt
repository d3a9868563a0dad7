//! The lines of blocks, a row for each.

ghost use Rattle.std.specs.Prelude.{◌≡◌, map};
ghost use Rattle.std.specs.List.{Contains, list_any};
ghost use Rattle.xdr_value.specs.View.{types_of, procs_of, proc_of};
ghost use Rattle.rx_script.specs.Drafts.{before_of};
ghost use Rattle.rx_script.specs.Reading.{IsSeen};
ghost use Rattle.rx_script.specs.Saying.{saying_of, fail, send};
ghost use Rattle.rx_script.specs.ScriptRows.{copy_line, count_line, is_down, is_up, is_wait, script_line, set_line};
ghost use Rattle.rx_script.specs.ScriptRows.{size_line, wait_line, when_line};
ghost use Rattle.rx_script.specs.Words.{bytes_word, end, fault_word, word};

use crate::fault::{LineWhy, Refusal};
use crate::limits::MAX_WAIT;
use crate::pieces::Pieces;
use crate::procs::{Role, arg_word, json_word, source_word};
use crate::script::ScriptLine;
use crate::verb::Verb;
use crate::words::{bytes_word, fault_word, no_more, number_word};
use std::alloc::Global;
use xdr_value::{Interface, Proc};

/// A line of a block with its number in the text, from 1.
#[derive(Debug, Drop)]
pub struct Marked {
    pub line: u32,
    pub what: ScriptLine,
}

fn is_wait(line: &ScriptLine) -> bool
    ensures { result ≡ is_wait (saying_of line.now) }
{
    match line {
        ScriptLine::Wait(_) => true,
        ScriptLine::Up | ScriptLine::Down | ScriptLine::When { .. } => false,
        ScriptLine::Fail(_) | ScriptLine::Set { .. } | ScriptLine::Copy { .. } => false,
        ScriptLine::Size { .. } | ScriptLine::Count(_) => false,
        ScriptLine::Echo | ScriptLine::Send(_) => false,
    }
}

/// Whether a line is `up`: the request ends with a counted stream.
pub fn is_up(line: &ScriptLine) -> bool
    ensures { result ≡ is_up (saying_of line.now) }
{
    match line {
        ScriptLine::Up => true,
        ScriptLine::Wait(_) | ScriptLine::Down | ScriptLine::When { .. } => false,
        ScriptLine::Fail(_) | ScriptLine::Set { .. } | ScriptLine::Copy { .. } => false,
        ScriptLine::Size { .. } | ScriptLine::Count(_) => false,
        ScriptLine::Echo | ScriptLine::Send(_) => false,
    }
}

/// Whether a line is `down`: the reply begins with a counted stream.
pub fn is_down(line: &ScriptLine) -> bool
    ensures { result ≡ is_down (saying_of line.now) }
{
    match line {
        ScriptLine::Down => true,
        ScriptLine::Wait(_) | ScriptLine::Up | ScriptLine::When { .. } => false,
        ScriptLine::Fail(_) | ScriptLine::Set { .. } | ScriptLine::Copy { .. } => false,
        ScriptLine::Size { .. } | ScriptLine::Count(_) => false,
        ScriptLine::Echo | ScriptLine::Send(_) => false,
    }
}

fn has_wait(before: &[Marked]) -> bool
    ensures { result ≡ list_any is_wait (before_of before.now) }
{
    for line in before {
        if is_wait(&line.what) {
            return true;
        }
    }
    false
}

/// Whether one of the lines of a block is `up`.
pub fn has_up(before: &[Marked]) -> bool
    ensures { result ≡ list_any is_up (before_of before.now) }
{
    for line in before {
        if is_up(&line.what) {
            return true;
        }
    }
    false
}

/// Whether one of the lines of a block is `down`.
pub fn has_down(before: &[Marked]) -> bool
    ensures { result ≡ list_any is_down (before_of before.now) }
{
    for line in before {
        if is_down(&line.what) {
            return true;
        }
    }
    false
}

fn wait_line(words: &mut Pieces) -> Result<ScriptLine, Refusal>
    ensures { IsSeen saying_of (wait_line words.old) result }
{
    let turns = number_word(words, 0, MAX_WAIT)?;
    no_more(words)?;
    Ok(ScriptLine::Wait(turns))
}

fn ended(line: ScriptLine, words: &mut Pieces) -> Result<ScriptLine, Refusal>
    ensures { IsSeen saying_of (end (saying_of line) words.old) result }
{
    no_more(words)?;
    Ok(line)
}

fn when_line(
    alloc: Global,
    iface: &Interface,
    p: &Proc,
    words: &mut Pieces,
) -> Result<ScriptLine, Refusal>
    requires { Contains (procs_of iface.now.procs.items) (proc_of p.now) }
    ensures { IsSeen saying_of (when_line (types_of iface.now.types.items) (proc_of p.now) words.old) result }
{
    let arg = arg_word(iface, p, Role::Comes, words)?;
    let value = json_word(alloc, iface, &arg.ty, words)?;
    let code = fault_word(words)?;
    no_more(words)?;
    let arg = String::from_str(alloc, arg.name.as_str())?;
    Ok(ScriptLine::When { arg, value, code })
}

fn fail_line(words: &mut Pieces) -> Result<ScriptLine, Refusal>
    ensures { IsSeen saying_of (word fault_word (λ code. end (fail code)) words.old) result }
{
    let code = fault_word(words)?;
    no_more(words)?;
    Ok(ScriptLine::Fail(code))
}

fn set_line(
    alloc: Global,
    iface: &Interface,
    p: &Proc,
    words: &mut Pieces,
) -> Result<ScriptLine, Refusal>
    requires { Contains (procs_of iface.now.procs.items) (proc_of p.now) }
    ensures { IsSeen saying_of (set_line (types_of iface.now.types.items) (proc_of p.now) words.old) result }
{
    let arg = arg_word(iface, p, Role::Returns, words)?;
    let value = json_word(alloc, iface, &arg.ty, words)?;
    no_more(words)?;
    let arg = String::from_str(alloc, arg.name.as_str())?;
    Ok(ScriptLine::Set { arg, value })
}

fn copy_line(
    alloc: Global,
    iface: &Interface,
    p: &Proc,
    words: &mut Pieces,
) -> Result<ScriptLine, Refusal>
    requires { Contains (procs_of iface.now.procs.items) (proc_of p.now) }
    ensures { IsSeen saying_of (copy_line (proc_of p.now) words.old) result }
{
    let arg = arg_word(iface, p, Role::Returns, words)?;
    let from = source_word(p, &arg.ty, words)?;
    no_more(words)?;
    let arg = String::from_str(alloc, arg.name.as_str())?;
    let from = String::from_str(alloc, from.name.as_str())?;
    Ok(ScriptLine::Copy { arg, from })
}

fn size_line(
    alloc: Global,
    iface: &Interface,
    p: &Proc,
    words: &mut Pieces,
) -> Result<ScriptLine, Refusal>
    requires { Contains (procs_of iface.now.procs.items) (proc_of p.now) }
    ensures { IsSeen saying_of (size_line (types_of iface.now.types.items) (proc_of p.now) words.old) result }
{
    let arg = arg_word(iface, p, Role::Counts, words)?;
    let from = arg_word(iface, p, Role::Counted, words)?;
    no_more(words)?;
    let arg = String::from_str(alloc, arg.name.as_str())?;
    let from = String::from_str(alloc, from.name.as_str())?;
    Ok(ScriptLine::Size { arg, from })
}

fn count_line(
    alloc: Global,
    iface: &Interface,
    p: &Proc,
    words: &mut Pieces,
) -> Result<ScriptLine, Refusal>
    requires { Contains (procs_of iface.now.procs.items) (proc_of p.now) }
    ensures { IsSeen saying_of (count_line (types_of iface.now.types.items) (proc_of p.now) words.old) result }
{
    let arg = arg_word(iface, p, Role::Counts, words)?;
    no_more(words)?;
    Ok(ScriptLine::Count(String::from_str(alloc, arg.name.as_str())?))
}

fn send_line(alloc: Global, words: &mut Pieces) -> Result<ScriptLine, Refusal>
    ensures { IsSeen saying_of (word bytes_word (λ bytes. end (send bytes)) words.old) result }
{
    let bytes = bytes_word(alloc, words)?;
    no_more(words)?;
    Ok(ScriptLine::Send(bytes.into_bytes(alloc)?))
}

/// A line of a block behind these, by its first word.
pub fn script_line(
    alloc: Global,
    iface: &Interface,
    p: &Proc,
    before: &[Marked],
    verb: Verb,
    words: &mut Pieces,
) -> Result<ScriptLine, Refusal>
    requires { Contains (procs_of iface.now.procs.items) (proc_of p.now) }
    ensures { IsSeen saying_of (script_line (types_of iface.now.types.items) (proc_of p.now) (before_of before.now)
        verb words.old) result }
{
    match verb {
        Verb::Wait => if has_wait(before) {
            Err(Refusal::Bad(LineWhy::Twice))
        } else {
            wait_line(words)
        },
        Verb::Up => if has_up(before) {
            Err(Refusal::Bad(LineWhy::Twice))
        } else {
            ended(ScriptLine::Up, words)
        },
        Verb::Down => if has_down(before) {
            Err(Refusal::Bad(LineWhy::Twice))
        } else {
            ended(ScriptLine::Down, words)
        },
        Verb::When => when_line(alloc, iface, p, words),
        Verb::Fail => fail_line(words),
        Verb::Set => set_line(alloc, iface, p, words),
        Verb::Copy => copy_line(alloc, iface, p, words),
        Verb::Size => size_line(alloc, iface, p, words),
        Verb::Count => count_line(alloc, iface, p, words),
        Verb::Echo => ended(ScriptLine::Echo, words),
        Verb::Send => send_line(alloc, words),
        Verb::On | Verb::Server | Verb::Client | Verb::Peer => Err(Refusal::Bad(LineWhy::Word)),
        Verb::Connect | Verb::Call | Verb::Write | Verb::Shut => Err(Refusal::Bad(LineWhy::Word)),
        Verb::Read | Verb::Ask | Verb::Cancel | Verb::Accept => Err(Refusal::Bad(LineWhy::Word)),
        Verb::Finish | Verb::Poll | Verb::Deliver | Verb::Jumbo => Err(Refusal::Bad(LineWhy::Word)),
        Verb::Forge | Verb::Clock | Verb::Invoke | Verb::Turn => Err(Refusal::Bad(LineWhy::Word)),
        Verb::Round | Verb::Rounds | Verb::Lossy => Err(Refusal::Bad(LineWhy::Word)),
    }
}
