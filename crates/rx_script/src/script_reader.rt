//! The reader of scripts.

ghost use Rattle.std.specs.Prelude.{◌≡◌, ◌≤◌, ◌++◌, ◌∷◌, IfOk, IfErr, IfSome, OnOk, map, option_map, slice_get, true};
ghost use Rattle.std.specs.Prelude.{false, []};
ghost use Rattle.std.specs.List.{Contains};
ghost use Rattle.xdr_value.specs.View.{types_of, procs_of, proc_of};
ghost use Rattle.rx_script.specs.Drafts.{draft_of, marked_of, opened_of};
ghost use Rattle.rx_script.specs.Reading.{IsAt, IsFaultOf, IsSeen};
ghost use Rattle.rx_script.specs.Saying.{blocks_of, saying_of};
ghost use Rattle.rx_script.specs.Scripts.{by_verb, by_words, closed, closed_from, first_marked, has_block, in_block};
ghost use Rattle.rx_script.specs.Scripts.{lacking, lacks, new_block, no_lines, on_line, placed_from, sayings};
ghost use Rattle.rx_script.specs.Scripts.{script_of, script_step};
ghost use Rattle.rx_script.specs.Texts.{with_line};

use crate::fault::{LineFault, LineWhy, Refusal};
use crate::limits::MAX_LINES;
use crate::marks::SPACE;
use crate::pieces::{Lines, Pieces};
use crate::script::{Block, Script, ScriptLine};
use crate::script_rows::{Marked, has_down, has_up, script_line};
use crate::skipped::is_skipped;
use crate::verb::{Verb, verb_in};
use crate::words::{filled, no_more};
use std::alloc::{AllocError, Global};
use xdr_value::{Interface, Proc};

/// A block while it is read: the place of its procedure in the interface, its name, whether it is
/// split, and the lines so far.
#[derive(Debug, Drop)]
pub struct Opened {
    pub place: usize,
    pub proc: String,
    pub split: bool,
    pub lines: Vec<Marked>,
}

/// The blocks that ended, and the one that didn't.
#[derive(Debug, Drop)]
pub struct Draft {
    pub done: Vec<Block>,
    pub block: Option<Opened>,
}

fn bad(line: u32, why: LineWhy) -> LineFault
    ensures { result ≡ LineFault.BadLine line why }
{
    LineFault::BadLine { line, why }
}

fn at(line: u32, refusal: Refusal) -> LineFault
    ensures { IsAt line refusal result }
{
    match refusal {
        Refusal::Bad(why) => LineFault::BadLine { line, why },
        Refusal::OutOfMemory => LineFault::OutOfMemory,
    }
}

// ---- a block's end

/// Whether a stream line lacks a split procedure, or `up` or `down` in its block.
fn lacks(line: &ScriptLine, split: bool, up: bool, down: bool) -> bool
    ensures { result ≡ lacks split up down (saying_of line.now) }
{
    match line {
        ScriptLine::Up | ScriptLine::Down => !split,
        ScriptLine::Count(_) => !(split && up),
        ScriptLine::Echo => !(split && up && down),
        ScriptLine::Send(_) => !(split && down),
        ScriptLine::Wait(_) | ScriptLine::When { .. } | ScriptLine::Fail(_) => false,
        ScriptLine::Set { .. } | ScriptLine::Copy { .. } | ScriptLine::Size { .. } => false,
    }
}

fn first_lacking(lines: &[Marked], split: bool, up: bool, down: bool) -> Option<u32>
    ensures { result ≡ first_marked (lacks split up down) (map marked_of lines.now) }
{
    for marked in lines {
        if lacks(&marked.what, split, up, down) {
            return Some(marked.line);
        }
    }
    None
}

/// The number of the block's first line that lacks what it needs.
fn lacking(block: &Opened) -> Option<u32>
    ensures { result ≡ lacking (opened_of block.now) }
{
    let up = has_up(&block.lines);
    let down = has_down(&block.lines);
    first_lacking(&block.lines, block.split, up, down)
}

fn unmarked(alloc: Global, lines: Vec<Marked>) -> Result<Vec<ScriptLine>, AllocError>
    ensures { IfOk result (λ v. map saying_of v.items ≡ sayings (map marked_of lines.items)) }
{
    let mut plain = Vec::with_capacity(alloc, lines.len())?;
    for marked in lines {
        let Marked { line: _, what } = marked;
        plain.push(what)?;
    }
    Ok(plain)
}

/// The blocks, where the last one ends here.
fn closed(alloc: Global, draft: Draft) -> Result<Vec<Block>, LineFault>
    ensures ok { IfOk result (λ done. closed (draft_of draft) ≡ Ok (blocks_of done.items)) }
    ensures err { IfErr result (IsFaultOf (closed (draft_of draft))) }
{
    let Draft { mut done, block } = draft;
    let Some(block) = block else {
        return Ok(done);
    };
    if let Some(line) = lacking(&block) {
        return Err(bad(line, LineWhy::Kind));
    }
    let Opened { proc, lines, .. } = block;
    let lines = unmarked(alloc, lines)?;
    done.push(Block { proc, lines })?;
    Ok(done)
}

// ---- a block's beginning

/// The first procedure of the name, with its place.
fn placed<'a>(procs: &'a [Proc], name: &str) -> Option<(usize, &'a Proc)>
    ensures { option_map (λ x. (x.0, proc_of x.1.now)) result ≡ placed_from 0 name.now (procs_of procs.now) }
{
    for (i, p) in procs.iter().enumerate() {
        if p.name.as_str() == name {
            return Some((i, p));
        }
    }
    None
}

/// Whether one of the blocks is that of the procedure.
fn has_block(done: &[Block], name: &str) -> bool
    ensures { result ≡ has_block (blocks_of done.now) name.now }
{
    for block in done {
        if block.proc.as_str() == name {
            return true;
        }
    }
    false
}

/// A block that begins, behind these.
fn on_line(
    alloc: Global,
    iface: &Interface,
    done: &[Block],
    words: &mut Pieces,
) -> Result<Opened, Refusal>
    ensures { IsSeen opened_of (on_line (procs_of iface.now.procs.items) (blocks_of done.now) words.old) result }
{
    let word = filled(words)?;
    let (place, p) = placed(&iface.procs, word).ok_or(LineWhy::Proc)?;
    if has_block(done, p.name.as_str()) {
        return Err(Refusal::Bad(LineWhy::Twice));
    }
    no_more(words)?;
    let proc = String::from_str(alloc, p.name.as_str())?;
    Ok(Opened {
        place,
        proc,
        split: p.split,
        lines: Vec::new(alloc),
    })
}

/// The draft with a block that begins at this line.
fn begun(
    alloc: Global,
    iface: &Interface,
    number: u32,
    words: &mut Pieces,
    draft: Draft,
) -> Result<Draft, LineFault>
    ensures ok { IfOk result (λ next. by_verb (types_of iface.now.types.items) (procs_of iface.now.procs.items)
        number (draft_of draft) Verb.On words.old ≡ Ok (draft_of next)) }
    ensures err { IfErr result (IsFaultOf (by_verb (types_of iface.now.types.items) (procs_of iface.now.procs.items)
        number (draft_of draft) Verb.On words.old)) }
{
    let done = closed(alloc, draft)?;
    match on_line(alloc, iface, &done, words) {
        Ok(block) => Ok(Draft {
            done,
            block: Some(block),
        }),
        Err(refusal) => Err(at(number, refusal)),
    }
}

// ---- one more line

/// The procedure at the place.
pub fn proc_at(iface: &Interface, place: usize) -> Option<&Proc>
    ensures found { option_map (λ p. proc_of p.now) result ≡ slice_get (procs_of iface.now.procs.items) place }
    ensures one { IfSome result (λ p. Contains (procs_of iface.now.procs.items) (proc_of p.now)) }
{
    if place < iface.procs.len() {
        Some(&iface.procs[place])
    } else {
        None
    }
}

/// The block with one more line.
fn with_line_of(block: Opened, line: u32, what: ScriptLine) -> Result<Opened, AllocError>
    ensures { IfOk result (λ next. opened_of next ≡ record (opened_of block) {
      lines = map marked_of block.lines.items ++ (line, saying_of what) ∷ [];
    }) }
{
    let Opened {
        place,
        proc,
        split,
        mut lines,
    } = block;
    lines.push(Marked { line, what })?;
    Ok(Opened {
        place,
        proc,
        split,
        lines,
    })
}

/// The draft with one more line of its block.
fn in_block(
    alloc: Global,
    iface: &Interface,
    number: u32,
    verb: Verb,
    words: &mut Pieces,
    draft: Draft,
) -> Result<Draft, LineFault>
    ensures ok { IfOk result (λ next. in_block (types_of iface.now.types.items) (procs_of iface.now.procs.items)
        number (draft_of draft).done (draft_of draft).block verb words.old ≡ Ok (draft_of next)) }
    ensures err { IfErr result (IsFaultOf (in_block (types_of iface.now.types.items)
        (procs_of iface.now.procs.items) number (draft_of draft).done (draft_of draft).block verb words.old)) }
{
    let Draft { done, block } = draft;
    let Some(block) = block else {
        return Err(bad(number, LineWhy::Word));
    };
    let Some(p) = proc_at(iface, block.place) else {
        return Err(bad(number, LineWhy::Word));
    };
    match script_line(alloc, iface, p, &block.lines, verb, words) {
        Err(refusal) => Err(at(number, refusal)),
        Ok(what) => {
            let block = with_line_of(block, number, what)?;
            Ok(Draft {
                done,
                block: Some(block),
            })
        }
    }
}

/// The draft with one more line, by its words.
fn by_words(
    alloc: Global,
    iface: &Interface,
    number: u32,
    words: &mut Pieces,
    draft: Draft,
) -> Result<Draft, LineFault>
    ensures ok { IfOk result (λ next. by_words (types_of iface.now.types.items) (procs_of iface.now.procs.items)
        number (draft_of draft) words.old ≡ Ok (draft_of next)) }
    ensures err { IfErr result (IsFaultOf (by_words (types_of iface.now.types.items)
        (procs_of iface.now.procs.items) number (draft_of draft) words.old)) }
{
    let Some(first) = words.next() else {
        return Err(bad(number, LineWhy::Word));
    };
    let Some(verb) = verb_in(first) else {
        return Err(bad(number, LineWhy::Word));
    };
    match verb {
        Verb::On => begun(alloc, iface, number, words, draft),
        other => in_block(alloc, iface, number, other, words, draft),
    }
}

/// The draft with one more line of the text, which has this number.
fn with_line(
    alloc: Global,
    iface: &Interface,
    number: u32,
    line: &str,
    draft: Draft,
) -> Result<Draft, LineFault>
    ensures ok { IfOk result (λ next. with_line
        (script_step (types_of iface.now.types.items) (procs_of iface.now.procs.items)) number line.now
        (draft_of draft) ≡ Ok (draft_of next)) }
    ensures within { OnOk result (number ≤ MAX_LINES) }
    ensures err { IfErr result (IsFaultOf (with_line
        (script_step (types_of iface.now.types.items) (procs_of iface.now.procs.items)) number line.now
        (draft_of draft))) }
{
    if number > MAX_LINES {
        return Err(bad(number, LineWhy::TooMany));
    }
    if is_skipped(line) {
        return Ok(draft);
    }
    by_words(alloc, iface, number, &mut Pieces::of(line, SPACE), draft)
}

/// Reads a script over the procedures of the interface. It answers the first line that isn't taken,
/// and why; a block's stream lines are looked at where it ends.
pub fn read_script(alloc: Global, iface: &Interface, text: &str) -> Result<Script, LineFault>
    ensures ok { IfOk result (λ script. script_of (types_of iface.now.types.items)
        (procs_of iface.now.procs.items) text.now ≡ Ok (blocks_of script.blocks.items)) }
    ensures err { IfErr result (IsFaultOf
        (script_of (types_of iface.now.types.items) (procs_of iface.now.procs.items) text.now)) }
{
    let mut draft = Draft {
        done: Vec::new(alloc),
        block: None,
    };
    let mut lines = Lines::of(text);
    let mut number = 0;
    while let Some(line) = lines.next() {
        number += 1;
        draft = with_line(alloc, iface, number, line, draft)?;
    }
    let blocks = closed(alloc, draft)?;
    Ok(Script { blocks })
}
