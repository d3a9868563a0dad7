//! What is decided of a request while it is read.

ghost use Rattle.std.specs.Prelude.{◌≡◌, false, IfOk, Some, drop, map, option_map};
ghost use Rattle.std.specs.List.{slice_get};
ghost use Rattle.xdr_value.specs.View.{proc_of, procs_of};
ghost use Rattle.stub_table.specs.Requests.{IsRequestAnswer};
ghost use Rattle.rx_script.specs.Answers.{block_named, first_given};
ghost use Rattle.rx_script.specs.Saying.{block_of, saying_of};
ghost use Rattle.rx_script.specs.Served.{IsServed};
ghost use Rattle.rx_dispatch.specs.Desks.{AreArguments, IsRemembered};
ghost use Rattle.rx_jobs.specs.Handlers.{answer_to, behind_code, block_wait};
ghost use Rattle.rx_jobs.specs.Handlers.{early_code, proc_wait, served_for, takes_upload, turns_of};
ghost use Rattle.rx_dispatch.specs.Desks.{handlers_at};
ghost use Rattle.rx_jobs.specs.Handlers.{upload_code};

use crate::desk::Desk;
use rx_script::{Block, ScriptLine, Served};
use std::alloc::AllocError;
use stub_table::{OPCODE, Request, SS_UNMARSHAL, read_request};
use xdr_value::{Interface, Proc};

/// Bytes of an upload at most.
pub const MAX_UPLOAD_BYTES: u32 = 16_777_216;

/// Arguments that are whole: their procedure's index, and the place where they end.
#[derive(Clone, Copy, Debug, PartialEq, Eq)]
pub struct Found {
    pub index: usize,
    pub used: usize,
}

/// What the bytes of a request say of its arguments.
pub enum Arguments {
    Whole(Found),
    Short,
    Code(i32),
}

fn read(desk: &Desk<'_>, request: &[u8], ended: bool) -> Request
    ensures { IsRequestAnswer result (answer_to (handlers_at desk.now) request.now ended) }
{
    read_request(desk.alloc, desk.iface, request, ended)
}

/// What these bytes of a request say, behind which none come where it ended.
pub fn find_arguments(desk: &Desk<'_>, request: &[u8], ended: bool) -> Result<Arguments, AllocError>
    ensures { IfOk result (AreArguments (answer_to (handlers_at desk.now) request.now ended)) }
{
    match read(desk, request, ended) {
        Request::OutOfMemory => Err(AllocError),
        Request::Short => Ok(Arguments::Short),
        Request::Code(code) => Ok(Arguments::Code(code)),
        Request::Whole {
            index,
            args: _,
            used,
        } => Ok(Arguments::Whole(Found { index, used })),
    }
}

/// What these bytes say, behind which more may come, where the arguments may be remembered.
fn arguments_of(
    desk: &Desk<'_>,
    request: &[u8],
    found: Option<Found>,
) -> Result<Arguments, AllocError>
    requires { IsRemembered (handlers_at desk.now) request.now found }
    ensures { IfOk result (AreArguments (answer_to (handlers_at desk.now) request.now false)) }
{
    match found {
        None => find_arguments(desk, request, false),
        Some(found) => Ok(Arguments::Whole(found)),
    }
}

/// The code of a request that can't be read, or whose upload is too long, of which these bytes came so far. Remembers
/// arguments that are whole.
pub fn early_code(
    desk: &Desk<'_>,
    request: &[u8],
    found: &mut Option<Found>,
) -> Result<Option<i32>, AllocError>
    requires { IsRemembered (handlers_at desk.now) request.now found.old }
    ensures code { IfOk result (λ code. code ≡ early_code (handlers_at desk.now) request.now false) }
    ensures remembered { IsRemembered (handlers_at desk.now) request.now found.new }
{
    match arguments_of(desk, request, *found)? {
        Arguments::Short => Ok(None),
        Arguments::Code(code) => Ok(Some(code)),
        Arguments::Whole(whole) => {
            *found = Some(whole);
            Ok(whole_code(desk, request, false, whole))
        }
    }
}

/// The code of an upload behind whole arguments.
pub fn whole_code(desk: &Desk<'_>, request: &[u8], ended: bool, found: Found) -> Option<i32>
    ensures { result ≡ behind_code (handlers_at desk.now) ended (drop found.used request.now)
        (slice_get (handlers_at desk.now).procs found.index) }
{
    let Some(p) = proc_at(desk.iface, found.index) else {
        return Some(OPCODE);
    };
    if !takes_upload(desk, p) {
        return None;
    }
    upload_code(behind(request, found.used), ended)
}

/// Whether requests of a procedure end with an upload.
pub fn takes_upload(desk: &Desk<'_>, p: &Proc) -> bool
    ensures { result ≡ takes_upload (handlers_at desk.now) (proc_of p.now) }
{
    match desk.script.block(p.name.as_str()) {
        None => false,
        Some(block) => block.has_up(),
    }
}

/// The code of an upload that is too long, or cut short where it ended.
fn upload_code(rest: &[u8], ended: bool) -> Option<i32>
    ensures { result ≡ upload_code ended rest.now }
{
    if rest.len() < 4 {
        return if ended { Some(SS_UNMARSHAL) } else { None };
    }
    let count = u32::from_be_bytes([rest[0], rest[1], rest[2], rest[3]]);
    let is_short = ended && rest.len() - 4 < count as usize;
    if count > MAX_UPLOAD_BYTES || is_short {
        return Some(SS_UNMARSHAL);
    }
    None
}

/// The bytes behind those that were used.
fn behind(bytes: &[u8], used: usize) -> &[u8]
    ensures { result.now ≡ drop used bytes.now }
{
    if used > bytes.len() {
        return &[];
    }
    let (_, rest) = bytes.split_at(used);
    rest
}

/// The procedure with an index.
fn proc_at(iface: &Interface, index: usize) -> Option<&Proc>
    ensures { option_map (λ p. proc_of p.now) result ≡ slice_get (procs_of iface.now.procs.items) index }
{
    if index < iface.procs.len() {
        Some(&iface.procs[index])
    } else {
        None
    }
}

/// In which step after its end a request of the procedure with an index is answered.
pub fn wait_at(desk: &Desk<'_>, index: usize) -> u32
    ensures { result ≡ proc_wait (handlers_at desk.now) (slice_get (handlers_at desk.now).procs index) }
{
    match proc_at(desk.iface, index) {
        None => 0,
        Some(p) => proc_wait(desk, p),
    }
}

/// The same of a procedure.
fn proc_wait(desk: &Desk<'_>, p: &Proc) -> u32
    ensures { result ≡ block_wait (block_named (proc_of p.now).name (handlers_at desk.now).script) }
{
    match desk.script.block(p.name.as_str()) {
        None => 0,
        Some(block) => waited(block),
    }
}

/// The number of a block's `wait`, or 0.
fn waited(block: &Block) -> u32
    ensures { result ≡ block_wait (Some (block_of block.now)) }
{
    match first_wait(&block.lines) {
        None => 0,
        Some(turns) => turns,
    }
}

fn first_wait(lines: &[ScriptLine]) -> Option<u32>
    ensures { result ≡ first_given turns_of (map saying_of lines.now) }
{
    for line in lines {
        let turns = turns(line);
        if turns.is_some() {
            return turns;
        }
    }
    None
}

fn turns(line: &ScriptLine) -> Option<u32>
    ensures { result ≡ turns_of (saying_of line.now) }
{
    match line {
        ScriptLine::Wait(turns) => Some(*turns),
        ScriptLine::Up | ScriptLine::Down | ScriptLine::When { .. } => None,
        ScriptLine::Fail(_) | ScriptLine::Set { .. } | ScriptLine::Copy { .. } => None,
        ScriptLine::Size { .. } | ScriptLine::Count(_) => None,
        ScriptLine::Echo | ScriptLine::Send(_) => None,
    }
}

/// What is served for a request.
pub fn serve(desk: &Desk<'_>, request: &[u8]) -> Result<Served, AllocError>
    ensures { IfOk result (IsServed (served_for (handlers_at desk.now) request.now)) }
{
    desk.script.serve(desk.alloc, desk.iface, request)
}
