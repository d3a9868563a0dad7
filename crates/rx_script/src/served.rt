//! What is served for a whole request.

ghost use Rattle.std.specs.Prelude.{◌≡◌, ◌++◌, ◌≤◌, IfOk, drop, length, option_map, slice_get};
ghost use Rattle.std.specs.List.{Contains, list_any};
ghost use Rattle.xdr_value.specs.View.{types_of, procs_of, proc_of, values_of};
ghost use Rattle.stub_table.specs.Streams.{stream_spelling};
ghost use Rattle.stub_table.specs.declared.stream.Stream.TheVariants as streams;
ghost use Rattle.rx_script.specs.Answered.{IsAnswered};
ghost use Rattle.rx_script.specs.Answers.{answer_of, block_named, reply};
ghost use Rattle.rx_script.specs.Saying.{block_of, blocks_of};
ghost use Rattle.rx_script.specs.ScriptRows.{is_down, is_up};
ghost use Rattle.rx_script.specs.Served.{IsServed, as_counted, block_has, counted, counted_at, download_answer};
ghost use Rattle.rx_script.specs.Served.{served_answer, served_by, served_of, served_with, upload_of};

use crate::answers::Answer;
use crate::limits::MAX_BYTES;
use crate::script::{Block, Script};
use crate::script_reader::proc_at;
use crate::script_rows::{is_down, is_up};
use std::alloc::{AllocError, Global};
use stub_table::{OPCODE, Request, SS_MARSHAL, SS_UNMARSHAL, StubFault, read_request, reply};
use xdr_value::{Interface, Proc, Value};

/// What is served: a code that isn't 0, or the bytes of the reply.
#[derive(Debug, Drop)]
pub enum Served {
    Code(i32),
    Reply(Vec<u8>),
}

// ---- counted streams

/// The bytes behind those that were used.
fn behind(bytes: &[u8], used: usize) -> &[u8]
    ensures { result.now ≡ drop used bytes.now }
{
    if used > bytes.len() {
        return &[];
    }
    let (_, rest) = bytes.split_at(used);
    rest
}

/// So many bytes, unless they are too many or not all there.
fn counted(count: u32, bytes: &[u8]) -> Option<&[u8]>
    ensures { option_map (λ b. b.now) result ≡ counted count bytes.now }
{
    if count > MAX_BYTES || count as usize > bytes.len() {
        return None;
    }
    let (sent, _) = bytes.split_at(count as usize);
    Some(sent)
}

/// The bytes of a counted stream.
fn counted_at(bytes: &[u8]) -> Option<&[u8]>
    ensures { option_map (λ b. b.now) result ≡ counted_at bytes.now }
{
    if bytes.len() < 4 {
        return None;
    }
    let count = u32::from_be_bytes([bytes[0], bytes[1], bytes[2], bytes[3]]);
    let (_, rest) = bytes.split_at(4);
    counted(count, rest)
}

// ---- blocks

impl Block {
    /// Whether the request ends with a counted stream.
    pub fn has_up(&self) -> bool
        ensures { result ≡ list_any is_up (block_of self.now).lines }
    {
        for line in &self.lines {
            if is_up(line) {
                return true;
            }
        }
        false
    }

    /// Whether the reply begins with a counted stream.
    pub fn has_down(&self) -> bool
        ensures { result ≡ list_any is_down (block_of self.now).lines }
    {
        for line in &self.lines {
            if is_down(line) {
                return true;
            }
        }
        false
    }
}

fn takes_upload(block: Option<&Block>) -> bool
    ensures { result ≡ block_has is_up (option_map (λ b. block_of b.now) block.entry) }
{
    match block {
        None => false,
        Some(block) => block.has_up(),
    }
}

fn gives_download(block: Option<&Block>) -> bool
    ensures { result ≡ block_has is_down (option_map (λ b. block_of b.now) block.entry) }
{
    match block {
        None => false,
        Some(block) => block.has_down(),
    }
}

// ---- the reply

/// The bytes of a reply, with its download where one goes back.
fn reply_bytes(
    alloc: Global,
    iface: &Interface,
    p: &Proc,
    down: bool,
    values: &[Value],
    download: &[u8],
) -> Result<Served, AllocError>
    requires { Contains (procs_of iface.now.procs.items) (proc_of p.now) }
    ensures { IfOk result (IsServed (served_answer (types_of iface.now.types.items) (proc_of p.now) down
        (reply (values_of values.now) download.now))) }
{
    match reply(alloc, iface, p, values) {
        Err(StubFault::OutOfMemory) => Err(AllocError),
        Err(StubFault::Code(_)) => Ok(Served::Code(SS_MARSHAL)),
        Ok(spelled) => Ok(with_download(alloc, down, download, spelled)?),
    }
}

/// What a reply is served with that is spelled so.
fn with_download(
    alloc: Global,
    down: bool,
    download: &[u8],
    spelled: Vec<u8>,
) -> Result<Served, AllocError>
    ensures { IfOk result (IsServed (download_answer down download.now spelled.items)) }
{
    if download.len() > MAX_BYTES as usize {
        return Ok(Served::Code(SS_MARSHAL));
    }
    if !down {
        return Ok(Served::Reply(spelled));
    }
    Ok(Served::Reply(joined(alloc, download, &spelled)?))
}

/// A download and what follows it.
fn joined(alloc: Global, download: &[u8], rest: &[u8]) -> Result<Vec<u8>, AllocError>
    requires { length download.now ≤ MAX_BYTES }
    ensures { IfOk result (λ out. out.items ≡ as_counted download.now ++ rest.now) }
{
    let mut out = Vec::new(alloc);
    out.extend_from_slice(&(download.len() as u32).to_be_bytes())?;
    out.extend_from_slice(download)?;
    out.extend_from_slice(rest)?;
    Ok(out)
}

// ---- the request

/// What is served for arguments with this upload.
fn served_with(
    alloc: Global,
    iface: &Interface,
    script: &Script,
    p: &Proc,
    args: &[Value],
    upload: &[u8],
) -> Result<Served, AllocError>
    requires { Contains (procs_of iface.now.procs.items) (proc_of p.now) }
    ensures { IfOk result (IsServed (served_with (types_of iface.now.types.items)
        (blocks_of script.now.blocks.items) (proc_of p.now) (values_of args.now) (Some upload.now))) }
{
    match script.answer(alloc, iface, p, args, upload)? {
        Answer::Code(code) => Ok(Served::Code(code)),
        Answer::Reply { values, download } => {
            let down = gives_download(script.block(p.name.as_str()));
            Ok(reply_bytes(alloc, iface, p, down, &values, download)?)
        }
    }
}

/// The upload of a request whose own bytes these stand behind.
fn upload_of<'a>(script: &Script, p: &Proc, rest: &'a [u8]) -> Option<&'a [u8]>
    ensures { option_map (λ b. b.now) result
        ≡ upload_of (blocks_of script.now.blocks.items) (proc_of p.now) rest.now }
{
    if takes_upload(script.block(p.name.as_str())) {
        counted_at(rest)
    } else {
        Some(&[])
    }
}

/// What is served for the arguments of the procedure at the place, behind which these bytes stand.
fn served_by(
    alloc: Global,
    iface: &Interface,
    script: &Script,
    place: usize,
    args: &[Value],
    rest: &[u8],
) -> Result<Served, AllocError>
    ensures { IfOk result (IsServed (served_by (types_of iface.now.types.items) (blocks_of script.now.blocks.items)
        (values_of args.now) rest.now (slice_get (procs_of iface.now.procs.items) place))) }
{
    let Some(p) = proc_at(iface, place) else {
        return Ok(Served::Code(OPCODE));
    };
    match upload_of(script, p, rest) {
        None => Ok(Served::Code(SS_UNMARSHAL)),
        Some(upload) => Ok(served_with(alloc, iface, script, p, args, upload)?),
    }
}

impl Script {
    /// What is served for a whole request: -454, -455 or -453 of one that can't be read, -453 of an
    /// upload that is cut short or too long; else the answer's code, or -452 where the reply can't be
    /// written; else the reply, with its download in front where the block says so.
    pub fn serve(
        &self,
        alloc: Global,
        iface: &Interface,
        request: &[u8],
    ) -> Result<Served, AllocError>
        ensures exact { IfOk result (IsServed (served_of (types_of iface.now.types.items)
            (procs_of iface.now.procs.items) (blocks_of self.now.blocks.items) request.now)) }
    {
        match read_request(alloc, iface, request, true) {
            Request::OutOfMemory => Err(AllocError),
            Request::Short => Ok(Served::Code(SS_UNMARSHAL)),
            Request::Code(code) => Ok(Served::Code(code)),
            Request::Whole { index, args, used } => {
                Ok(served_by(alloc, iface, self, index, &args, behind(request, used))?)
            }
        }
    }
}
