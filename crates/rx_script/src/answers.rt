//! What a script answers.

ghost use Rattle.std.specs.Prelude.{◌≡◌, IfOk, IsTrue, map, option_map};
ghost use Rattle.std.specs.List.{Contains};
ghost use Rattle.xdr_value.specs.Zero.{zero_of};
ghost use Rattle.rx_script.specs.Same.{same_value};
ghost use Rattle.xdr_value.specs.Tests.{is_known, params_known};
ghost use Rattle.xdr_value.specs.View.{kind_of, types_of, procs_of, proc_of, param_of, value_of, values_of};
ghost use Rattle.rx_script.specs.Answered.{IsAnswered, maybe_saying, maybe_value};
ghost use Rattle.rx_script.specs.Answers.{answer_of, block_named, byte_count, came, code_of, download, fail_code};
ghost use Rattle.rx_script.specs.Answers.{first_given, given_value, gives, held_code, last_of, lines_answer};
ghost use Rattle.rx_script.specs.Answers.{reply_value, sends, start_value, values_by};
ghost use Rattle.rx_script.specs.Saying.{blocks_of, block_of, saying_of};

use crate::procs::{comes, returns};
use crate::same::same_value;
use crate::script::{Block, Script, ScriptLine};
use std::alloc::{AllocError, Global};
use xdr_value::{Arg, Interface, Proc, Value, zero};

/// What is answered for a call: a code that isn't 0, or the INOUT and OUT values in order with the
/// bytes of the download.
#[derive(Debug, Drop)]
pub enum Answer<'a> {
    Code(i32),
    Reply {
        values: Vec<Value>,
        download: &'a [u8],
    },
}

/// What came for a call: the values of the procedure's arguments that are IN or INOUT, in order, and the upload.
#[derive(Clone, Copy)]
struct Request<'a> {
    args: &'a [Arg],
    values: &'a [Value],
    upload: &'a [u8],
}

// ---- the arguments as they came

/// The value that came for the argument of the name.
fn came<'a>(args: &[Arg], values: &'a [Value], name: &str) -> Option<&'a Value>
    ensures { maybe_value result ≡ came (map param_of args.now) (values_of values.now) name.now }
{
    let mut left = values;
    for arg in args {
        if comes(arg.mode) {
            if arg.name.as_str() == name {
                return left.first();
            }
            if let [_, others @ ..] = left {
                left = others;
            }
        }
    }
    None
}

/// The same, where an argument that isn't there is void.
fn came_copy(alloc: Global, args: &[Arg], values: &[Value], name: &str) -> Result<Value, AllocError>
    ensures { IfOk result (λ v. value_of v ≡ came (map param_of args.now) (values_of values.now) name.now) }
{
    match came(args, values, name) {
        None => Ok(Value::Void),
        Some(value) => Ok(value.copied(alloc)?),
    }
}

// ---- the code

/// The code of a `when` whose argument has the value.
fn held_code(args: &[Arg], values: &[Value], line: &ScriptLine) -> Option<i32>
    ensures { result ≡ held_code (map param_of args.now) (values_of values.now) (saying_of line.now) }
{
    match line {
        ScriptLine::When { arg, value, code } => {
            if is_came(args, values, arg.as_str(), value) {
                Some(*code)
            } else {
                None
            }
        }
        ScriptLine::Wait(_) | ScriptLine::Up | ScriptLine::Down | ScriptLine::Fail(_) => None,
        ScriptLine::Set { .. } | ScriptLine::Copy { .. } | ScriptLine::Size { .. } => None,
        ScriptLine::Count(_) | ScriptLine::Echo | ScriptLine::Send(_) => None,
    }
}

/// Whether this value came for the argument of the name.
fn is_came(args: &[Arg], values: &[Value], name: &str, value: &Value) -> bool
    ensures { result ≡ same_value (came (map param_of args.now) (values_of values.now) name.now) (value_of value.now) }
{
    match came(args, values, name) {
        None => same_value(&Value::Void, value),
        Some(other) => same_value(other, value),
    }
}

fn fail_code(line: &ScriptLine) -> Option<i32>
    ensures { result ≡ fail_code (saying_of line.now) }
{
    match line {
        ScriptLine::Fail(code) => Some(*code),
        ScriptLine::Wait(_) | ScriptLine::Up | ScriptLine::Down | ScriptLine::When { .. } => None,
        ScriptLine::Set { .. } | ScriptLine::Copy { .. } | ScriptLine::Size { .. } => None,
        ScriptLine::Count(_) | ScriptLine::Echo | ScriptLine::Send(_) => None,
    }
}

fn first_held(args: &[Arg], values: &[Value], lines: &[ScriptLine]) -> Option<i32>
    ensures { result ≡ first_given (held_code (map param_of args.now) (values_of values.now))
        (map saying_of lines.now) }
{
    for line in lines {
        let code = held_code(args, values, line);
        if code.is_some() {
            return code;
        }
    }
    None
}

fn first_fail(lines: &[ScriptLine]) -> Option<i32>
    ensures { result ≡ first_given fail_code (map saying_of lines.now) }
{
    for line in lines {
        let code = fail_code(line);
        if code.is_some() {
            return code;
        }
    }
    None
}

/// The code of the first `when` that holds, or else of the first `fail`.
fn code_of(args: &[Arg], values: &[Value], lines: &[ScriptLine]) -> Option<i32>
    ensures { result ≡ code_of (map param_of args.now) (values_of values.now) (map saying_of lines.now) }
{
    first_held(args, values, lines).or(first_fail(lines))
}

// ---- the values

/// How many bytes came for the argument of the name.
fn byte_count(args: &[Arg], values: &[Value], name: &str) -> usize
    ensures { result ≡ byte_count (came (map param_of args.now) (values_of values.now) name.now) }
{
    match came(args, values, name) {
        None => 0,
        Some(value) => match value {
            Value::Octets(bytes) => bytes.len(),
            Value::Number(_) | Value::Flag(_) | Value::List(_) => 0,
            Value::Union(_, _) | Value::Maybe(_) | Value::Void => 0,
        },
    }
}

/// Whether a line gives the argument of the name a value.
fn gives(line: &ScriptLine, name: &str) -> bool
    ensures { result ≡ gives name.now (saying_of line.now) }
{
    match line {
        ScriptLine::Set { arg, .. } => arg.as_str() == name,
        ScriptLine::Copy { arg, .. } => arg.as_str() == name,
        ScriptLine::Size { arg, .. } => arg.as_str() == name,
        ScriptLine::Count(arg) => arg.as_str() == name,
        ScriptLine::Wait(_) | ScriptLine::Up | ScriptLine::Down | ScriptLine::When { .. } => false,
        ScriptLine::Fail(_) | ScriptLine::Echo | ScriptLine::Send(_) => false,
    }
}

/// The last line that gives the argument of the name a value.
fn last_giving<'a>(lines: &'a [ScriptLine], name: &str) -> Option<&'a ScriptLine>
    ensures { maybe_saying result ≡ last_of (gives name.now) (map saying_of lines.now) }
{
    let mut last = None;
    for line in lines {
        if gives(line, name) {
            last = Some(line);
        }
    }
    last
}

/// What a line gives an argument.
fn given_value(alloc: Global, request: &Request<'_>, line: &ScriptLine) -> Result<Value, AllocError>
    ensures { IfOk result (λ v. value_of v ≡ given_value (map param_of request.now.args.now)
        (values_of request.now.values.now) request.now.upload.now (saying_of line.now)) }
{
    match line {
        ScriptLine::Set { value, .. } => Ok(value.copied(alloc)?),
        ScriptLine::Copy { from, .. } => Ok(came_copy(
            alloc,
            request.args,
            request.values,
            from.as_str(),
        )?),
        ScriptLine::Size { from, .. } => {
            let size = byte_count(request.args, request.values, from.as_str());
            Ok(Value::Number(size as i128))
        }
        ScriptLine::Count(_) => Ok(Value::Number(request.upload.len() as i128)),
        ScriptLine::Wait(_) | ScriptLine::Up | ScriptLine::Down | ScriptLine::When { .. } => {
            Ok(Value::Void)
        }
        ScriptLine::Fail(_) | ScriptLine::Echo | ScriptLine::Send(_) => Ok(Value::Void),
    }
}

/// What an argument has before the lines: an INOUT one its value, an OUT one zero.
fn start_value(
    alloc: Global,
    iface: &Interface,
    request: &Request<'_>,
    arg: &Arg,
) -> Result<Value, AllocError>
    requires { IsTrue (is_known (types_of iface.now.types.items) (kind_of arg.now.ty)) }
    ensures { IfOk result (λ v. value_of v ≡ start_value (types_of iface.now.types.items)
        (map param_of request.now.args.now) (values_of request.now.values.now) (param_of arg.now)) }
{
    if comes(arg.mode) {
        Ok(came_copy(alloc, request.args, request.values, arg.name.as_str())?)
    } else {
        Ok(zero(alloc, iface, &arg.ty)?)
    }
}

/// The value with which an argument goes back.
fn reply_value(
    alloc: Global,
    iface: &Interface,
    request: &Request<'_>,
    lines: &[ScriptLine],
    arg: &Arg,
) -> Result<Value, AllocError>
    requires { IsTrue (is_known (types_of iface.now.types.items) (kind_of arg.now.ty)) }
    ensures { IfOk result (λ v. value_of v ≡ reply_value (types_of iface.now.types.items)
        (map param_of request.now.args.now) (values_of request.now.values.now) request.now.upload.now
        (map saying_of lines.now) (param_of arg.now)) }
{
    match last_giving(lines, arg.name.as_str()) {
        None => Ok(start_value(alloc, iface, request, arg)?),
        Some(line) => Ok(given_value(alloc, request, line)?),
    }
}

/// The INOUT and OUT values that go back.
fn reply_values(
    alloc: Global,
    iface: &Interface,
    request: &Request<'_>,
    lines: &[ScriptLine],
) -> Result<Vec<Value>, AllocError>
    requires { IsTrue (params_known (types_of iface.now.types.items) (map param_of request.now.args.now)) }
    ensures { IfOk result (λ v. values_of v.items ≡ values_by (reply_value (types_of iface.now.types.items)
        (map param_of request.now.args.now) (values_of request.now.values.now) request.now.upload.now
        (map saying_of lines.now)) (map param_of request.now.args.now)) }
{
    let mut all = Vec::new(alloc);
    for arg in request.args {
        if returns(arg.mode) {
            all.push(reply_value(alloc, iface, request, lines, arg)?)?;
        }
    }
    Ok(all)
}

/// The zero of each INOUT and OUT argument.
fn zero_values(alloc: Global, iface: &Interface, args: &[Arg]) -> Result<Vec<Value>, AllocError>
    requires { IsTrue (params_known (types_of iface.now.types.items) (map param_of args.now)) }
    ensures { IfOk result (λ v. values_of v.items ≡ values_by (λ p. zero_of (types_of iface.now.types.items) p.kind)
        (map param_of args.now)) }
{
    let mut all = Vec::new(alloc);
    for arg in args {
        if returns(arg.mode) {
            all.push(zero(alloc, iface, &arg.ty)?)?;
        }
    }
    Ok(all)
}

// ---- the download

fn sends(line: &ScriptLine) -> bool
    ensures { result ≡ sends (saying_of line.now) }
{
    match line {
        ScriptLine::Echo | ScriptLine::Send(_) => true,
        ScriptLine::Wait(_) | ScriptLine::Up | ScriptLine::Down | ScriptLine::When { .. } => false,
        ScriptLine::Fail(_) | ScriptLine::Set { .. } | ScriptLine::Copy { .. } => false,
        ScriptLine::Size { .. } | ScriptLine::Count(_) => false,
    }
}

fn last_sending(lines: &[ScriptLine]) -> Option<&ScriptLine>
    ensures { maybe_saying result ≡ last_of sends (map saying_of lines.now) }
{
    let mut last = None;
    for line in lines {
        if sends(line) {
            last = Some(line);
        }
    }
    last
}

/// What the last line that sends anything sends down.
fn download<'a>(upload: &'a [u8], lines: &'a [ScriptLine]) -> &'a [u8]
    ensures { result.now ≡ download upload.now (map saying_of lines.now) }
{
    match last_sending(lines) {
        None => &[],
        Some(line) => match line {
            ScriptLine::Echo => upload,
            ScriptLine::Send(bytes) => bytes.as_slice(),
            ScriptLine::Wait(_) | ScriptLine::Up | ScriptLine::Down => &[],
            ScriptLine::When { .. } | ScriptLine::Fail(_) | ScriptLine::Set { .. } => &[],
            ScriptLine::Copy { .. } | ScriptLine::Size { .. } | ScriptLine::Count(_) => &[],
        },
    }
}

// ---- the answer

impl Script {
    /// The block of the procedure of the name.
    pub fn block(&self, name: &str) -> Option<&Block>
        ensures { option_map (λ b. block_of b.now) result ≡ block_named name.now (blocks_of self.now.blocks.items) }
    {
        for block in &self.blocks {
            if block.proc.as_str() == name {
                return Some(block);
            }
        }
        None
    }
}

fn lines_answer<'a>(
    alloc: Global,
    iface: &Interface,
    args: &[Arg],
    values: &[Value],
    upload: &'a [u8],
    lines: &'a [ScriptLine],
) -> Result<Answer<'a>, AllocError>
    requires { IsTrue (params_known (types_of iface.now.types.items) (map param_of args.now)) }
    ensures { IfOk result (IsAnswered (lines_answer (types_of iface.now.types.items) (map param_of args.now)
        (values_of values.now) upload.now (map saying_of lines.now))) }
{
    if let Some(code) = code_of(args, values, lines) {
        return Ok(Answer::Code(code));
    }
    let request = Request {
        args,
        values,
        upload,
    };
    let all = reply_values(alloc, iface, &request, lines)?;
    Ok(Answer::Reply {
        values: all,
        download: download(upload, lines),
    })
}

impl Script {
    /// What is answered for a procedure of the interface, to which these IN and INOUT values came in
    /// order, and this upload: the code of the first `when` that holds, else that of the first
    /// `fail`, else the INOUT and OUT values and the download. `when`, `copy` and `size` look at the
    /// values as they came. A procedure without a block answers zeros and no download.
    pub fn answer<'a>(
        &'a self,
        alloc: Global,
        iface: &Interface,
        p: &Proc,
        args: &[Value],
        upload: &'a [u8],
    ) -> Result<Answer<'a>, AllocError>
        requires { Contains (procs_of iface.now.procs.items) (proc_of p.now) }
        ensures exact { IfOk result (IsAnswered (answer_of (types_of iface.now.types.items)
            (blocks_of self.now.blocks.items) (proc_of p.now) (values_of args.now) upload.now)) }
    {
        match self.block(p.name.as_str()) {
            Some(block) => Ok(lines_answer(alloc, iface, &p.args, args, upload, &block.lines)?),
            None => Ok(Answer::Reply {
                values: zero_values(alloc, iface, &p.args)?,
                download: &[],
            }),
        }
    }
}
