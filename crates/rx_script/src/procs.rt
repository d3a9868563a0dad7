//! Words that speak of an interface: procedures, arguments and values.

ghost use Rattle.std.specs.Prelude.{◌≡◌, IsTrue, IfOk, IfSome, drop, map, option_map};
ghost use Rattle.std.specs.List.{Contains};
ghost use Rattle.stub_table.specs.Streams.{goes_with};
ghost use Rattle.stub_table.specs.declared.stream.Stream.TheVariants as streams;
ghost use Rattle.xdr_value.specs.Heads.{head_of};
ghost use Rattle.xdr_value.specs.HeadView.{head_view};
ghost use Rattle.xdr_value.specs.Tests.{is_known};
ghost use Rattle.xdr_value.specs.View.{kind_of, types_of, procs_of, proc_of, param_of, value_of, values_of};
ghost use Rattle.rx_script.specs.Procs.{proc_named, proc_word, param_named, is_counter, is_content, is_source};
ghost use Rattle.rx_script.specs.Procs.{arg_word, json_word, or_json, is_request, args_word};
ghost use Rattle.xdr_json.specs.Args.{args_in};
ghost use Rattle.rx_script.specs.Reading.{IsSeen, IsSeenWhole};
ghost use Rattle.rx_script.specs.Roles.{role_of};
ghost use Rattle.rx_script.specs.Words.{first_as};

use crate::fault::{LineWhy, Refusal};
use crate::kinds::same_type;
use crate::pieces::Pieces;
use crate::words::filled;
use std::alloc::{AllocError, Global};
use stub_table::{StubFault, request};
use xdr_json::{JsonFault, args_from_json, from_json};
use xdr_value::{Arg, Basic, Head, Interface, Mode, Proc, Ty, Value, resolve};

// ---- procedures

/// The first procedure of the name.
pub fn proc_named<'a>(procs: &'a [Proc], name: &str) -> Option<&'a Proc>
    ensures found { option_map (λ p. proc_of p.now) result ≡ proc_named name.now (procs_of procs.now) }
    ensures one { IfSome result (λ p. Contains (procs_of procs.now) (proc_of p.now)) }
{
    for p in procs {
        if p.name.as_str() == name {
            return Some(p);
        }
    }
    None
}

/// The procedure that the next word names. Another text than a procedure's name is `Proc`.
pub fn proc_word<'a>(iface: &'a Interface, words: &mut Pieces) -> Result<&'a Proc, LineWhy>
    ensures read { IsSeenWhole (λ p. proc_of p.now)
        (first_as (proc_word (procs_of iface.now.procs.items)) words.old) result }
    ensures one { IfOk result (λ p. Contains (procs_of iface.now.procs.items) (proc_of p.now)) }
    ensures rest { words.new ≡ drop 1 words.old }
{
    let word = filled(words)?;
    match proc_named(&iface.procs, word) {
        Some(p) => Ok(p),
        None => Err(LineWhy::Proc),
    }
}

// ---- arguments

/// What an argument has to be where it stands.
#[derive(Clone, Copy, Debug, PartialEq, Eq)]
pub enum Role {
    /// It comes with the request.
    Comes,
    /// It goes back with the reply.
    Returns,
    /// It goes back and is an int or an unsigned int.
    Counts,
    /// It comes and is opaque data or a string.
    Counted,
}

/// Whether an argument's value comes with the request.
pub fn comes(mode: Mode) -> bool
    ensures { result ≡ goes_with streams.Request mode }
{
    match mode {
        Mode::In | Mode::InOut => true,
        Mode::Out => false,
    }
}

/// Whether an argument's value goes back with the reply.
pub fn returns(mode: Mode) -> bool
    ensures { result ≡ goes_with streams.Reply mode }
{
    match mode {
        Mode::Out | Mode::InOut => true,
        Mode::In => false,
    }
}

fn is_counter(iface: &Interface, ty: &Ty) -> bool
    ensures { result ≡ is_counter (head_of (types_of iface.now.types.items) (kind_of ty.now)) }
{
    match resolve(iface, ty) {
        Head::Basic(basic) => match basic {
            Basic::Int | Basic::Uint => true,
            Basic::Hyper | Basic::Uhyper | Basic::Short | Basic::Ushort => false,
            Basic::Char | Basic::Uchar | Basic::Bool | Basic::Void => false,
            Basic::Opaque(_) | Basic::OpaqueUpTo(_) | Basic::Text(_) => false,
        },
        Head::Enum(_) | Head::Struct(_) | Head::Union(_, _) | Head::Array(_, _) => false,
        Head::ArrayUpTo(_, _) | Head::Maybe(_) | Head::Unknown => false,
    }
}

fn is_content(iface: &Interface, ty: &Ty) -> bool
    ensures { result ≡ is_content (head_of (types_of iface.now.types.items) (kind_of ty.now)) }
{
    match resolve(iface, ty) {
        Head::Basic(basic) => match basic {
            Basic::Opaque(_) | Basic::OpaqueUpTo(_) | Basic::Text(_) => true,
            Basic::Int | Basic::Uint | Basic::Hyper | Basic::Uhyper => false,
            Basic::Short | Basic::Ushort | Basic::Char | Basic::Uchar => false,
            Basic::Bool | Basic::Void => false,
        },
        Head::Enum(_) | Head::Struct(_) | Head::Union(_, _) | Head::Array(_, _) => false,
        Head::ArrayUpTo(_, _) | Head::Maybe(_) | Head::Unknown => false,
    }
}

fn has_role(iface: &Interface, role: Role, arg: &Arg) -> bool
    ensures { result ≡ role_of (types_of iface.now.types.items) role (param_of arg.now) }
{
    match role {
        Role::Comes => comes(arg.mode),
        Role::Returns => returns(arg.mode),
        Role::Counts => returns(arg.mode) && is_counter(iface, &arg.ty),
        Role::Counted => comes(arg.mode) && is_content(iface, &arg.ty),
    }
}

/// The first argument of the name.
pub fn arg_named<'a>(args: &'a [Arg], name: &str) -> Option<&'a Arg>
    ensures { option_map (λ a. param_of a.now) result ≡ param_named name.now (map param_of args.now) }
{
    for arg in args {
        if arg.name.as_str() == name {
            return Some(arg);
        }
    }
    None
}

/// An argument of the procedure that has this role.
pub fn arg_word<'a>(
    iface: &Interface,
    p: &'a Proc,
    role: Role,
    words: &mut Pieces,
) -> Result<&'a Arg, LineWhy>
    requires { Contains (procs_of iface.now.procs.items) (proc_of p.now) }
    ensures read { IsSeenWhole (λ a. param_of a.now) (first_as
        (arg_word (role_of (types_of iface.now.types.items) role) (map param_of p.now.args.items)) words.old) result }
    ensures known { IfOk result (λ a. IsTrue (is_known (types_of iface.now.types.items) (kind_of a.now.ty))) }
    ensures rest { words.new ≡ drop 1 words.old }
{
    let word = filled(words)?;
    match arg_named(&p.args, word) {
        None => Err(LineWhy::Arg),
        Some(arg) => if has_role(iface, role, arg) {
            Ok(arg)
        } else {
            Err(LineWhy::Arg)
        },
    }
}

/// An argument that comes with the request and whose type is written as this one.
pub fn source_word<'a>(p: &'a Proc, ty: &Ty, words: &mut Pieces) -> Result<&'a Arg, LineWhy>
    ensures read { IsSeenWhole (λ a. param_of a.now) (first_as
        (arg_word (is_source (kind_of ty.now)) (map param_of p.now.args.items)) words.old) result }
    ensures rest { words.new ≡ drop 1 words.old }
{
    let word = filled(words)?;
    match arg_named(&p.args, word) {
        None => Err(LineWhy::Arg),
        Some(arg) => if is_source(ty, arg) {
            Ok(arg)
        } else {
            Err(LineWhy::Arg)
        },
    }
}

fn is_source(ty: &Ty, arg: &Arg) -> bool
    ensures { result ≡ is_source (kind_of ty.now) (param_of arg.now) }
{
    comes(arg.mode) && same_type(ty, &arg.ty)
}

// ---- values

/// JSON of a value of the type.
pub fn json_word(
    alloc: Global,
    iface: &Interface,
    ty: &Ty,
    words: &mut Pieces,
) -> Result<Value, Refusal>
    requires { IsTrue (is_known (types_of iface.now.types.items) (kind_of ty.now)) }
    ensures read { IsSeen value_of
        (first_as (json_word (types_of iface.now.types.items) (kind_of ty.now)) words.old) result }
    ensures rest { words.new ≡ drop 1 words.old }
{
    let word = filled(words)?;
    match from_json(alloc, iface, ty, word) {
        Ok(value) => Ok(value),
        Err(JsonFault::NotJson) => Err(Refusal::Bad(LineWhy::Json)),
        Err(JsonFault::Mismatch { .. }) => Err(Refusal::Bad(LineWhy::Json)),
        Err(JsonFault::OutOfMemory) => Err(Refusal::OutOfMemory),
    }
}

/// Whether the values are those of a request: they fit, none is too deep, and the bytes aren't too
/// many.
fn is_request(
    alloc: Global,
    iface: &Interface,
    p: &Proc,
    args: &[Value],
) -> Result<bool, AllocError>
    requires { Contains (procs_of iface.now.procs.items) (proc_of p.now) }
    ensures { IfOk result (λ b. b ≡ is_request (types_of iface.now.types.items) (proc_of p.now) (values_of args.now)) }
{
    match request(alloc, iface, p, args) {
        Ok(_) => Ok(true),
        Err(StubFault::Code(_)) => Ok(false),
        Err(StubFault::OutOfMemory) => Err(AllocError),
    }
}

/// The IN and INOUT values of a call that a word spells as JSON.
fn values_in(alloc: Global, iface: &Interface, p: &Proc, word: &str) -> Result<Vec<Value>, Refusal>
    requires { Contains (procs_of iface.now.procs.items) (proc_of p.now) }
    ensures { IsSeen (λ vs. values_of vs.items) (or_json (args_in (types_of iface.now.types.items)
        (map param_of p.now.args.items) word.now)) result }
{
    match args_from_json(alloc, iface, &p.args, word) {
        Ok(values) => Ok(values),
        Err(JsonFault::NotJson) => Err(Refusal::Bad(LineWhy::Json)),
        Err(JsonFault::Mismatch { .. }) => Err(Refusal::Bad(LineWhy::Json)),
        Err(JsonFault::OutOfMemory) => Err(Refusal::OutOfMemory),
    }
}

/// The IN and INOUT values of a call that a word spells as JSON, if they are a request's.
pub fn args_in(
    alloc: Global,
    iface: &Interface,
    p: &Proc,
    word: &str,
) -> Result<Vec<Value>, Refusal>
    requires { Contains (procs_of iface.now.procs.items) (proc_of p.now) }
    ensures { IsSeen (λ vs. values_of vs.items)
        (args_word (types_of iface.now.types.items) (proc_of p.now) word.now) result }
{
    if word.is_empty() {
        return Err(Refusal::Bad(LineWhy::Word));
    }
    let args = values_in(alloc, iface, p, word)?;
    if is_request(alloc, iface, p, &args)? {
        Ok(args)
    } else {
        Err(Refusal::Bad(LineWhy::Json))
    }
}
