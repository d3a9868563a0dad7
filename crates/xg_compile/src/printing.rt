//! The table of an interface.

ghost use Rattle.std.specs.Prelude.{◌≡◌, ◌++◌, map, option_map, IfOk, OnOk};
ghost use Rattle.std.specs.List.{flat_map};
ghost use Rattle.std.specs.String.{string_bytes};
ghost use Rattle.xdr_value.specs.View.{choice_of, def_of, form_of, kind_of, member_of, param_of, part_of, proc_of};
ghost use Rattle.xdr_value.specs.View.{procs_of, types_of};
ghost use Rattle.xg_check.specs.Meaning.{interface_of};
ghost use Rattle.xg_compile.specs.Tables.{arm_text, case_text, field_text, form_text, form_word, head_line, held_text};
ghost use Rattle.xg_compile.specs.Tables.{kind_text, member_text, mode_text, param_text, proc_line, table_text};
ghost use Rattle.xg_compile.specs.Tables.{type_line, typed_text, word_text};

use itoa::Buffer;
use std::alloc::{AllocError, Global};
use xdr_json::write_type;
use xdr_value::{Arg, Arm, Def, Field, Interface, Member, Mode, Proc, Shape, Ty};

// NAME:T
fn put_typed(alloc: Global, name: &str, ty: &Ty, out: &mut String) -> Result<(), AllocError>
    ensures { OnOk result (string_bytes out.new ≡ string_bytes out.old ++ typed_text name.now (kind_of ty.now)) }
{
    out.push_str(name)?;
    out.push_str(":")?;
    write_type(alloc, ty, out)
}

fn put_field(alloc: Global, field: &Field, out: &mut String) -> Result<(), AllocError>
    ensures { OnOk result (string_bytes out.new ≡ string_bytes out.old ++ field_text (part_of field.now)) }
{
    out.push_str(" ")?;
    put_typed(alloc, field.name.as_str(), &field.ty, out)
}

fn put_fields(alloc: Global, fields: &[Field], out: &mut String) -> Result<(), AllocError>
    ensures { OnOk result
        (string_bytes out.new ≡ string_bytes out.old ++ flat_map field_text (map part_of fields.now)) }
{
    for field in fields {
        put_field(alloc, field, out)?;
    }
    Ok(())
}

fn put_member(member: &Member, out: &mut String) -> Result<(), AllocError>
    ensures { OnOk result (string_bytes out.new ≡ string_bytes out.old ++ member_text (member_of member.now)) }
{
    let mut digits = Buffer::new();
    out.push_str(" ")?;
    out.push_str(member.name.as_str())?;
    out.push_str("=")?;
    out.push_str(digits.format(member.number))
}

fn put_members(members: &[Member], out: &mut String) -> Result<(), AllocError>
    ensures { OnOk result
        (string_bytes out.new ≡ string_bytes out.old ++ flat_map member_text (map member_of members.now)) }
{
    for member in members {
        put_member(member, out)?;
    }
    Ok(())
}

fn put_case(case: Option<i64>, out: &mut String) -> Result<(), AllocError>
    ensures { OnOk result (string_bytes out.new ≡ string_bytes out.old ++ case_text case) }
{
    match case {
        None => out.push_str(" default:"),
        Some(value) => {
            let mut digits = Buffer::new();
            out.push_str(" case ")?;
            out.push_str(digits.format(value))?;
            out.push_str(":")
        }
    }
}

fn put_held(alloc: Global, held: &Option<Field>, out: &mut String) -> Result<(), AllocError>
    ensures { OnOk result
        (string_bytes out.new ≡ string_bytes out.old ++ held_text (option_map part_of held.now)) }
{
    match held {
        None => out.push_str("void"),
        Some(field) => put_typed(alloc, field.name.as_str(), &field.ty, out),
    }
}

fn put_arm(alloc: Global, arm: &Arm, out: &mut String) -> Result<(), AllocError>
    ensures { OnOk result (string_bytes out.new ≡ string_bytes out.old ++ arm_text (choice_of arm.now)) }
{
    put_case(arm.case, out)?;
    put_held(alloc, &arm.field, out)
}

fn put_arms(alloc: Global, arms: &[Arm], out: &mut String) -> Result<(), AllocError>
    ensures { OnOk result
        (string_bytes out.new ≡ string_bytes out.old ++ flat_map arm_text (map choice_of arms.now)) }
{
    for arm in arms {
        put_arm(alloc, arm, out)?;
    }
    Ok(())
}

fn form_word(shape: &Shape) -> &'static str
    ensures { result.now ≡ form_word (form_of shape.now) }
{
    match shape {
        Shape::Alias(_) => "type ",
        Shape::Enum(_) => "enum ",
        Shape::Struct(_) => "struct ",
        Shape::Union { .. } => "union ",
    }
}

fn put_form(alloc: Global, shape: &Shape, out: &mut String) -> Result<(), AllocError>
    ensures { OnOk result (string_bytes out.new ≡ string_bytes out.old ++ form_text (form_of shape.now)) }
{
    match shape {
        Shape::Alias(ty) => {
            out.push_str(" ")?;
            write_type(alloc, ty, out)
        }
        Shape::Enum(members) => put_members(members.as_slice(), out),
        Shape::Struct(fields) => put_fields(alloc, fields.as_slice(), out),
        Shape::Union { tag, arms } => {
            out.push_str(" ")?;
            write_type(alloc, tag, out)?;
            put_arms(alloc, arms.as_slice(), out)
        }
    }
}

fn put_type(alloc: Global, def: &Def, out: &mut String) -> Result<(), AllocError>
    ensures { OnOk result (string_bytes out.new ≡ string_bytes out.old ++ type_line (def_of def.now)) }
{
    out.push_str(form_word(&def.shape))?;
    out.push_str(def.name.as_str())?;
    put_form(alloc, &def.shape, out)?;
    out.push_str("\n")
}

fn put_types(alloc: Global, types: &[Def], out: &mut String) -> Result<(), AllocError>
    ensures { OnOk result
        (string_bytes out.new ≡ string_bytes out.old ++ flat_map type_line (types_of types.now)) }
{
    for def in types {
        put_type(alloc, def, out)?;
    }
    Ok(())
}

fn mode_text(mode: Mode) -> &'static str
    ensures { result.now ≡ mode_text mode }
{
    match mode {
        Mode::In => " in:",
        Mode::Out => " out:",
        Mode::InOut => " inout:",
    }
}

fn put_arg(alloc: Global, arg: &Arg, out: &mut String) -> Result<(), AllocError>
    ensures { OnOk result (string_bytes out.new ≡ string_bytes out.old ++ param_text (param_of arg.now)) }
{
    out.push_str(mode_text(arg.mode))?;
    put_typed(alloc, arg.name.as_str(), &arg.ty, out)
}

fn put_args(alloc: Global, args: &[Arg], out: &mut String) -> Result<(), AllocError>
    ensures { OnOk result
        (string_bytes out.new ≡ string_bytes out.old ++ flat_map param_text (map param_of args.now)) }
{
    for arg in args {
        put_arg(alloc, arg, out)?;
    }
    Ok(())
}

fn kind_text(split: bool, multi: bool) -> &'static str
    ensures { result.now ≡ kind_text split multi }
{
    if split {
        " split"
    } else if multi {
        " multi"
    } else {
        " plain"
    }
}

fn put_proc(alloc: Global, one: &Proc, out: &mut String) -> Result<(), AllocError>
    ensures { OnOk result (string_bytes out.new ≡ string_bytes out.old ++ proc_line (proc_of one.now)) }
{
    let mut digits = Buffer::new();
    out.push_str("proc ")?;
    out.push_str(digits.format(one.opcode))?;
    out.push_str(" ")?;
    out.push_str(one.name.as_str())?;
    out.push_str(kind_text(one.split, one.multi))?;
    put_args(alloc, one.args.as_slice(), out)?;
    out.push_str("\n")
}

fn put_procs(alloc: Global, procs: &[Proc], out: &mut String) -> Result<(), AllocError>
    ensures { OnOk result
        (string_bytes out.new ≡ string_bytes out.old ++ flat_map proc_line (procs_of procs.now)) }
{
    for one in procs {
        put_proc(alloc, one, out)?;
    }
    Ok(())
}

fn word_text(word: &Option<String>) -> &str
    ensures { result.now ≡ word_text (option_map string_bytes word.now) }
{
    match word {
        None => "-",
        Some(word) => word.as_str(),
    }
}

fn put_head(iface: &Interface, out: &mut String) -> Result<(), AllocError>
    ensures { OnOk result (string_bytes out.new ≡ string_bytes out.old
        ++ head_line (option_map string_bytes iface.now.«package») (option_map string_bytes iface.now.prefix)) }
{
    out.push_str("interface ")?;
    out.push_str(word_text(&iface.package))?;
    out.push_str(" ")?;
    out.push_str(word_text(&iface.prefix))?;
    out.push_str("\n")
}

/// The table of an interface: a line of its package and prefix, then one for each type and one for each procedure.
pub fn table(alloc: Global, iface: &Interface) -> Result<String, AllocError>
    ensures { IfOk result (λ t. string_bytes t ≡ table_text (interface_of iface.now)) }
{
    let mut out = String::new(alloc);
    put_head(iface, &mut out)?;
    put_types(alloc, iface.types.as_slice(), &mut out)?;
    put_procs(alloc, iface.procs.as_slice(), &mut out)?;
    Ok(out)
}
