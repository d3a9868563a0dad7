//! The text of a type.

ghost use Rattle.std.specs.Prelude.{◌≡◌, ◌++◌, OnOk};
ghost use Rattle.std.specs.String.{string_bytes};
ghost use Rattle.xdr_value.specs.View.{kind_of};
ghost use Rattle.xdr_json.specs.TypeText.{bracketed, type_text};

use std::alloc::{AllocError, Global};
use xdr_value::Ty;

fn write_bracketed(
    alloc: Global,
    out: &mut String,
    opening: &str,
    n: u32,
    closing: &str,
) -> Result<(), AllocError>
    ensures { OnOk result (string_bytes out.new ≡ string_bytes out.old ++ bracketed opening.now n closing.now) }
{
    let digits = n.to_string(alloc)?;
    out.push_str(opening)?;
    out.push_str(digits.as_str())?;
    out.push_str(closing)?;
    Ok(())
}

/// Writes a type as interfaces write it, as in `opaque<1024>` and `AFSFid*`.
pub fn write_type(alloc: Global, ty: &Ty, out: &mut String) -> Result<(), AllocError>
    ensures { OnOk result (string_bytes out.new ≡ string_bytes out.old ++ type_text (kind_of ty.now)) }
{
    match ty {
        Ty::Int => out.push_str("int"),
        Ty::Uint => out.push_str("uint"),
        Ty::Hyper => out.push_str("hyper"),
        Ty::Uhyper => out.push_str("uhyper"),
        Ty::Short => out.push_str("short"),
        Ty::Ushort => out.push_str("ushort"),
        Ty::Char => out.push_str("char"),
        Ty::Uchar => out.push_str("uchar"),
        Ty::Bool => out.push_str("bool"),
        Ty::Void => out.push_str("void"),
        Ty::Opaque(n) => write_bracketed(alloc, out, "opaque[", *n, "]"),
        Ty::OpaqueUpTo(n) => write_bracketed(alloc, out, "opaque<", *n, ">"),
        Ty::Text(n) => write_bracketed(alloc, out, "string<", *n, ">"),
        Ty::Array(of, n) => {
            write_type(alloc, of, out)?;
            write_bracketed(alloc, out, "[", *n, "]")?;
            Ok(())
        }
        Ty::ArrayUpTo(of, n) => {
            write_type(alloc, of, out)?;
            write_bracketed(alloc, out, "<", *n, ">")?;
            Ok(())
        }
        Ty::Maybe(of) => {
            write_type(alloc, of, out)?;
            out.push_str("*")?;
            Ok(())
        }
        Ty::Named(name, _) => out.push_str(name.as_str()),
    }
}
