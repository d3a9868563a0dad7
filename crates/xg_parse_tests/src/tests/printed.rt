//! A tree as a text, for the tables of the tests.

use std::alloc::{AllocError, Global};
use xg_parse::{
    ArgItem, ArmItem, ConstWord, Decl, Form, Item, KindWord, MembItem, ModeWord, Part, Tree,
    TypeWord,
};

fn write_const(out: &mut String, value: &ConstWord) -> Result<(), AllocError> {
    match value {
        ConstWord::Literal { minus, number } => {
            if *minus {
                out.push_str("-")?;
            }
            write!(out, "{number}")
        }
        ConstWord::Name(name) => out.push_str(name.as_str()),
    }
}

fn write_optional(out: &mut String, value: &Option<ConstWord>) -> Result<(), AllocError> {
    match value {
        None => Ok(()),
        Some(value) => write_const(out, value),
    }
}

fn write_type(out: &mut String, ty: &TypeWord) -> Result<(), AllocError> {
    match ty {
        TypeWord::Base(words) => out.push_str(words.as_str()),
        TypeWord::Name(name) => {
            out.push_str(":")?;
            out.push_str(name.as_str())
        }
    }
}

fn write_fixed(out: &mut String, size: &ConstWord) -> Result<(), AllocError> {
    out.push_str("[")?;
    write_const(out, size)?;
    out.push_str("]")
}

fn write_up_to(out: &mut String, most: &Option<ConstWord>) -> Result<(), AllocError> {
    out.push_str("<")?;
    write_optional(out, most)?;
    out.push_str(">")
}

fn write_named(out: &mut String, before: &str, decl: &Decl) -> Result<(), AllocError> {
    out.push_str(before)?;
    out.push_str(decl.name.as_str())
}

fn write_typed(
    out: &mut String,
    ty: &TypeWord,
    between: &str,
    decl: &Decl,
) -> Result<(), AllocError> {
    write_type(out, ty)?;
    write_named(out, between, decl)
}

fn write_decl(out: &mut String, decl: &Decl) -> Result<(), AllocError> {
    match &decl.form {
        Form::Plain(ty) => write_typed(out, ty, " ", decl),
        Form::Star(ty) => write_typed(out, ty, "* ", decl),
        Form::Fixed(ty, size) => {
            write_typed(out, ty, " ", decl)?;
            write_fixed(out, size)
        }
        Form::UpTo(ty, most) => {
            write_typed(out, ty, " ", decl)?;
            write_up_to(out, most)
        }
        Form::Opaque(size) => {
            write_named(out, "opaque ", decl)?;
            write_fixed(out, size)
        }
        Form::OpaqueUpTo(most) => {
            write_named(out, "opaque ", decl)?;
            write_up_to(out, most)
        }
        Form::Text(most) => {
            write_named(out, "string ", decl)?;
            write_up_to(out, most)
        }
    }
}

fn write_member(out: &mut String, member: &MembItem) -> Result<(), AllocError> {
    out.push_str(" ")?;
    out.push_str(member.name.as_str())?;
    match &member.value {
        None => Ok(()),
        Some(value) => {
            out.push_str("=")?;
            write_const(out, value)
        }
    }
}

fn write_arm(out: &mut String, first: &str, arm: &ArmItem) -> Result<(), AllocError> {
    out.push_str(" (")?;
    out.push_str(first)?;
    for value in arm.cases.as_slice() {
        write_const(out, value)?;
        out.push_str(" ")?;
    }
    match &arm.decl {
        None => out.push_str("void")?,
        Some(decl) => write_decl(out, decl)?,
    }
    out.push_str(")")
}

fn write_arg(out: &mut String, arg: &ArgItem) -> Result<(), AllocError> {
    match arg.mode {
        None => {}
        Some(ModeWord::In) => out.push_str("IN ")?,
        Some(ModeWord::Out) => out.push_str("OUT ")?,
        Some(ModeWord::InOut) => out.push_str("INOUT ")?,
    }
    write_decl(out, &arg.decl)
}

fn write_args(out: &mut String, args: &[ArgItem]) -> Result<(), AllocError> {
    out.push_str(" (")?;
    for (i, arg) in args.iter().enumerate() {
        if i > 0 {
            out.push_str(", ")?;
        }
        write_arg(out, arg)?;
    }
    out.push_str(")")
}

fn write_kind(out: &mut String, kind: Option<KindWord>) -> Result<(), AllocError> {
    match kind {
        None => Ok(()),
        Some(KindWord::Split) => out.push_str(" split"),
        Some(KindWord::Multi) => out.push_str(" multi"),
    }
}

fn write_arms(
    out: &mut String,
    arms: &[ArmItem],
    otherwise: &Option<ArmItem>,
) -> Result<(), AllocError> {
    for arm in arms {
        write_arm(out, "", arm)?;
    }
    match otherwise {
        None => Ok(()),
        Some(arm) => write_arm(out, "default ", arm),
    }
}

fn write_fields(out: &mut String, fields: &[Decl]) -> Result<(), AllocError> {
    for decl in fields {
        out.push_str(" (")?;
        write_decl(out, decl)?;
        out.push_str(")")?;
    }
    Ok(())
}

fn write_word(out: &mut String, word: &str, name: &str) -> Result<(), AllocError> {
    out.push_str(word)?;
    out.push_str(name)
}

fn write_part(out: &mut String, part: &Part) -> Result<(), AllocError> {
    match part {
        Part::Package(name) => write_word(out, "package ", name.as_str()),
        Part::Prefix(name) => write_word(out, "prefix ", name.as_str()),
        Part::StatIndex(value) => {
            out.push_str("statindex ")?;
            write_const(out, value)
        }
        Part::StartingOpcode(value) => {
            out.push_str("startingopcode ")?;
            write_const(out, value)
        }
        Part::Const { name, value } => {
            write_word(out, "const ", name.as_str())?;
            out.push_str("=")?;
            write_const(out, value)
        }
        Part::Typedef(decl) => {
            out.push_str("typedef ")?;
            write_decl(out, decl)
        }
        Part::Enum { name, members } => {
            write_word(out, "enum ", name.as_str())?;
            for member in members.as_slice() {
                write_member(out, member)?;
            }
            Ok(())
        }
        Part::Struct { name, fields } => {
            write_word(out, "struct ", name.as_str())?;
            write_fields(out, fields.as_slice())
        }
        Part::Union { .. } | Part::Proc { .. } => write_more(out, part),
    }
}

fn write_more(out: &mut String, part: &Part) -> Result<(), AllocError> {
    match part {
        Part::Union {
            name,
            tag,
            tag_name,
            arms,
            otherwise,
        } => {
            write_word(out, "union ", name.as_str())?;
            out.push_str(" ")?;
            write_type(out, tag)?;
            write_word(out, " ", tag_name.as_str())?;
            write_arms(out, arms.as_slice(), otherwise)
        }
        Part::Proc {
            name,
            args,
            kind,
            opcode,
        } => {
            write_word(out, "proc ", name.as_str())?;
            write_args(out, args.as_slice())?;
            write_kind(out, *kind)?;
            match opcode {
                None => Ok(()),
                Some(value) => {
                    out.push_str(" =")?;
                    write_const(out, value)
                }
            }
        }
        Part::Package(_) | Part::Prefix(_) | Part::StatIndex(_) | Part::StartingOpcode(_) => Ok(()),
        Part::Const { .. } | Part::Typedef(_) | Part::Enum { .. } | Part::Struct { .. } => Ok(()),
    }
}

fn write_item(out: &mut String, item: &Item) -> Result<(), AllocError> {
    let line = item.line;
    write!(out, "{line} ")?;
    write_part(out, &item.part)?;
    out.push_str(".")
}

/// The items in order, each with its line and a full stop.
pub fn tree_text(alloc: Global, tree: &Tree) -> Result<String, AllocError> {
    let mut out = String::new(alloc);
    for item in tree.items.as_slice() {
        write_item(&mut out, item)?;
    }
    Ok(out)
}
