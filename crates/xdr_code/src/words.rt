//! Words: values of int and unsigned, which are numbers of four bytes, written many at once.

ghost use Rattle.std.specs.Prelude.{◌≡◌, ◌++◌, flat_map, map, OnOk};
ghost use Rattle.std.specs.Int.{w32, cast_unsigned};
ghost use Rattle.xdr_value.specs.Data.{number};
ghost use Rattle.xdr_value.specs.View.{kind_of, part_of, value_of, values_of};
ghost use Rattle.xdr_value.specs.Spelling.{word};
ghost use Rattle.xdr_code.specs.Words.{is_word, are_words, IsWord, word_spelling, AreWords, words_spelling, AreRows};
ghost use Rattle.xdr_code.specs.Words.{rows_spelling};

use std::alloc::AllocError;
use xdr_value::{Field, Ty, Value};

/// Whether the values of the type are words.
pub fn is_word(ty: &Ty) -> bool
    ensures { result ≡ is_word (kind_of ty.now) }
{
    match ty {
        Ty::Int | Ty::Uint => true,
        Ty::Hyper | Ty::Uhyper | Ty::Short | Ty::Ushort | Ty::Char | Ty::Uchar => false,
        Ty::Bool | Ty::Void | Ty::Opaque(_) | Ty::OpaqueUpTo(_) | Ty::Text(_) => false,
        Ty::Array(_, _) | Ty::ArrayUpTo(_, _) | Ty::Maybe(_) | Ty::Named(_, _) => false,
    }
}

/// Whether the values of each field are.
pub fn are_words(fields: &Vec<Field>) -> bool
    ensures { result ≡ are_words (map part_of fields.now.items) }
{
    for field in fields {
        if !is_word(&field.ty) {
            return false;
        }
    }
    true
}

/// Appends the number's four bytes, highest first.
#[inline(always)]
pub fn put_word(out: &mut Vec<u8>, n: u32) -> Result<(), AllocError>
    ensures { OnOk result (out.new.items ≡ out.old.items ++ word n) }
{
    out.extend_from_slice(&n.to_be_bytes())?;
    Ok(())
}

/// The lowest 32 bits of a word, in two's complement. Both arms are one instruction, which looks at
/// no sign.
#[inline(always)]
pub fn low_word(n: i128) -> u32
    requires { IsWord (number n) }
    ensures { result ≡ cast_unsigned w32 n }
{
    if n < 0 {
        (n as i32).cast_unsigned()
    } else {
        n as u32
    }
}

#[inline(always)]
fn word_bytes(value: &Value) -> [u8; 4]
    requires { IsWord (value_of value.now) }
    ensures { result ≡ word_spelling (value_of value.now) }
{
    match value {
        Value::Number(n) => low_word(*n).to_be_bytes(),
        Value::Flag(_) | Value::Octets(_) | Value::List(_) => unreachable!(),
        Value::Union(_, _) | Value::Maybe(_) | Value::Void => unreachable!(),
    }
}

/// Appends a word.
#[inline(always)]
pub fn put_one(out: &mut Vec<u8>, value: &Value) -> Result<(), AllocError>
    requires { IsWord (value_of value.now) }
    ensures { OnOk result (out.new.items ≡ out.old.items ++ word_spelling (value_of value.now)) }
{
    out.extend_from_slice(&word_bytes(value))?;
    Ok(())
}

#[inline(always)]
fn four_words(four: &[Value; 4]) -> [[u8; 4]; 4]
    requires { AreWords (values_of four.now) }
    ensures { flat_map (λ x. x) result ≡ words_spelling (values_of four.now) }
{
    [
        word_bytes(&four[0]),
        word_bytes(&four[1]),
        word_bytes(&four[2]),
        word_bytes(&four[3]),
    ]
}

#[inline(always)]
fn eight_words(eight: &[Value; 8]) -> [[u8; 4]; 8]
    requires { AreWords (values_of eight.now) }
    ensures { flat_map (λ x. x) result ≡ words_spelling (values_of eight.now) }
{
    [
        word_bytes(&eight[0]),
        word_bytes(&eight[1]),
        word_bytes(&eight[2]),
        word_bytes(&eight[3]),
        word_bytes(&eight[4]),
        word_bytes(&eight[5]),
        word_bytes(&eight[6]),
        word_bytes(&eight[7]),
    ]
}

#[inline(always)]
fn put_each(out: &mut Vec<u8>, items: &[Value]) -> Result<(), AllocError>
    requires { AreWords (values_of items.now) }
    ensures { OnOk result (out.new.items ≡ out.old.items ++ words_spelling (values_of items.now)) }
{
    for item in items {
        put_one(out, item)?;
    }
    Ok(())
}

// Four at once, and the others one by one.
#[inline(always)]
fn put_few(out: &mut Vec<u8>, items: &[Value]) -> Result<(), AllocError>
    requires { AreWords (values_of items.now) }
    ensures { OnOk result (out.new.items ≡ out.old.items ++ words_spelling (values_of items.now)) }
{
    match items.split_first_chunk::<4>() {
        Some((four, others)) => {
            out.extend_from_slice(four_words(four).as_slice().as_flattened())?;
            put_each(out, others)
        }
        None => put_each(out, items),
    }
}

// Eight at once as long as there are as many.
#[inline(always)]
fn put_many(out: &mut Vec<u8>, items: &[Value]) -> Result<(), AllocError>
    requires { AreWords (values_of items.now) }
    ensures { OnOk result (out.new.items ≡ out.old.items ++ words_spelling (values_of items.now)) }
{
    let mut rest = items;
    while let Some((eight, others)) = rest.split_first_chunk::<8>() {
        out.extend_from_slice(eight_words(eight).as_slice().as_flattened())?;
        rest = others;
    }
    put_few(out, rest)
}

/// Appends words.
pub fn put_words(out: &mut Vec<u8>, items: &[Value]) -> Result<(), AllocError>
    requires { AreWords (values_of items.now) }
    ensures { OnOk result (out.new.items ≡ out.old.items ++ words_spelling (values_of items.now)) }
{
    out.reserve(items.len().saturating_mul(4))?;
    put_many(out, items)
}

/// Appends structs of words, each of which has as many as `width` says; only the room that is made
/// rests on the width.
pub fn put_rows(out: &mut Vec<u8>, items: &[Value], width: usize) -> Result<(), AllocError>
    requires { AreRows (values_of items.now) }
    ensures { OnOk result (out.new.items ≡ out.old.items ++ rows_spelling (values_of items.now)) }
{
    out.reserve(items.len().saturating_mul(4).saturating_mul(width))?;
    for item in items {
        match item {
            Value::List(words) => put_many(out, words)?,
            Value::Number(_) | Value::Flag(_) | Value::Octets(_) => unreachable!(),
            Value::Union(_, _) | Value::Maybe(_) | Value::Void => unreachable!(),
        }
    }
    Ok(())
}
