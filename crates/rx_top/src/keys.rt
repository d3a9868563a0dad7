//! The keys of nodes.

ghost use Rattle.std.specs.Prelude.{◌≡◌, ◌≢◌, Err, IfErr, IfOk, IsSomeAnd, Some, true};
ghost use Rattle.rx_base.specs.Count.{one_more};
ghost use Rattle.rx_token.specs.Chosen.{chosen, secret_of};
ghost use Rattle.rx_top.specs.Inputs.{read_on};
ghost use Rattle.rx_top.specs.Outside.{Counts, OnlyFiles, is_plain, reads_of};
ghost use Rattle.rx_top.specs.Wires.{EndsAtKey, IsClass, IsClassOf, RefusesKey, wire_status_in};

use crate::around::Surroundings;
use crate::outcome::SimOutcome;
use crate::wire_outcome::WireOutcome;
use rx_base::ReadFault;
use rx_token::{Chosen, KEY_BYTES, Token};
use std::alloc::Global;
use xg_lex::Text;

/// The class by the key of a file, or without security where none is named.
pub fn named_class<'a, X: Surroundings>(
    alloc: Global,
    key: &'a Option<Text>,
    x: &mut X,
) -> Result<Chosen, WireOutcome<'a>>
    ensures ok { IfOk result (λ class. IsClass (X.told x.old).files.contents key.now (chosen (secret_of class))) }
    ensures err { IfErr result (λ o. IsSomeAnd key.now (λ name. EndsAtKey o name
        (reads_of (X.told x.old) (X.told x.new)))) }
    ensures counts { Counts (wire_status_in result) (X.told x.old) (X.told x.new) }
    ensures only { OnlyFiles (X.told x.old) (X.told x.new) }
    ensures noted { result ≢ Err WireOutcome.Unnoted }
    ensures reads { (X.told x.new).files.reads ≡ read_on key.now (X.told x.old).files.reads }
{
    match key {
        None => Ok(Chosen::Null),
        Some(name) => class_file(alloc, name.as_str(), x),
    }
}

fn class_file<'a, X: Surroundings>(
    alloc: Global,
    name: &'a str,
    x: &mut X,
) -> Result<Chosen, WireOutcome<'a>>
    ensures ok { IfOk result (λ class. IsClass (X.told x.old).files.contents (Some name.now)
        (chosen (secret_of class))) }
    ensures err { IfErr result
        (λ o. EndsAtKey o name.now (reads_of (X.told x.old) (X.told x.new))) }
    ensures counts { Counts (wire_status_in result) (X.told x.old) (X.told x.new) }
    ensures only { OnlyFiles (X.told x.old) (X.told x.new) }
    ensures noted { result ≢ Err WireOutcome.Unnoted }
    ensures reads { (X.told x.new).files.reads ≡ one_more (X.told x.old).files.reads }
{
    match x.read(alloc, name) {
        Ok(bytes) => class_in(name, bytes.as_slice()),
        Err(ReadFault::Failed) => Err(WireOutcome::Input(SimOutcome::FileFault { file: name })),
        Err(ReadFault::OutOfMemory) => Err(WireOutcome::OutOfMemory),
    }
}

fn class_in<'a>(name: &'a str, bytes: &[u8]) -> Result<Chosen, WireOutcome<'a>>
    ensures ok { IfOk result (λ class. IsClassOf bytes.now (chosen (secret_of class))) }
    ensures err { IfErr result (λ o. RefusesKey o name.now bytes.now) }
    ensures plain { is_plain (wire_status_in result) ≡ true }
    ensures noted { result ≢ Err WireOutcome.Unnoted }
{
    if bytes.len() != KEY_BYTES {
        return Err(WireOutcome::BadKey { file: name });
    }
    let mut key = [0; KEY_BYTES];
    key.copy_from_slice(bytes);
    Ok(Chosen::Token(Token::new(key)))
}
