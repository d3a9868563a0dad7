//! The words that the lines of scripts, plans and plans of peers share.

ghost use Rattle.std.specs.Prelude.{◌≡◌, ◌<◌, ◌∷◌, ◌-◌, ◌^◌, drop, length, IfOk, IfErr};
ghost use Rattle.rx_script.specs.Reading.{IsAnswer, IsUnfilled};
ghost use Rattle.rx_script.specs.Words.{first_as, no_more, number_word, host_word, bytes_word, code_word, fault_word};
ghost use Rattle.rx_script.specs.Words.{cid_word, max_word, moment_word, seed_word, epoch_word, name_word, caller_word};
ghost use Rattle.rx_script.specs.Words.{node_word, nodes_word, call_word};

use crate::bytes_word::bytes_in;
use crate::fault::{LineWhy, Refusal};
use crate::limits::{END_OF_TIME, MAX_BYTES};
use crate::marks::{ACCEPTED, CALLED, CLIENT, PEER};
use crate::number::{code_in, fault_in, host_in, is_decimal, long_within, number_within};
use crate::pieces::Pieces;
use crate::spelled::Spelled;
use rx_model::Host;
use std::alloc::Global;

/// Whose names a plan has: those of a server and its clients, or those of peers.
#[derive(Clone, Copy, Debug, PartialEq, Eq)]
pub enum Names {
    Plan,
    Peers,
}

/// A call by the name that its client's end or its server's end has.
#[derive(Clone, Copy, Debug, PartialEq, Eq)]
pub enum CallWord {
    Called(u32),
    Accepted(u32),
}

/// The head of the word that names an epoch.
const EPOCH_HEAD: &str = "epoch=";

/// Whether no word is left.
pub fn no_more(words: &mut Pieces) -> Result<(), LineWhy>
    ensures { result ≡ no_more words.old }
{
    match words.next() {
        None => Ok(()),
        Some(_) => Err(LineWhy::Word),
    }
}

/// The next word, which has to be there and not to be empty.
pub fn filled<'a>(words: &mut Pieces<'a>) -> Result<&'a str, LineWhy>
    ensures word { IfOk result
        (λ word. (0 < length word.now) × (words.old ≡ word.now ∷ words.new)) }
    ensures missing { IfErr result (λ why. (why ≡ LineWhy.Word) × IsUnfilled words.old) }
    ensures rest { words.new ≡ drop 1 words.old }
{
    let word = words.next().ok_or(LineWhy::Word)?;
    if word.is_empty() {
        return Err(LineWhy::Word);
    }
    Ok(word)
}

// ---- numbers, hosts and bytes

/// A number within the bounds.
pub fn number_word(words: &mut Pieces, low: u32, high: u32) -> Result<u32, LineWhy>
    ensures read { result ≡ first_as (number_word low high) words.old }
    ensures rest { words.new ≡ drop 1 words.old }
{
    let word = filled(words)?;
    number_within(word, low, high).ok_or(LineWhy::Number)
}

/// A connection id.
pub fn cid_word(words: &mut Pieces) -> Result<u32, LineWhy>
    ensures read { result ≡ first_as cid_word words.old }
    ensures rest { words.new ≡ drop 1 words.old }
{
    number_word(words, 0, u32::MAX)
}

/// How many bytes a read asks for.
pub fn max_word(words: &mut Pieces) -> Result<u32, LineWhy>
    ensures read { result ≡ first_as max_word words.old }
    ensures rest { words.new ≡ drop 1 words.old }
{
    number_word(words, 1, MAX_BYTES)
}

/// A moment in milliseconds.
pub fn moment_word(words: &mut Pieces) -> Result<u64, LineWhy>
    ensures read { result ≡ first_as moment_word words.old }
    ensures rest { words.new ≡ drop 1 words.old }
{
    let word = filled(words)?;
    long_within(word, 0, END_OF_TIME - 1).ok_or(LineWhy::Number)
}

/// What a generator begins with.
pub fn seed_word(words: &mut Pieces) -> Result<u64, LineWhy>
    ensures read { result ≡ first_as seed_word words.old }
    ensures rest { words.new ≡ drop 1 words.old }
{
    let word = filled(words)?;
    long_within(word, 0, u64::MAX).ok_or(LineWhy::Number)
}

/// A host, as `A.B.C.D:PORT`.
pub fn host_word(words: &mut Pieces) -> Result<Host, LineWhy>
    ensures read { result ≡ first_as host_word words.old }
    ensures rest { words.new ≡ drop 1 words.old }
{
    let word = filled(words)?;
    host_in(word).ok_or(LineWhy::Number)
}

/// A code that may be 0.
pub fn code_word(words: &mut Pieces) -> Result<i32, LineWhy>
    ensures read { result ≡ first_as code_word words.old }
    ensures rest { words.new ≡ drop 1 words.old }
{
    let word = filled(words)?;
    code_in(word).ok_or(LineWhy::Number)
}

/// A code that isn't 0.
pub fn fault_word(words: &mut Pieces) -> Result<i32, LineWhy>
    ensures read { result ≡ first_as fault_word words.old }
    ensures rest { words.new ≡ drop 1 words.old }
{
    let word = filled(words)?;
    fault_in(word).ok_or(LineWhy::Number)
}

/// Bytes: hex in lower case, `-` for none, or `N*BB` for N times the byte BB.
pub fn bytes_word(alloc: Global, words: &mut Pieces) -> Result<Spelled, Refusal>
    ensures read { IsAnswer (first_as bytes_word words.old) result }
    ensures rest { words.new ≡ drop 1 words.old }
{
    let word = filled(words)?;
    match bytes_in(alloc, word)? {
        Some(bytes) => Ok(bytes),
        None => Err(Refusal::Bad(LineWhy::Number)),
    }
}

/// The epoch of a node, as `epoch=N`.
pub fn epoch_word(words: &mut Pieces) -> Result<u32, LineWhy>
    ensures read { result ≡ first_as epoch_word words.old }
    ensures rest { words.new ≡ drop 1 words.old }
{
    let word = words.next().ok_or(LineWhy::Word)?;
    epoch_in(word)
}

fn epoch_in(word: &str) -> Result<u32, LineWhy>
    ensures { result ≡ epoch_word word.now }
{
    let digits = word.strip_prefix(EPOCH_HEAD).ok_or(LineWhy::Word)?;
    number_within(digits, 0, u32::MAX).ok_or(LineWhy::Number)
}

// ---- names

/// The K of a name with the sigil.
pub fn name_word(words: &mut Pieces, sigil: char) -> Result<u32, LineWhy>
    requires { sigil < 128 }
    ensures read { result ≡ first_as (name_word sigil) words.old }
    ensures rest { words.new ≡ drop 1 words.old }
{
    let word = words.next().ok_or(LineWhy::Word)?;
    name_in(word, sigil)
}

fn name_in(word: &str, sigil: char) -> Result<u32, LineWhy>
    requires { sigil < 128 }
    ensures { result ≡ name_word sigil word.now }
{
    let Some(digits) = word.strip_prefix(sigil) else {
        return Err(LineWhy::Word);
    };
    if !is_decimal(digits) {
        return Err(LineWhy::Word);
    }
    number_within(digits, 1, u32::MAX).ok_or(LineWhy::Number)
}

/// The I of who may call.
pub fn caller_word(words: &mut Pieces, names: Names) -> Result<u32, LineWhy>
    ensures read { result ≡ first_as (caller_word names) words.old }
    ensures rest { words.new ≡ drop 1 words.old }
{
    match names {
        Names::Plan => name_word(words, CLIENT),
        Names::Peers => name_word(words, PEER),
    }
}

fn node_in(word: &str, names: Names) -> Result<u32, LineWhy>
    ensures { result ≡ node_word names word.now }
{
    match names {
        Names::Plan => if word == "s" {
            Ok(0)
        } else {
            name_in(word, CLIENT)
        },
        Names::Peers => name_in(word, PEER),
    }
}

/// A node: 0 is the server.
pub fn node_word(words: &mut Pieces, names: Names) -> Result<u32, LineWhy>
    ensures read { result ≡ first_as (node_word names) words.old }
    ensures rest { words.new ≡ drop 1 words.old }
{
    let word = words.next().ok_or(LineWhy::Word)?;
    node_in(word, names)
}

fn nodes_in(word: &str, names: Names) -> Result<Option<u32>, LineWhy>
    ensures { result ≡ nodes_word names word.now }
{
    if word == "all" {
        return Ok(None);
    }
    Ok(Some(node_in(word, names)?))
}

/// A node, or all of them.
pub fn nodes_word(words: &mut Pieces, names: Names) -> Result<Option<u32>, LineWhy>
    ensures read { result ≡ first_as (nodes_word names) words.old }
    ensures rest { words.new ≡ drop 1 words.old }
{
    let word = words.next().ok_or(LineWhy::Word)?;
    nodes_in(word, names)
}

fn call_in(word: &str) -> Result<CallWord, LineWhy>
    ensures { result ≡ call_word word.now }
{
    if word.starts_with(CALLED) {
        return Ok(CallWord::Called(name_in(word, CALLED)?));
    }
    Ok(CallWord::Accepted(name_in(word, ACCEPTED)?))
}

/// A call of either end.
pub fn call_word(words: &mut Pieces) -> Result<CallWord, LineWhy>
    ensures read { result ≡ first_as call_word words.old }
    ensures rest { words.new ≡ drop 1 words.old }
{
    let word = words.next().ok_or(LineWhy::Word)?;
    call_in(word)
}
