ghost use Rattle.std.specs.Prelude.{◌≡◌, ◌≤◌, ◌++◌, length, drop};
ghost use Rattle.rx_rules.specs.Classes.{token, token_answer};
ghost use Rattle.rx_token.specs.TokenLaws.{token_is_lawful, token_fits};
ghost use Rattle.rx_token.specs.declared.token.TheConstants.{KEY_BYTES, DIGEST_BYTES};

use byteorder::{BigEndian, ByteOrder};
use rx_class::Class;
use rx_model::CallName;
use rx_model::wire::{NONCE_BYTES, TOKEN_INDEX};
use sha2::{Digest, Sha256};
use std::fmt;
use std::marker::Model;

/// Bytes of a key.
pub const KEY_BYTES: usize = 32;

/// Bytes of a digest (FIPS 180-4, SHA-256).
pub const DIGEST_BYTES: usize = 32;

/// What the constants of this crate are.
pub fn constants()
    ensures key { KEY_BYTES ≡ 32 }
    ensures digest { DIGEST_BYTES ≡ 32 }
{}

/// The class of those who share a key.
#[derive(Drop)]
pub struct Token {
    key: [u8; KEY_BYTES],
}

impl Model for Token {
    ghost use Rattle.std.specs.Prelude.{ℕ, List};

    ghost Value = { List ℕ };

    ghost view = { λ t. t.key };
}

/// The key isn't shown.
impl fmt::Debug for Token {
    fn fmt<W: fmt::Write>(&self, f: &mut fmt::Formatter<W>) -> fmt::Result {
        write!(f, "Token")
    }
}

impl Token {
    /// The class of a key.
    pub fn new(key: [u8; KEY_BYTES]) -> Token
        ensures { result ≡ key }
    {
        Token { key }
    }

    /// What only a holder of the key knows: the SHA-256 of the key, the epoch and the cid in 4 bytes each, and the
    /// challenge.
    fn answer(&self, who: &CallName, asked: &[u8]) -> [u8; DIGEST_BYTES]
        ensures { result ≡ token_answer self.now who.now asked.now }
    {
        let mut hasher = Sha256::new();
        hasher.update(self.key.as_slice());
        hasher.update(who.epoch.to_be_bytes().as_slice());
        hasher.update(who.cid.to_be_bytes().as_slice());
        hasher.update(asked);
        hasher.finalize()
    }
}

impl Class for Token {
    ghost secret = { λ key. key };

    ghost class_of = { token };

    ghost lawful = { token_is_lawful };

    ghost fits = { token_fits };

    fn index(&self) -> u8 {
        TOKEN_INDEX
    }

    fn challenges(&self) -> bool {
        true
    }

    fn challenge(&self, _who: &CallName, nonce: u64, to: &mut [u8]) -> usize {
        BigEndian::write_u64(to, nonce);
        NONCE_BYTES
    }

    fn respond(&self, who: &CallName, asked: &[u8], to: &mut [u8]) -> Option<usize> {
        if asked.len() != NONCE_BYTES {
            return None;
        }
        let answer = self.answer(who, asked);
        put(to, &answer);
        Some(DIGEST_BYTES)
    }

    fn check(&self, who: &CallName, nonce: u64, answer: &[u8]) -> bool {
        let right = self.answer(who, nonce.to_be_bytes().as_slice());
        answer == right.as_slice()
    }
}

/// Writes bytes to the front of a buffer.
fn put(to: &mut [u8], bytes: &[u8])
    requires { length bytes.now ≤ length to.old }
    ensures { to.new ≡ bytes.now ++ drop (length bytes.now) to.old }
{
    let (front, _rest) = to.split_at_mut(bytes.len());
    front.copy_from_slice(bytes);
}
