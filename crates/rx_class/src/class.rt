ghost use Rattle.std.specs.Prelude.{◌≡◌, ◌≤◌, ℕ, List, None, length, IfSome, IsSomeAnd};
ghost use Rattle.rx_model.specs.declared.wire.TheConstants.{SECURITY_BYTES};
ghost use Rattle.rx_rules.specs.Classes as classes;
ghost use Rattle.rx_class.specs.Writes.{WritesFront};

use rx_model::CallName;

/// A security class of connections (`rx.h`, `struct rx_securityOps`, for what a packet carries of it).
pub trait Class: Drop {
    // What the class keeps to itself, as bytes, and the class that goes with it.
    ghost secret: { Self → List ℕ };

    ghost class_of: { List ℕ → classes.Class };

    /// The security index of its datagrams.
    fn index(&self) -> u8
        ensures { result ≡ (class_of (secret self.now)).index };

    /// Whether a server challenges the client of a connection before it accepts a call of it.
    fn challenges(&self) -> bool
        ensures { result ≡ (class_of (secret self.now)).challenges };

    /// Writes the challenge of a call by the nonce of its connection, and answers its length, at most 64 bytes.
    fn challenge(&self, who: &CallName, nonce: u64, to: &mut [u8]) -> usize
        requires { SECURITY_BYTES ≤ length to.old }
        ensures written { WritesFront ((class_of (secret self.now)).challenge who.now nonce) to.old to.new result }
        ensures within { result ≤ SECURITY_BYTES };

    /// Writes the response to a challenge, and answers its length, at most 64 bytes; none where the class has none.
    fn respond(&self, who: &CallName, asked: &[u8], to: &mut [u8]) -> Option<usize>
        requires { SECURITY_BYTES ≤ length to.old }
        ensures written { IfSome ((class_of (secret self.now)).respond who.now asked.now)
            (λ bytes. IsSomeAnd result (WritesFront bytes to.old to.new)) }
        ensures within { IfSome result (λ count. count ≤ SECURITY_BYTES) }
        ensures none { (class_of (secret self.now)).respond who.now asked.now ≡ None
            → (result ≡ None) × (to.new ≡ to.old) };

    /// Whether an answer is the right one to the challenge by this nonce.
    fn check(&self, who: &CallName, nonce: u64, answer: &[u8]) -> bool
        ensures { result ≡ (class_of (secret self.now)).check who.now nonce answer.now };

    // A response to one's own challenge is right, where the class challenges; what a class writes fits.
    ghost lawful: { (s : List ℕ) → classes.ClassLaw (class_of s) };

    ghost fits: { (s : List ℕ) → classes.FitsClass (class_of s) };
}

/// The law of a class: a response to one's own challenge is right, where the class challenges; and what it writes are
/// bytes, at most 64.
pub fn class_law<C: Class>(class: &C)
    ensures lawful { classes.ClassLaw (C.class_of (C.secret class.now)) }
    ensures fits { classes.FitsClass (C.class_of (C.secret class.now)) }
{}
