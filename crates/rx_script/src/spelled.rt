//! Bytes as a plan keeps them: a word that repeats one byte isn't written out before its line is played.

use rx_model::Bytes;
use std::alloc::{AllocError, Global};
use std::borrow::CowSlice;
use std::marker::Model;

/// How a word gives bytes: one by one, or as so many times the one.
#[derive(Debug, Drop)]
enum Spelling {
    Listed(Bytes),
    Repeated { count: u32, byte: u8 },
}

/// The bytes of a plan's word, which contracts see as their list. A repeated byte takes no more room than its count.
#[derive(Debug, Drop)]
pub struct Spelled {
    spelling: Spelling,
}

impl Model for Spelled {
    ghost use Rattle.std.specs.Prelude.{ℕ, List};
    ghost use Rattle.rx_script.specs.SpelledBytes.{spelled_bytes};

    ghost Value = { List ℕ };

    ghost view = { λ s. spelled_bytes s.spelling };
}

impl Spelled {
    ghost use Rattle.std.specs.Prelude.{◌≡◌, replicate, IfOk};
    ghost use Rattle.std.specs.Cow.{cow_slice_items};

    /// These bytes.
    pub fn of(bytes: Bytes) -> Spelled
        ensures { result ≡ bytes }
    {
        Spelled {
            spelling: Spelling::Listed(bytes),
        }
    }

    /// So many times the byte, without memory.
    pub fn repeated(count: u32, byte: u8) -> Spelled
        ensures { result ≡ replicate count byte }
    {
        Spelled {
            spelling: Spelling::Repeated { count, byte },
        }
    }

    /// The bytes themselves: a repeated byte is written out, others aren't copied.
    pub fn spell_out(&self, alloc: Global) -> Result<CowSlice<'_, u8>, AllocError>
        ensures { IfOk result (λ bytes. cow_slice_items bytes ≡ self.now) }
    {
        match &self.spelling {
            Spelling::Listed(bytes) => Ok(CowSlice::Borrowed(bytes.as_slice())),
            Spelling::Repeated { count, byte } => Ok(CowSlice::Owned(
                vec![in alloc; *byte; *count as usize]?,
            )),
        }
    }

    /// The bytes as a list: a repeated byte is written out, others aren't copied.
    pub fn into_bytes(self, alloc: Global) -> Result<Bytes, AllocError>
        ensures { IfOk result (λ bytes. bytes ≡ self) }
    {
        match self.spelling {
            Spelling::Listed(bytes) => Ok(bytes),
            Spelling::Repeated { count, byte } => Ok(Bytes::of(
                vec![in alloc; byte; count as usize]?,
            )),
        }
    }
}
