ghost use Rattle.std.specs.Prelude.{[]};
ghost use Rattle.rx_rules.specs.Classes.{null};
ghost use Rattle.rx_class.specs.NullLaws.{null_is_lawful, null_fits};

use crate::class::Class;
use rx_model::CallName;
use rx_model::wire::NULL_INDEX;

/// The class without security (`rx_null.c`): it doesn't challenge, and answers none.
#[derive(Clone, Copy, Debug, PartialEq, Eq)]
pub struct Null;

impl Class for Null {
    ghost secret = { λ c. [] };

    ghost class_of = { λ s. null };

    ghost lawful = { λ s. null_is_lawful };

    ghost fits = { λ s. null_fits };

    fn index(&self) -> u8 {
        NULL_INDEX
    }

    fn challenges(&self) -> bool {
        false
    }

    fn challenge(&self, _who: &CallName, _nonce: u64, _to: &mut [u8]) -> usize {
        0
    }

    fn respond(&self, _who: &CallName, _asked: &[u8], _to: &mut [u8]) -> Option<usize> {
        None
    }

    fn check(&self, _who: &CallName, _nonce: u64, _answer: &[u8]) -> bool {
        false
    }
}
