ghost use Rattle.rx_token.specs.Chosen.{secret_of, chosen};
ghost use Rattle.rx_token.specs.TokenLaws.{chosen_is_lawful, chosen_fits};

use crate::token::Token;
use rx_class::{Class, Null};
use rx_model::CallName;

/// The class of a node that learns it only as it starts.
#[derive(Debug, Drop)]
pub enum Chosen {
    Null,
    Token(Token),
}

impl Class for Chosen {
    ghost secret = { secret_of };

    ghost class_of = { chosen };

    ghost lawful = { chosen_is_lawful };

    ghost fits = { chosen_fits };

    fn index(&self) -> u8 {
        match self {
            Chosen::Null => Null.index(),
            Chosen::Token(token) => token.index(),
        }
    }

    fn challenges(&self) -> bool {
        match self {
            Chosen::Null => Null.challenges(),
            Chosen::Token(token) => token.challenges(),
        }
    }

    fn challenge(&self, who: &CallName, nonce: u64, to: &mut [u8]) -> usize {
        match self {
            Chosen::Null => Null.challenge(who, nonce, to),
            Chosen::Token(token) => token.challenge(who, nonce, to),
        }
    }

    fn respond(&self, who: &CallName, asked: &[u8], to: &mut [u8]) -> Option<usize> {
        match self {
            Chosen::Null => Null.respond(who, asked, to),
            Chosen::Token(token) => token.respond(who, asked, to),
        }
    }

    fn check(&self, who: &CallName, nonce: u64, answer: &[u8]) -> bool {
        match self {
            Chosen::Null => Null.check(who, nonce, answer),
            Chosen::Token(token) => token.check(who, nonce, answer),
        }
    }
}
