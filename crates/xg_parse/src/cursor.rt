//! The place in the tokens up to which they are read.

ghost use Rattle.std.specs.Prelude.{◌≡◌, Some};
ghost use Rattle.xg_parse.specs.Terminals.{same};
ghost use Rattle.xg_parse.specs.Rules.{has};
ghost use Rattle.xg_parse.specs.Reading.{next_of, place_at, without, lesser_terminal};
ghost use Rattle.xg_parse.specs.Grammar.{the, optional};
ghost use Rattle.xg_parse.specs.Gives.{cursor_place, IsTokenOf, IsTokenIfThere};

use crate::terminal::Terminal;
use crate::words::terminal_of;
use std::alloc::{AllocError, AllocFailed};
use xg_lex::Token;

/// The tokens that are left, the terminal of the first, and the least one that was looked for
/// there and isn't there.
#[derive(Clone, Copy, Debug)]
pub struct Cursor<'a> {
    pub rest: &'a [Token],
    pub next: Option<Terminal>,
    pub tried: Option<Terminal>,
}

/// Why nothing was read: there is no memory, or the first token that is left is refused.
#[derive(Clone, Copy, Debug)]
pub enum Stop<'a> {
    Memory,
    Refused(Cursor<'a>),
}

impl<'a> From<AllocError> for Stop<'a> {
    ghost use Rattle.std.specs.Prelude.{◌≡◌};
    ghost use Rattle.xg_parse.specs.declared.cursor.Stop.TheVariants.{Memory};

    ghost from_gives = { λ _ stop. stop ≡ Memory };

    fn from(_: AllocError) -> Stop<'a> {
        Stop::Memory
    }
}

impl<'a, T: Drop> From<AllocFailed<T>> for Stop<'a> {
    ghost use Rattle.std.specs.Prelude.{◌≡◌};
    ghost use Rattle.xg_parse.specs.declared.cursor.Stop.TheVariants.{Memory};

    ghost from_gives = { λ _ stop. stop ≡ Memory };

    fn from(_: AllocFailed<T>) -> Stop<'a> {
        Stop::Memory
    }
}

fn next_of(tokens: &[Token]) -> Option<Terminal>
    ensures { result ≡ next_of tokens.now }
{
    match tokens.first() {
        None => None,
        Some(token) => terminal_of(token),
    }
}

/// The lesser of two terminals.
fn lesser(tried: Option<Terminal>, terminal: Terminal) -> Option<Terminal>
    ensures { result ≡ lesser_terminal tried (Some terminal) }
{
    match tried {
        None => Some(terminal),
        Some(before) => {
            if before.rank() <= terminal.rank() {
                Some(before)
            } else {
                Some(terminal)
            }
        }
    }
}

impl<'a> Cursor<'a> {
    /// Before these tokens.
    pub fn at(rest: &'a [Token]) -> Cursor<'a>
        ensures { cursor_place result ≡ place_at rest.now }
    {
        Cursor {
            rest,
            next: next_of(rest),
            tried: None,
        }
    }

    /// Whether the next token is the terminal.
    pub fn is(self, terminal: Terminal) -> bool
        ensures { result ≡ has (same terminal) self.entry.next }
    {
        match self.next {
            None => false,
            Some(next) => next.is(terminal),
        }
    }

    /// The same place, where the terminal was looked for too.
    pub fn without(self, terminal: Terminal) -> Cursor<'a>
        ensures { cursor_place result ≡ without (same terminal) (cursor_place self.entry) }
    {
        Cursor {
            rest: self.rest,
            next: self.next,
            tried: lesser(self.tried, terminal),
        }
    }

    /// The next token, which is to be the terminal.
    pub fn expect(self, terminal: Terminal) -> Result<(&'a Token, Cursor<'a>), Stop<'a>>
        ensures { IsTokenOf (the terminal) self.entry result }
    {
        match self.rest.split_first() {
            None => Err(Stop::Refused(self.without(terminal))),
            Some((token, rest)) => {
                if self.is(terminal) {
                    Ok((token, Cursor::at(rest)))
                } else {
                    Err(Stop::Refused(self.without(terminal)))
                }
            }
        }
    }

    /// The next token, where it is the terminal.
    #[tactic(auto, unfolding(crate::specs::Grammar::optional))]
    pub fn optional(self, terminal: Terminal) -> Result<(Option<&'a Token>, Cursor<'a>), Stop<'a>>
        ensures { IsTokenIfThere (optional terminal) self.entry result }
    {
        if self.is(terminal) {
            let (token, cursor) = self.expect(terminal)?;
            return Ok((Some(token), cursor));
        }
        Ok((None, self.without(terminal)))
    }
}
