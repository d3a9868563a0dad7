//! The tree of an interface file, or the first token that no text of the grammar has there.
//!
//! A contract sees a `Tree` and a `ParseFault` as they are written here. `Rule` of
//! `specs/Rules.antt` is a grammar as data: `Derives` says which tokens a rule has and what it gives
//! of them. `specs/Grammar.antt` is the grammar of interface files, rule by rule as it is written.
//! `IsTreeOf` says which tree tokens have, `IsFirstRefusal` which token is refused and what is wanted.
//! The next terminal decides at each place which way to go, so no token is read twice.
#![tactic(auto)]

mod consts;
mod cursor;
mod decls;
mod fault;
mod items;
mod lists;
mod out_word;
mod parser;
mod procs;
mod terminal;
mod tree;
mod unions;
mod words;

pub use fault::ParseFault;
pub use out_word::OutWord;
pub use parser::parse;
pub use terminal::Terminal;
pub use tree::{
    ArgItem, ArmItem, ConstWord, Decl, Form, Item, KindWord, MembItem, ModeWord, Part, Tree,
    TypeWord,
};
