//! The tree of an interface file, in the order of the text.

use xg_lex::{Items, Text};

/// The items of a file.
#[derive(Debug, Drop)]
pub struct Tree {
    pub items: Items<Item>,
}

/// An item, with the line of its first token.
#[derive(Debug, Drop)]
pub struct Item {
    pub line: u32,
    pub part: Part,
}

/// What an item says.
#[derive(Debug, Drop)]
pub enum Part {
    Package(Text),
    Prefix(Text),
    StatIndex(ConstWord),
    StartingOpcode(ConstWord),
    Const {
        name: Text,
        value: ConstWord,
    },
    Typedef(Decl),
    Enum {
        name: Text,
        members: Items<MembItem>,
    },
    Struct {
        name: Text,
        fields: Items<Decl>,
    },
    Union {
        name: Text,
        tag: TypeWord,
        tag_name: Text,
        arms: Items<ArmItem>,
        otherwise: Option<ArmItem>,
    },
    Proc {
        name: Text,
        args: Items<ArgItem>,
        kind: Option<KindWord>,
        opcode: Option<ConstWord>,
    },
}

/// A constant: a number with its sign, or a name.
#[derive(Debug, Drop)]
pub enum ConstWord {
    Literal { minus: bool, number: u64 },
    Name(Text),
}

/// A type: its words, joined by one space, or a name without the word before it.
#[derive(Debug, Drop)]
pub enum TypeWord {
    Base(Text),
    Name(Text),
}

/// The word behind the arguments of a procedure.
#[derive(Clone, Copy, Debug, PartialEq, Eq)]
pub enum KindWord {
    Split,
    Multi,
}

/// The direction of an argument.
#[derive(Clone, Copy, Debug, PartialEq, Eq)]
pub enum ModeWord {
    In,
    Out,
    InOut,
}

/// A member of an enum, and the value that it gives.
#[derive(Debug, Drop)]
pub struct MembItem {
    pub name: Text,
    pub value: Option<ConstWord>,
}

/// An arm of a union: a void arm has no declaration, a default arm no cases.
#[derive(Debug, Drop)]
pub struct ArmItem {
    pub cases: Items<ConstWord>,
    pub decl: Option<Decl>,
}

/// An argument of a procedure, and the direction that it gives.
#[derive(Debug, Drop)]
pub struct ArgItem {
    pub mode: Option<ModeWord>,
    pub decl: Decl,
}

/// What is declared: its name and its form.
#[derive(Debug, Drop)]
pub struct Decl {
    pub name: Text,
    pub form: Form,
}

/// The form of a declaration.
#[derive(Debug, Drop)]
pub enum Form {
    /// `T x`
    Plain(TypeWord),
    /// `T *x`
    Star(TypeWord),
    /// `T x[n]`
    Fixed(TypeWord, ConstWord),
    /// `T x<n>` or `T x<>`
    UpTo(TypeWord, Option<ConstWord>),
    /// `opaque x[n]`
    Opaque(ConstWord),
    /// `opaque x<n>` or `opaque x<>`
    OpaqueUpTo(Option<ConstWord>),
    /// `string x<n>` or `string x<>`
    Text(Option<ConstWord>),
}

/// The bound behind a name: `[n]`, or `<n>` or `<>`.
#[derive(Debug, Drop)]
pub enum Bound {
    Fixed(ConstWord),
    UpTo(Option<ConstWord>),
}

/// What a declaration adds to its type.
#[derive(Debug, Drop)]
pub enum Suffix {
    Star,
    Bound(Option<Bound>),
}
