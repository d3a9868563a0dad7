//! What scripts say, block by block.

use rx_model::Bytes;
use xdr_value::Value;

/// A line of a block. `arg` and `from` are names of the procedure's arguments.
#[derive(Debug, Drop)]
pub enum ScriptLine {
    /// So many turns pass before the answer.
    Wait(u32),
    /// The request ends with a counted stream.
    Up,
    /// The reply begins with a counted stream.
    Down,
    /// The code is answered where the IN or INOUT argument has the value.
    When {
        arg: String,
        value: Value,
        code: i32,
    },
    /// The code is answered.
    Fail(i32),
    /// The OUT or INOUT argument gets the value.
    Set {
        arg: String,
        value: Value,
    },
    /// It gets the value of an IN or INOUT argument.
    Copy {
        arg: String,
        from: String,
    },
    /// It gets the number of bytes of an IN or INOUT argument.
    Size {
        arg: String,
        from: String,
    },
    /// It gets the number of bytes of the upload.
    Count(String),
    /// The download is the upload.
    Echo,
    /// The download is these bytes.
    Send(Bytes),
}

/// What is answered for a procedure, which goes by its name.
#[derive(Debug, Drop)]
pub struct Block {
    pub proc: String,
    pub lines: Vec<ScriptLine>,
}

/// What is answered: a block for each procedure that it speaks of, in the order of the text.
#[derive(Debug, Drop)]
pub struct Script {
    pub blocks: Vec<Block>,
}
