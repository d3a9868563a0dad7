//! The names of commands and of options.

ghost use Rattle.std.specs.Prelude.{◌≡◌};
ghost use Rattle.rx_words.specs.Names.{command_named, command_text, option_text, options_of};

/// The name of a command.
#[derive(Clone, Copy, Debug, PartialEq, Eq)]
pub enum CommandName {
    Sim,
    Serve,
    Call,
    Compile,
    Load,
    Peers,
}

/// The name of an option.
#[derive(Clone, Copy, Debug, PartialEq, Eq)]
pub enum OptionName {
    Xg,
    Script,
    At,
    To,
    From,
    Epoch,
    Service,
    For,
    Turns,
    Conns,
    Calls,
    Slots,
    Window,
    Key,
    Nonce,
    Jumbo,
    Up,
    Down,
}

/// What stands in the place of an interface's file.
pub const XG: &str = "XG";

/// What stands in the place of a script's file.
pub const SCRIPT: &str = "SCRIPT";

/// What stands in the place of a plan's file.
pub const PLAN: &str = "PLAN";

/// What stands in the place of a procedure.
pub const PROC: &str = "PROC";

/// What stands in the place of the arguments.
pub const ARGS: &str = "ARGS";

static SIM_PLACES: [&str; 1] = [PLAN];

static SERVE_PLACES: [&str; 2] = [XG, SCRIPT];

static CALL_PLACES: [&str; 3] = [XG, PROC, ARGS];

static COMPILE_PLACES: [&str; 1] = [XG];

static LOAD_PLACES: [&str; 2] = ["NUMBER", "CALLS"];

static PEERS_PLACES: [&str; 3] = [XG, SCRIPT, PLAN];

static SIM_OPTIONS: [OptionName; 2] = [OptionName::Xg, OptionName::Script];

static SERVE_OPTIONS: [OptionName; 11] = [
    OptionName::At,
    OptionName::Service,
    OptionName::For,
    OptionName::Turns,
    OptionName::Conns,
    OptionName::Calls,
    OptionName::Slots,
    OptionName::Window,
    OptionName::Key,
    OptionName::Nonce,
    OptionName::Jumbo,
];

static CALL_OPTIONS: [OptionName; 10] = [
    OptionName::To,
    OptionName::Epoch,
    OptionName::From,
    OptionName::Service,
    OptionName::Turns,
    OptionName::Up,
    OptionName::Down,
    OptionName::Window,
    OptionName::Key,
    OptionName::Jumbo,
];

static NO_OPTIONS: [OptionName; 0] = [];

impl CommandName {
    /// The command of this name.
    pub fn named(word: &str) -> Option<CommandName>
        ensures { result ≡ command_named word.now }
    {
        if word == "sim" {
            return Some(CommandName::Sim);
        }
        if word == "serve" {
            return Some(CommandName::Serve);
        }
        if word == "call" {
            return Some(CommandName::Call);
        }
        if word == "compile" {
            return Some(CommandName::Compile);
        }
        if word == "load" {
            return Some(CommandName::Load);
        }
        if word == "peers" {
            return Some(CommandName::Peers);
        }
        None
    }

    /// Its plain words, by what they stand for.
    pub fn places(self) -> &'static [&'static str] {
        match self {
            CommandName::Sim => SIM_PLACES.as_slice(),
            CommandName::Serve => SERVE_PLACES.as_slice(),
            CommandName::Call => CALL_PLACES.as_slice(),
            CommandName::Compile => COMPILE_PLACES.as_slice(),
            CommandName::Load => LOAD_PLACES.as_slice(),
            CommandName::Peers => PEERS_PLACES.as_slice(),
        }
    }

    /// Its options.
    pub fn options(self) -> &'static [OptionName]
        ensures { result.now ≡ options_of self }
    {
        match self {
            CommandName::Sim => SIM_OPTIONS.as_slice(),
            CommandName::Serve => SERVE_OPTIONS.as_slice(),
            CommandName::Call => CALL_OPTIONS.as_slice(),
            CommandName::Compile | CommandName::Load | CommandName::Peers => NO_OPTIONS.as_slice(),
        }
    }
}

impl OptionName {
    /// The text behind its two dashes.
    pub fn as_str(self) -> &'static str
        ensures { result.now ≡ option_text self }
    {
        match self {
            OptionName::Xg => "xg",
            OptionName::Script => "script",
            OptionName::At => "at",
            OptionName::To => "to",
            OptionName::From => "from",
            OptionName::Epoch => "epoch",
            OptionName::Service => "service",
            OptionName::For => "for",
            OptionName::Turns => "turns",
            OptionName::Conns => "conns",
            OptionName::Calls => "calls",
            OptionName::Slots => "slots",
            OptionName::Window => "window",
            OptionName::Key => "key",
            OptionName::Nonce => "nonce",
            OptionName::Jumbo => "jumbo",
            OptionName::Up => "up",
            OptionName::Down => "down",
        }
    }
}
