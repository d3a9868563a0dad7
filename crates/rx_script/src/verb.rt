//! The first words of lines: one table for scripts, plans and plans of peers.

ghost use Rattle.std.specs.Prelude.{◌≡◌};
ghost use Rattle.rx_script.specs.Verbs.{verb_text, verb_in};

/// The first word of a line.
#[derive(Clone, Copy, Debug, PartialEq, Eq)]
pub enum Verb {
    On,
    Wait,
    Up,
    Down,
    When,
    Fail,
    Set,
    Copy,
    Size,
    Count,
    Echo,
    Send,
    Server,
    Client,
    Peer,
    Connect,
    Call,
    Write,
    Shut,
    Read,
    Ask,
    Cancel,
    Accept,
    Finish,
    Poll,
    Deliver,
    Jumbo,
    Forge,
    Clock,
    Invoke,
    Turn,
    Round,
    Rounds,
    Lossy,
}

/// How many first words there are.
pub const VERB_COUNT: usize = 34;

/// The first words that lines may have.
pub const VERBS: [Verb; VERB_COUNT] = [
    Verb::On,
    Verb::Wait,
    Verb::Up,
    Verb::Down,
    Verb::When,
    Verb::Fail,
    Verb::Set,
    Verb::Copy,
    Verb::Size,
    Verb::Count,
    Verb::Echo,
    Verb::Send,
    Verb::Server,
    Verb::Client,
    Verb::Peer,
    Verb::Connect,
    Verb::Call,
    Verb::Write,
    Verb::Shut,
    Verb::Read,
    Verb::Ask,
    Verb::Cancel,
    Verb::Accept,
    Verb::Finish,
    Verb::Poll,
    Verb::Deliver,
    Verb::Jumbo,
    Verb::Forge,
    Verb::Clock,
    Verb::Invoke,
    Verb::Turn,
    Verb::Round,
    Verb::Rounds,
    Verb::Lossy,
];

impl Verb {
    /// The word.
    pub fn as_str(self) -> &'static str
        ensures { result.now ≡ verb_text self }
    {
        match self {
            Verb::On => "on",
            Verb::Wait => "wait",
            Verb::Up => "up",
            Verb::Down => "down",
            Verb::When => "when",
            Verb::Fail => "fail",
            Verb::Set => "set",
            Verb::Copy => "copy",
            Verb::Size => "size",
            Verb::Count => "count",
            Verb::Echo => "echo",
            Verb::Send => "send",
            Verb::Server => "server",
            Verb::Client => "client",
            Verb::Peer => "peer",
            Verb::Connect => "connect",
            Verb::Call => "call",
            Verb::Write => "write",
            Verb::Shut => "shut",
            Verb::Read => "read",
            Verb::Ask => "ask",
            Verb::Cancel => "cancel",
            Verb::Accept => "accept",
            Verb::Finish => "finish",
            Verb::Poll => "poll",
            Verb::Deliver => "deliver",
            Verb::Jumbo => "jumbo",
            Verb::Forge => "forge",
            Verb::Clock => "clock",
            Verb::Invoke => "invoke",
            Verb::Turn => "turn",
            Verb::Round => "round",
            Verb::Rounds => "rounds",
            Verb::Lossy => "lossy",
        }
    }
}

/// Which of these a word is.
fn verb_among(verbs: &[Verb], word: &str) -> Option<Verb>
    ensures { result ≡ verb_in verbs.now word.now }
{
    for verb in verbs {
        if verb.as_str() == word {
            return Some(*verb);
        }
    }
    None
}

/// The first word of a line that a word is.
pub fn verb_in(word: &str) -> Option<Verb>
    ensures { result ≡ verb_in VERBS word.now }
{
    verb_among(&VERBS, word)
}
