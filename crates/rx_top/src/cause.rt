//! Why a file of a plan's run is refused.

ghost use Rattle.std.specs.Prelude.{◌≡◌};
ghost use Rattle.rx_top.specs.Inputs.{cause_text};

use rx_script::{LineWhy, PlanWhy};
use xg_lex::Text;

/// Why a line of a file is refused, or the whole of it.
#[derive(Debug, Drop)]
pub enum Cause {
    /// The bytes of the file are no text in UTF-8.
    NoText,
    /// The text of the interface file means no interface; this is its first fault as it is printed.
    Xg(Text),
    /// The line of a script or of a plan isn't taken.
    Line(LineWhy),
    /// The line of the plan is refused as it runs.
    Run(PlanWhy),
}

impl Cause {
    /// Its words as they are printed.
    pub fn as_str(&self) -> &str
        ensures { result.now ≡ cause_text self.now }
    {
        match self {
            Cause::NoText => "word",
            Cause::Xg(why) => why.as_str(),
            Cause::Line(why) => why.as_str(),
            Cause::Run(why) => why.as_str(),
        }
    }
}
