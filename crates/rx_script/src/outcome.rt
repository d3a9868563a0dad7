//! How the run of a plan ends.

ghost use Rattle.std.specs.Prelude.{◌≡◌};
ghost use Rattle.rx_script.specs.Causes.{plan_why_text};

use std::fmt;

/// Why a line of a plan is refused as it runs.
#[derive(Clone, Copy, Debug, PartialEq, Eq)]
pub enum PlanWhy {
    /// A server line after another line, or a client line after one that makes no node.
    Late,
    /// The node of the line isn't there.
    NoNode,
    /// Fewer than K names of that kind were answered.
    NoCall,
    /// Fewer than K datagrams were given.
    NoPacket,
    /// The datagrams of the line can't be joined.
    Jumbo,
    /// The moment lies before a node's.
    ClockBack,
    /// Limits out of range, too many slots in all, or too many nodes.
    Slots,
    /// A poll gives a datagram where as many are kept as may be.
    Bag,
}

impl PlanWhy {
    /// Its word as it is printed.
    pub fn as_str(self) -> &'static str
        ensures { result.now ≡ plan_why_text self }
    {
        match self {
            PlanWhy::Late => "late",
            PlanWhy::NoNode => "nonode",
            PlanWhy::NoCall => "nocall",
            PlanWhy::NoPacket => "nopacket",
            PlanWhy::Jumbo => "jumbo",
            PlanWhy::ClockBack => "clockback",
            PlanWhy::Slots => "slots",
            PlanWhy::Bag => "bag",
        }
    }
}

impl fmt::Display for PlanWhy {
    ghost use Rattle.std.specs.Prelude.{Some};

    ghost output = { λ why. Some (plan_why_text why) };

    fn fmt<W: fmt::Write>(&self, f: &mut fmt::Formatter<W>) -> fmt::Result {
        f.write_str(self.as_str())
    }
}

/// How the run of a plan ended.
#[derive(Clone, Copy, Debug, PartialEq, Eq)]
pub enum Outcome {
    /// Every line was made, and its trace put.
    Ran,
    /// The line with this number in the text was refused; those before it happened and were put.
    Refused { line: u32, why: PlanWhy },
    /// The sink failed.
    SinkFault,
    OutOfMemory,
}
