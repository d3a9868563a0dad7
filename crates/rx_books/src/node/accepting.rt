//! A call is given to its handler, by counted steps.

ghost use Rattle.std.specs.Prelude.{◌+◌, ◌*◌, ◌^◌, ◌<◌, ℕ, length};
ghost use Rattle.rx_due.specs.Cost.{AtMost};
ghost use Rattle.rx_rules.specs.Life.{after_accept};
ghost use Rattle.rx_rules.specs.Looks.{latest_name, on_life};
ghost use Rattle.rx_node.specs.Mirrors.{IsKey, StepsAt};
ghost use Rattle.rx_node.specs.Node.{KeepsNode};
ghost use Rattle.rx_table.specs.declared.seat.TheConstants.{CHANNELS};

use crate::node::Node;
use rx_class::Class;
use rx_due::Steps;
use rx_node::Turn;
use std::sync::ledger::Ledger;

impl<C: Class> Node<C> {
    /// A channel's call that waits is given to a handler.
    pub fn accept<L: Ledger>(&mut self, key: u32, steps: &mut Steps<L>)
        requires { IsKey self.old key }
        ensures steps { StepsAt C.class_of self.old self.new key (λ ch l. on_life (latest_name l ch) after_accept l) }
        ensures same { KeepsNode self.old self.new }
        ensures steps_taken { (d : ℕ) → 2 * (CHANNELS * length self.old.table.conns) + 1 < 2 ^ (d + 1) →
            AtMost (16 * d + 18) steps.old steps.new }
    {
        self.core.turn(key, Turn::Accept);
        self.books.refresh(&self.core, key, steps);
    }
}
