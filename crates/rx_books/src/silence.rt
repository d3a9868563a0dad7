ghost use Rattle.std.specs.Prelude.{◌+◌, ◌*◌, ◌^◌, ◌<◌, ℕ, length};
ghost use Rattle.rx_due.specs.Cost.{AtMost};
ghost use Rattle.rx_rules.specs.Looks.{Looks};
ghost use Rattle.rx_rules.specs.Records.{silenced};
ghost use Rattle.rx_node.specs.Mirrors.{Mirrors, StepsNode};
ghost use Rattle.rx_node.specs.Node.{KeepsNode};
ghost use Rattle.rx_books.specs.Books.{IsBooked};
ghost use Rattle.rx_books.specs.Costs.{silent_count};
ghost use Rattle.rx_table.specs.declared.seat.TheConstants.{CHANNELS};

use crate::books::Books;
use rx_class::Class;
use rx_due::Steps;
use rx_node::Node as Core;
use std::sync::ledger::Ledger;

/// Calls of which nothing was heard for 12,000 milliseconds end (`RX_DEAD_TIME`): the book of silences names them.
pub fn end_silent<C: Class, L: Ledger>(core: &mut Core<C>, books: &mut Books, steps: &mut Steps<L>)
    requires { IsBooked core.old books.old }
    ensures silenced { StepsNode C.class_of core.old core.new silenced }
    ensures booked { IsBooked core.new books.new }
    ensures same { KeepsNode core.old core.new }
    ensures steps { (l : Looks) (d : ℕ) → Mirrors C.class_of core.old l →
        2 * (CHANNELS * length l.conns) + 1 < 2 ^ (d + 1) →
        AtMost (silent_count l * (16 * d + 21) + 1) steps.old steps.new }
{
    'silent: while let Some(key) = books.silent(core.moment(), steps) {
        core.silence_on(key, steps);
        books.refresh(core, key, steps);
    }
}
