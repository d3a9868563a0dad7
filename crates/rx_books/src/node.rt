ghost use Rattle.std.specs.Prelude.{◌≡◌, ◌≤◌, ◌<◌, ◌*◌, ◌/◌, Some, None, length, IfOk, IfSome, Option, drop};
ghost use Rattle.std.specs.Prelude.{option_map};
ghost use Rattle.rx_due.specs.Cost.{AtMost};
ghost use Rattle.rx_rules.specs.Looks.{Looks, at_start};
ghost use Rattle.rx_rules.specs.Setup.{FitsSetup};
ghost use Rattle.rx_node.specs.Kinds.{kind_of};
ghost use Rattle.rx_node.specs.Mirrors.{Mirrors};
ghost use Rattle.rx_node.specs.Node.{KeepsNode, setup_of};
ghost use Rattle.rx_node.specs.Steps.{AnswersNode, given_count, given_from};
ghost use Rattle.rx_model.specs.declared.wire.TheConstants.{DATAGRAM_BYTES};
ghost use Rattle.rx_rules.specs.Items.{deaths, due as rules_due, items};
ghost use Rattle.rx_rules.specs.Least.{least_by};
ghost use Rattle.rx_node.specs.Due.{AreDueAs, CanGive, lesser_of, unsilenced};
ghost use Rattle.rx_model.specs.declared.event.Event.TheVariants as events;
ghost use Rattle.rx_books.specs.Costs.{AtMostForPoll};
ghost use Rattle.rx_books.specs.Polled.{Polled};

use crate::books::Books;
use crate::silence::end_silent;
use rx_class::Class;
use rx_due::Steps;
use rx_model::{Host, Limits};
use rx_node::{Due, Kind, Node as Core};
use rx_table::CHANNELS;
use std::alloc::{AllocError, Global};
use std::marker::Model;
use std::sync::ledger::Ledger;

mod accepting;
mod changes;
mod views;

pub use changes::is_response;

/// A node, with its books. What is said of it is said of the node that it holds; the books have of each channel what
/// that node says of it.
#[derive(Debug, Drop)]
pub struct Node<C: Class> {
    core: Core<C>,
    books: Books,
}

impl<C: Class> Model for Node<C> {
    ghost use Rattle.rx_node.specs.Node.{NodeState};
    ghost use Rattle.rx_books.specs.Books.{IsBooked};

    ghost Value = { NodeState };

    ghost view = { λ n. n.core };

    ghost invariant = { λ n. IsBooked n.core n.books };
}

impl<C: Class> Node<C> {
    /// A node to which nothing happened yet, with all the memory that it will need; a prompt one asks for
    /// an acknowledgement behind each half of a call's window.
    pub fn make(
        alloc: Global,
        kind: Kind,
        limits: &Limits,
        prompt: bool,
        class: C,
    ) -> Result<Node<C>, AllocError>
        requires { FitsSetup (record {
          kind = kind_of kind;
          limits = limits.now;
          prompt = prompt;
          class = C.class_of (C.secret class);
        }) }
        ensures empty { IfOk result (λ n. Mirrors C.class_of n at_start) }
        ensures kind { IfOk result (λ n. n.kind ≡ kind_of kind) }
        ensures limits { IfOk result (λ n. n.limits ≡ limits.now) }
        ensures prompt { IfOk result (λ n. n.prompt ≡ prompt) }
        ensures class { IfOk result (λ n. n.secret ≡ C.secret class) }
    {
        let core = Core::make(alloc, kind, limits, prompt, class)?;
        let books = Books::make(alloc, CHANNELS * limits.conns)?;
        Ok(Node { core, books })
    }

    /// Ends silent calls, then writes the next datagram that is due to the front of the buffer, the oldest stray abort
    /// before all others, and answers the host that it is for and its length in bytes; none where nothing is due.
    pub fn poll<L: Ledger>(&mut self, to: &mut [u8], steps: &mut Steps<L>) -> Option<(Host, usize)>
        requires { DATAGRAM_BYTES ≤ length to.old }
        ensures answered { AnswersNode C.class_of self.old self.new (events.Polled (given_from result to.new)) }
        ensures dimmed { (l : Looks) → Mirrors C.class_of self.old l → Polled C.class_of self.new l }
        ensures rest { drop (given_count result) to.new ≡ drop (given_count result) to.old }
        ensures same { KeepsNode self.old self.new }
        ensures steps { (l : Looks) → Mirrors C.class_of self.old l → AtMostForPoll l steps.old steps.new }
    {
        end_silent(&mut self.core, &mut self.books, steps);
        let _limits = self.core.limits();
        if let Some(given) = self.core.give_stray(to) {
            return Some(given);
        }
        let due = self.least_due(steps)?;
        if due.rank > self.core.moment() {
            return None;
        }
        let given = self.core.give(&due, to, steps);
        self.books.refresh(&self.core, due.key, steps);
        Some(given)
    }

    /// From which moment on, in milliseconds, a poll would do something; none where no call lives that isn't broken,
    /// and nothing is owed.
    pub fn due<L: Ledger>(&self, steps: &mut Steps<L>) -> Option<u64>
        ensures value { (l : Looks) → Mirrors C.class_of self.now l
            → result ≡ rules_due (setup_of C.class_of self.now) l }
        ensures steps { AtMost 4 steps.old steps.new }
    {
        if self.core.has_stray() {
            return Some(self.core.moment());
        }
        let least = self.least_moment(steps)?;
        Some(least.max(self.core.moment()))
    }

    /// The least moment of an item or a death.
    fn least_moment<L: Ledger>(&self, steps: &mut Steps<L>) -> Option<u64>
        ensures value { (l : Looks) → Mirrors C.class_of self.now l → result ≡ lesser_of (λ moment. moment)
            (option_map (λ i. i.rank) (least_by (λ i. i.rank) (items (setup_of C.class_of self.now) (unsilenced l))))
            (least_by (λ moment. moment) (deaths l.calls)) }
        ensures steps { AtMost 2 steps.old steps.new }
    {
        let _kind = self.core.kind();
        let rank = moment_of(self.books.first_due(steps));
        let death = moment_of(self.books.first_death(steps));
        earlier(rank, death)
    }

    /// The item of least rank, of the lowest channel among equals.
    fn least_due<L: Ledger>(&self, steps: &mut Steps<L>) -> Option<Due>
        ensures given { IfSome result (CanGive self.now) }
        ensures least { (l : Looks) → Mirrors C.class_of self.now l → let s = setup_of C.class_of self.now in
            AreDueAs s l result (least_by (λ i. i.rank) (items s (unsilenced l))) }
        ensures steps { AtMost 2 steps.old steps.new }
    {
        let _kind = self.core.kind();
        let (_rank, key) = self.books.first_due(steps)?;
        self.core.due_on(key, steps)
    }
}

/// The moment of an entry of a book.
fn moment_of(entry: Option<(u64, u32)>) -> Option<u64>
    ensures { result ≡ option_map (λ pair. pair.0) entry }
{
    match entry {
        Some((moment, _key)) => Some(moment),
        None => None,
    }
}

/// The earlier moment.
fn earlier(before: Option<u64>, next: Option<u64>) -> Option<u64>
    ensures { result ≡ lesser_of (λ moment. moment) before next }
{
    match (before, next) {
        (Some(a), Some(b)) => Some(if a <= b { a } else { b }),
        (Some(a), None) => Some(a),
        (None, next) => next,
    }
}
