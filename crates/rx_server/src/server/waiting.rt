//! The calls that wait for a handler, and those of them that may be given to one.

ghost use Rattle.std.specs.Prelude.{◌≡◌, ◌<◌, ◌+◌, ◌*◌, ◌/◌, ◌^◌, ◌++◌, ◌∷◌, ℕ, [], true, false, length, IfSome};
ghost use Rattle.rx_rules.proofs.EveryLaws.{Every};
ghost use Rattle.rx_rules.specs.Looks.{Looks};
ghost use Rattle.rx_node.specs.Mirrors.{IsKey, Mirrors};
ghost use Rattle.rx_node.specs.Node.{setup_of};
ghost use Rattle.rx_queue.specs.Queue.{is_listed, is_ready};
ghost use Rattle.rx_server.specs.Accepting.{Paid};
ghost use Rattle.rx_server.specs.Handling.{IsFirst, enters_at};
ghost use Rattle.rx_server.specs.Server.{ReadyStand, admits_at};
ghost use Rattle.rx_table.specs.declared.seat.TheConstants.{CHANNELS};

use rx_books::{Life, Node};
use rx_class::Class;
use rx_due::Steps;
use rx_queue::Queue;
use rx_table::CHANNELS;
use std::sync::ledger::Ledger;

/// The first of the channels whose call may be given to a handler. Those that are ready before it, and whose call may
/// not be given to one, are held.
pub fn next_waiting<C: Class, L: Ledger>(
    firsts: &mut Queue,
    node: &Node<C>,
    steps: &mut Steps<L>,
) -> Option<u32>
    requires { Every (IsKey node.now) firsts.old.order }
    ensures order { firsts.new.order ≡ firsts.old.order }
    ensures room { length firsts.new.ready ≡ length firsts.old.ready }
    ensures ready { IfSome result (λ key. is_ready firsts.new key ≡ true) }
    ensures key { IfSome result (IsKey node.now) }
    ensures first { (l : Looks) → Mirrors C.class_of node.now l →
        ReadyStand (C.class_of node.now.secret).challenges firsts.new l →
        IsFirst (setup_of C.class_of node.now) l firsts.new.order result }
    ensures stands { (l : Looks) → Mirrors C.class_of node.now l →
        ReadyStand (C.class_of node.now.secret).challenges firsts.old l →
        ReadyStand (C.class_of node.now.secret).challenges firsts.new l }
    ensures steps { Paid 1 firsts.old.ready firsts.new.ready steps.old steps.new }
{
    'held: while let Some(key) = firsts.first(steps) {
        if can_enter(node, key) {
            return Some(key);
        }
        firsts.hold(key, steps);
    }
    None
}

/// Whether the call of a channel waits, and its client is proved where the class challenges.
fn can_enter<C: Class>(node: &Node<C>, key: u32) -> bool
    requires { IsKey node.now key }
    ensures { (l : Looks) → Mirrors C.class_of node.now l → result ≡ enters_at (setup_of C.class_of node.now) l key }
{
    let waits = node.life(key) == Some(Life::Waiting);
    waits && admits(node, key)
}

/// Whether the calls of a channel may be given to a handler: its client is proved, or the class doesn't challenge.
fn admits<C: Class>(node: &Node<C>, key: u32) -> bool
    requires { IsKey node.now key }
    ensures { (l : Looks) → Mirrors C.class_of node.now l →
        result ≡ admits_at (C.class_of node.now.secret).challenges l key }
{
    !node.class().challenges() || node.proved(key / CHANNELS)
}

/// The channel of a call whose packet 1 was kept comes behind all others, and is ready where the call may be given to a
/// handler.
pub fn list_behind<C: Class>(firsts: &mut Queue, node: &Node<C>, key: u32)
    requires key { IsKey node.now key }
    requires room { key < length firsts.old.ready }
    requires fresh { is_listed firsts.old key ≡ false }
    ensures order { firsts.new.order ≡ firsts.old.order ++ key ∷ [] }
    ensures room { length firsts.new.ready ≡ length firsts.old.ready }
    ensures keeps { (q : ℕ) → is_ready firsts.old q ≡ true → is_ready firsts.new q ≡ true }
    ensures ready { (l : Looks) → Mirrors C.class_of node.now l →
        admits_at (C.class_of node.now.secret).challenges l key ≡ true → is_ready firsts.new key ≡ true }
{
    firsts.push(key);
    if admits(node, key) {
        firsts.admit(key);
    }
}

/// The channels of a client that is proved now are ready, those of them that came.
pub fn admit_place(firsts: &mut Queue, place: u32)
    requires room { CHANNELS * place + 3 < length firsts.old.ready }
    requires low { place < 2 ^ 30 }
    ensures order { firsts.new.order ≡ firsts.old.order }
    ensures room { length firsts.new.ready ≡ length firsts.old.ready }
    ensures keeps { (q : ℕ) → is_ready firsts.old q ≡ true → is_ready firsts.new q ≡ true }
    ensures ready { (q : ℕ) → q / CHANNELS ≡ place → is_listed firsts.old q ≡ true → is_ready firsts.new q ≡ true }
{
    for chan in 0..CHANNELS {
        firsts.admit(CHANNELS * place + chan);
    }
}
