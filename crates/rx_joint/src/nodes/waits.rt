//! What a run asks of all nodes: whether a call lives, how late it is, and how long it is until something is due.
ghost use Rattle.std.specs.Prelude.{◌≡◌, ◌<◌, ◌-◌, ◌∷◌, IfSome, List, map, option_map, slice_get};
ghost use Rattle.std.specs.List.{list_any};
ghost use Rattle.rx_model.specs.declared.event.Noted.{Noted};
ghost use Rattle.rx_history.specs.Sides.{side};
ghost use Rattle.rx_rules.specs.After.{looks};
ghost use Rattle.rx_rules.specs.Slots.{live};
ghost use Rattle.rx_joint.specs.Nodes.{ClientsStand, IsClientThere, Standing, client_node, moments_of, nodes_of};
ghost use Rattle.rx_events.specs.Waits as times;

use crate::nodes::{ClientAt, Nodes};
use rx_due::Steps;
use std::marker::Brand;
use std::sync::ledger::{Blank, Ledger};

impl Nodes {
    /// Whether a call lives at any node.
    pub fn any_lives(&self) -> bool
        ensures { (h : List Noted) → Standing self.now h → result ≡ times.any_lives (nodes_of self.now) h }
    {
        if self.server.live() > 0 {
            return true;
        }
        any_client_lives(self.clients.as_slice())
    }

    /// How many calls of a client live.
    pub fn live(&self, node: u32) -> u32
        requires { IsClientThere self.now node }
        ensures { (h : List Noted) → Standing self.now h →
            IfSome (slice_get (nodes_of self.now) node) (λ n. result ≡ live (looks n.setup (side node h))) }
    {
        self.client(node).live()
    }

    /// Whether a node's moment is later than this one, in milliseconds.
    pub fn is_later(&self, now: u64) -> bool
        ensures { result ≡ times.is_later now (moments_of self.now) }
    {
        if self.server.moment() > now {
            return true;
        }
        is_client_later(self.clients.as_slice(), now)
    }

    /// The latest moment of a node, in milliseconds.
    pub fn latest_moment(&self) -> u64
        ensures { result ≡ times.latest (moments_of self.now) }
    {
        latest_of_clients(self.clients.as_slice(), self.server.moment())
    }

    /// The least time from a node's moment to what is due there next, in milliseconds; none where nothing is.
    pub fn least_wait(&self) -> Option<u64>
        ensures { (h : List Noted) → Standing self.now h → result ≡ times.least_wait (nodes_of self.now) h }
    {
        self.least_wait_counted::<Brand>(Blank::new(1))
    }

    fn least_wait_counted<L: Ledger>(&self, blank: Blank) -> Option<u64>
        requires name { blank.name ≡ L.name }
        requires parts { blank.parts ≡ L.parts }
        requires counts { 0 < blank.parts }
        ensures { (h : List Noted) → Standing self.now h → result ≡ times.least_wait (nodes_of self.now) h }
    {
        let mut steps = Steps::<L>::new(blank);
        let served = wait_of(self.server.due(&mut steps), self.server.moment());
        least_of_clients(self.clients.as_slice(), served, &mut steps)
    }
}

/// Whether a call lives at a client.
fn any_client_lives(clients: &[ClientAt]) -> bool
    ensures { (h : List Noted) → ClientsStand clients.now h →
        result ≡ list_any (λ b. b) (times.over_nodes (times.lives_at h) 1 (map client_node clients.now)) }
{
    for at in clients {
        if at.client.live() > 0 {
            return true;
        }
    }
    false
}

/// Whether a client's moment is later.
fn is_client_later(clients: &[ClientAt], now: u64) -> bool
    ensures { result ≡ times.is_later now (map (λ c. c.client.moment) clients.now) }
{
    for at in clients {
        if at.client.moment() > now {
            return true;
        }
    }
    false
}

/// The latest moment of clients and this one.
fn latest_of_clients(clients: &[ClientAt], first: u64) -> u64
    ensures { result ≡ times.latest (first ∷ map (λ c. c.client.moment) clients.now) }
{
    let mut latest = first;
    for at in clients {
        latest = latest.max(at.client.moment());
    }
    latest
}

/// The least of the times of clients and this one.
fn least_of_clients<L: Ledger>(
    clients: &[ClientAt],
    first: Option<u64>,
    steps: &mut Steps<L>,
) -> Option<u64>
    ensures { (h : List Noted) → ClientsStand clients.now h →
        result ≡ times.lesser first (times.least_of
        (times.over_nodes (times.wait_at h) 1 (map client_node clients.now))) }
{
    let mut least = first;
    for at in clients {
        let wait = wait_of(at.client.due(steps), at.client.moment());
        least = lesser(least, wait);
    }
    least
}

/// How long it is from a moment to what is due.
fn wait_of(due: Option<u64>, moment: u64) -> Option<u64>
    ensures { result ≡ option_map (λ m. m - moment) due }
{
    match due {
        Some(due) => Some(due.saturating_sub(moment)),
        None => None,
    }
}

/// The lesser of two times that are there.
fn lesser(a: Option<u64>, b: Option<u64>) -> Option<u64>
    ensures { result ≡ times.lesser a b }
{
    match (a, b) {
        (Some(a), Some(b)) => Some(a.min(b)),
        (Some(a), None) => Some(a),
        (None, b) => b,
    }
}
