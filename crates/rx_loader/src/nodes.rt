//! The nodes of a load: one server, and four clients.
ghost use Rattle.std.specs.Prelude.{[], ◌≡◌, ◌≤◌, IfOk, List};
ghost use Rattle.rx_load.specs.Loads.{load_host, load_limits, load_nodes};
ghost use Rattle.rx_model.specs.declared.event.Noted.{Noted};
ghost use Rattle.rx_joint.specs.Nodes.{Standing, nodes_of};

use rx_joint::{Nodes, SERVER};
use rx_load::{CLIENT_PORT, CLIENTS, FIRST_ADDR, SERVER_PORT, SERVICE};
use rx_model::wire::{DEFAULT_CALLS, DEFAULT_CONNS, DEFAULT_SLOTS, DEFAULT_WINDOW};
use rx_model::{Host, Limits};
use rx_token::Chosen;
use std::alloc::{AllocError, Global};

/// The limits of each node.
fn limits() -> Limits
    ensures { result ≡ load_limits }
{
    Limits {
        conns: DEFAULT_CONNS,
        calls: DEFAULT_CALLS,
        slots: DEFAULT_SLOTS,
        window: DEFAULT_WINDOW,
    }
}

/// The host of a node.
fn host(node: u32) -> Host
    requires { node ≤ CLIENTS }
    ensures { result ≡ load_host node }
{
    let port = if node == SERVER {
        SERVER_PORT
    } else {
        CLIENT_PORT
    };
    Host {
        addr: FIRST_ADDR + node,
        port,
    }
}

/// The nodes, at their start.
pub fn nodes(alloc: Global) -> Result<Nodes, AllocError>
    ensures nodes { IfOk result (λ nodes. nodes_of nodes ≡ load_nodes) }
    ensures stands { IfOk result (λ nodes. Standing nodes []) }
{
    let mut nodes = Nodes::make(alloc, host(SERVER), SERVICE, &limits(), Chosen::Null, 0)?;
    for client in 1..CLIENTS + 1 {
        nodes.add_client(alloc, host(client), client, &limits(), Chosen::Null)?;
    }
    Ok(nodes)
}
