ghost use Rattle.std.specs.Prelude.{◌≡◌, ◌≤◌, ◌++◌, ◌∷◌, List, [], Some, IfOk, OnErr, OnOk, length};
ghost use Rattle.std.specs.Borrow.{sem};
ghost use Rattle.rx_model.specs.declared.event.Noted.{Noted};
ghost use Rattle.rx_rules.specs.Setup as setups;
ghost use Rattle.rx_history.specs.Sides.{moment};
ghost use Rattle.rx_law.specs.Worlds.{AreOf};
ghost use Rattle.rx_token.specs.Chosen.{chosen, secret_of};
ghost use Rattle.rx_joint.specs.Nodes.{IsClientThere, IsNodeThere, Standing, client_of, host_of, moment_of, nodes_of};

use rx_client::Client;
use rx_model::{Host, Limits};
use rx_server::Server;
use rx_token::Chosen;
use std::alloc::{AllocError, Global};
use std::marker::Model;

mod calling;
mod handling;
mod waits;
mod wires;

/// The server's number among the nodes. The k-th client, from 1 on, has the number k.
pub const SERVER: u32 = 0;

/// What the server's number is.
pub fn server_number()
    ensures { SERVER ≡ 0 }
{}

/// A client with its host.
#[derive(Debug, Drop)]
pub struct ClientAt {
    pub host: Host,
    pub client: Client<Chosen>,
}

/// A server and clients.
#[derive(Debug, Drop)]
pub struct Nodes {
    host: Host,
    server: Server<Chosen>,
    clients: Vec<ClientAt>,
}

impl Model for Nodes {
    ghost use Rattle.rx_joint.specs.Nodes.{NodesState};

    ghost Value = { NodesState };

    ghost view = { λ s. record { host = s.host; server = s.server; clients = s.clients.items } };
}

impl Nodes {
    ghost use Rattle.rx_joint.specs.Lending.{LendsClient, LendsServer};

    /// A server alone, at the start of its life.
    pub fn make(
        alloc: Global,
        host: Host,
        service: u16,
        limits: &Limits,
        class: Chosen,
        nonces: u64,
    ) -> Result<Nodes, AllocError>
        requires { setups.FitsLimits limits.now }
        ensures stands { IfOk result (λ n. Standing n []) }
        ensures nodes { IfOk result (λ n. nodes_of n ≡ record {
          host = host;
          setup = setups.unprompted (setups.Server service nonces) limits.now (chosen (secret_of class));
        } ∷ []) }
    {
        let server = Server::make(alloc, limits, service, class, nonces)?;
        Ok(Nodes {
            host,
            server,
            clients: Vec::new(alloc),
        })
    }

    /// One client more, at the start of its life.
    pub fn add_client(
        &mut self,
        alloc: Global,
        host: Host,
        epoch: u32,
        limits: &Limits,
        class: Chosen,
    ) -> Result<(), AllocError>
        requires { setups.FitsLimits limits.now }
        ensures stands { (h : List Noted) → AreOf (nodes_of self.old) h → Standing self.old h → Standing self.new h }
        ensures nodes { OnOk result (nodes_of self.new ≡ nodes_of self.old ++ record {
          host = host;
          setup = setups.unprompted (setups.Client host epoch) limits.now (chosen (secret_of class));
        } ∷ []) }
        ensures same { OnErr result (self.new ≡ self.old) }
    {
        let client = Client::make(alloc, limits, host, epoch, class)?;
        self.clients.push(ClientAt { host, client })?;
        Ok(())
    }

    /// How many clients there are.
    pub fn clients(&self) -> usize
        ensures { result ≡ length self.now.clients }
    {
        self.clients.len()
    }

    /// The host of a node.
    pub fn host(&self, node: u32) -> Host
        requires { IsNodeThere self.now node }
        ensures { result ≡ host_of self.now node }
    {
        if node == SERVER {
            return self.host;
        }
        self.clients[node as usize - 1].host
    }

    /// The moment of a node, in milliseconds.
    pub fn moment(&self, node: u32) -> u64
        requires { IsNodeThere self.now node }
        ensures value { result ≡ moment_of self.now node }
        ensures exact { (h : List Noted) → Standing self.now h → result ≡ moment node h }
    {
        if node == SERVER {
            return self.server.moment();
        }
        self.client(node).moment()
    }

    /// A client.
    fn client(&self, node: u32) -> &Client<Chosen>
        requires { IsClientThere self.now node }
        ensures { client_of self.now node ≡ Some result.now }
    {
        &self.clients[node as usize - 1].client
    }

    /// A client, to make a call of it.
    pub fn client_mut(&mut self, node: u32) -> &mut Client<Chosen>
        requires { IsClientThere self.old node }
        ensures* writes_back { sem 𝓛 (LendsClient self.entry node result) }
        ensures value { client_of self.old node ≡ Some result.now }
    {
        let at = &mut self.clients[node as usize - 1];
        &mut at.client
    }

    /// The server, to make a call of it.
    pub fn server_mut(&mut self) -> &mut Server<Chosen>
        ensures* writes_back { sem 𝓛 (LendsServer self.entry result) }
        ensures value { result.now ≡ self.old.server }
    {
        &mut self.server
    }
}
