ghost use Rattle.std.specs.Prelude.{◌≡◌, ◌≤◌, ◌<◌, ◌+◌, ◌*◌, ◌/◌, ◌%◌, ◌^◌, ◌++◌, ◌∷◌, [], ℕ, Some, None, length};
ghost use Rattle.std.specs.Prelude.{slice_get};
ghost use Rattle.std.specs.Prelude.{IfOk, IfSome, IsNone, IsSomeAnd, false};
ghost use Rattle.std.specs.Borrow.{sem};
ghost use Rattle.rx_model.specs.Body as models;
ghost use Rattle.rx_model.specs.Names.{channel_of, connection_of, name_of};
ghost use Rattle.rx_model.specs.Strays.{last_of, stray_of as rules_stray_of};
ghost use Rattle.rx_packet.specs.Seen.{message_with_head};
ghost use Rattle.rx_rules.specs.Looks.{Looks, at_start};
ghost use Rattle.rx_rules.specs.Looks as rules;
ghost use Rattle.rx_rules.specs.Records.{fresh_conn, placed, used};
ghost use Rattle.rx_rules.specs.Life.{is_live};
ghost use Rattle.rx_rules.specs.Rules.{own_call};
ghost use Rattle.rx_rules.specs.Setup.{FitsSetup, client_host, is_client, nonce_of};
ghost use Rattle.rx_history.proofs.Order.Orderly.{Orderly};
ghost use Rattle.rx_table.specs.Records.{IsLongestIdle, idle_since, place_of, record_at, seat_at};
ghost use Rattle.rx_node.specs.Kinds.{kind_of};
ghost use Rattle.rx_node.specs.Mirrors.{IsChannel, IsKey, Mirrors, StepsNode};
ghost use Rattle.rx_node.specs.Moments.{PlacesSame, SameChannel};
ghost use Rattle.rx_node.specs.Node.{KeepsNode, KeepsSetup, setup_of};
ghost use Rattle.rx_node.specs.Steps.{IsFound};

use crate::kind::Kind;
use crate::life::Life;
use crate::link::Link;
use crate::strays::stray_of;
use circular_buffer::HeapCircularBuffer;
use rx_call_ends::Ends;
use rx_class::Class;
use rx_model::wire::STRAYS;
use rx_model::{CallName, Host, Limits, Stray};
use rx_packet::Head;
use rx_table::{CHANNELS, Seat, Table};
use std::alloc::{AllocError, Global};
use std::marker::Model;

mod giving;
mod lives;
mod taking;

pub use taking::is_data;

/// What a node keeps, whichever end it is (`rx.h`, `struct rx_connection` and `struct rx_call`, for what it is about).
///
/// A channel goes by its key, which is four times the place of its connection and the channel. Its seat in the table
/// says of its latest call the number and how it ended; while that call lives, the seat has the key of its end in
/// `ends`, and `lives` has its life by the channel's key.
#[derive(Debug, Drop)]
pub struct Node<C: Class> {
    kind: Kind,
    limits: Limits,
    /// As the `Pace` of its calls has it.
    prompt: bool,
    class: C,
    /// In milliseconds.
    moment: u64,
    table: Table,
    /// By place.
    links: Vec<Link>,
    ends: Ends,
    /// By key of the channel: the life of its latest call, while that lives.
    lives: Vec<Life>,
    live: u32,
    strays: HeapCircularBuffer<Stray>,
}

impl<C: Class> Model for Node<C> {
    ghost use Rattle.std.specs.Prelude.{◌≡◌, ◌≤◌, vec_capacity};
    ghost use Rattle.rx_model.specs.declared.wire.TheConstants.{STRAYS};
    ghost use Rattle.rx_node.specs.Kinds.{kind_of};
    ghost use Rattle.rx_node.specs.Node.{NodeState, IsSetUp, IsSeated};

    ghost Value = { NodeState };

    ghost view = { λ n. record {
      kind = kind_of n.kind;
      limits = n.limits;
      prompt = n.prompt;
      secret = C.secret n.class;
      moment = n.moment;
      table = n.table;
      links = n.links.items;
      ends = n.ends;
      lives = n.lives.items;
      live = n.live;
      strays = n.strays.items;
    } };

    ghost invariant = { λ n. IsSetUp C.class_of (record {
      kind = kind_of n.kind;
      limits = n.limits;
      prompt = n.prompt;
      secret = C.secret n.class;
      moment = n.moment;
      table = n.table;
      links = n.links.items;
      ends = n.ends;
      lives = n.lives.items;
      live = n.live;
      strays = n.strays.items;
    }) × IsSeated (record {
      kind = kind_of n.kind;
      limits = n.limits;
      prompt = n.prompt;
      secret = C.secret n.class;
      moment = n.moment;
      table = n.table;
      links = n.links.items;
      ends = n.ends;
      lives = n.lives.items;
      live = n.live;
      strays = n.strays.items;
    }) × (n.limits.conns ≤ vec_capacity n.links) × (n.strays.capacity ≡ STRAYS) };
}

impl<C: Class> Node<C> {
    ghost use Rattle.rx_model.specs.declared.wire.TheConstants.{STRAYS};
    ghost use Rattle.rx_table.specs.Lending.{LendsSeat};
    ghost use Rattle.rx_table.specs.declared.seat.TheConstants.{CHANNELS};

    /// A node to which nothing happened yet, with all the memory that it will need, prompt or not, as the `Pace` of its
    /// calls has it.
    pub fn make(
        alloc: Global,
        kind: Kind,
        limits: &Limits,
        prompt: bool,
        class: C,
    ) -> Result<Node<C>, AllocError>
        requires { FitsSetup (record {
          kind = kind_of kind;
          limits = limits.now;
          prompt = prompt;
          class = C.class_of (C.secret class);
        }) }
        ensures empty { IfOk result (λ n. Mirrors C.class_of n at_start) }
        ensures kind { IfOk result (λ n. n.kind ≡ kind_of kind) }
        ensures limits { IfOk result (λ n. n.limits ≡ limits.now) }
        ensures prompt { IfOk result (λ n. n.prompt ≡ prompt) }
        ensures class { IfOk result (λ n. n.secret ≡ C.secret class) }
    {
        let table = Table::make(alloc, limits.conns)?;
        let links = Vec::with_capacity(alloc, limits.conns as usize)?;
        let ends = Ends::make(alloc, kind.side(), limits, prompt)?;
        let lives = vec![in alloc; Life::Calling; CHANNELS as usize * limits.conns as usize]?;
        let strays = HeapCircularBuffer::with_capacity(alloc, STRAYS)?;
        Ok(Node {
            kind,
            limits: *limits,
            prompt,
            class,
            moment: 0,
            table,
            links,
            ends,
            lives,
            live: 0,
            strays,
        })
    }

    /// Its moment, in milliseconds since its clock began.
    pub fn moment(&self) -> u64
        ensures { result ≡ self.now.moment }
    {
        self.moment
    }

    /// How many calls live.
    pub fn live(&self) -> u32
        ensures { result ≡ self.now.live }
    {
        self.live
    }

    /// Its limits.
    pub fn limits(&self) -> &Limits
        ensures value { result.now ≡ self.now.limits }
        ensures fits { FitsSetup (setup_of C.class_of self.now) }
    {
        &self.limits
    }

    /// Which end of its connections it is.
    pub fn kind(&self) -> Kind
        ensures value { kind_of result ≡ self.now.kind }
        ensures ends { self.now.ends.client ≡ is_client self.now.kind }
    {
        self.kind
    }

    /// Its security class.
    pub fn class(&self) -> &C
        ensures { C.secret result.now ≡ self.now.secret }
    {
        &self.class
    }

    /// Its moment is this one now, in milliseconds.
    pub fn clock(&mut self, now: u64)
        requires later { self.old.moment ≤ now }
        requires now { now < 2 ^ 62 }
        ensures steps { StepsNode C.class_of self.old self.new (λ l. record l { now = now }) }
        ensures updates { self.new ≡ record self.old { moment = now } }
    {
        self.moment = now;
    }

    // ---- connections

    /// How many connections are there.
    pub fn conns(&self) -> u32
        ensures count { result ≡ length self.now.table.conns }
        ensures few { result ≤ 65536 }
        ensures room { length self.now.table.conns ≤ self.now.limits.conns }
    {
        self.links.len() as u32
    }

    /// The place of the connection of a call.
    pub fn place(&self, c: &CallName) -> Option<u32>
        ensures found { result ≡ place_of self.now.table (connection_of c.now) }
        ensures within { IfSome result (λ place. place < length self.now.table.conns) }
    {
        self.table.find(c.host, c.epoch, c.cid)
    }

    /// The peer, the service and the first call number of the connection at a place.
    pub fn link(&self, place: u32) -> &Link
        requires { place < length self.now.table.conns }
        ensures { slice_get self.now.links place ≡ Some result.now }
    {
        &self.links[place as usize]
    }

    /// The place that may be used anew: that of the connection whose last use is the longest ago, of those without a
    /// live call that weren't used for 600,000 milliseconds.
    pub fn idle(&mut self) -> Option<u32>
        ensures longest { IfSome result (IsLongestIdle self.old.moment self.old.table) }
        ensures none { IsNone result → (place : ℕ) → idle_since self.old.moment self.old.table place ≡ None }
        ensures same { self.new ≡ self.old }
    {
        self.table.idle_now(self.moment)
    }

    /// Enters the connection of a call in the next place, and answers that place.
    pub fn enter(&mut self, c: &CallName, link: Link, nonce: u64) -> u32
        requires absent { place_of self.old.table (connection_of c.now) ≡ None }
        requires room { length self.old.table.conns < self.old.limits.conns }
        requires cid { c.now.cid + 3 < 2 ^ 32 }
        ensures place { result ≡ length self.old.table.conns }
        ensures conns { length self.new.table.conns ≡ length self.old.table.conns + 1 }
        ensures places { PlacesSame self.old self.new (length self.old.table.conns) }
        ensures setup { KeepsSetup self.old self.new }
        ensures steps { (l : Looks) → Mirrors C.class_of self.old l
            → nonce ≡ nonce_of self.old.kind l.entered
            → Orderly (setup_of C.class_of self.old)
            (placed (fresh_conn (connection_of c.now) link.peer link.service link.first l) None l)
            → Mirrors C.class_of self.new
            (placed (fresh_conn (connection_of c.now) link.peer link.service link.first l) None l) }
    {
        self.links.push_reserved(link);
        match self.table.enter(c.host, c.epoch, c.cid, nonce, self.moment) {
            Ok(place) => place,
            Err(_full) => 0,
        }
    }

    /// Enters the connection of a call in the place of one that is idle, which is forgotten.
    pub fn replace(&mut self, place: u32, c: &CallName, link: Link, nonce: u64)
        requires absent { place_of self.old.table (connection_of c.now) ≡ None }
        requires idle { IsLongestIdle self.old.moment self.old.table place }
        requires cid { c.now.cid + 3 < 2 ^ 32 }
        ensures conns { length self.new.table.conns ≡ length self.old.table.conns }
        ensures places { PlacesSame self.old self.new place }
        ensures setup { KeepsSetup self.old self.new }
        ensures steps { (l : Looks) (x : rules.ConnLooks) → Mirrors C.class_of self.old l
            → slice_get l.conns place ≡ Some x
            → nonce ≡ nonce_of self.old.kind l.entered
            → Orderly (setup_of C.class_of self.old)
            (placed (fresh_conn (connection_of c.now) link.peer link.service link.first l) (Some x) l)
            → Mirrors C.class_of self.new
            (placed (fresh_conn (connection_of c.now) link.peer link.service link.first l) (Some x) l) }
    {
        self.links[place as usize] = link;
        self.table
            .replace(place, c.host, c.epoch, c.cid, nonce, self.moment);
    }

    /// The connection at a place is used now.
    pub fn touch(&mut self, place: u32)
        requires { place < length self.old.table.conns }
        ensures steps { (l : Looks) (x : rules.ConnLooks) → Mirrors C.class_of self.old l
            → slice_get l.conns place ≡ Some x → Mirrors C.class_of self.new (used x.connection l) }
        ensures channels { (q : ℕ) → SameChannel self.old self.new q }
        ensures same { KeepsNode self.old self.new }
    {
        self.table.touch_now(place, self.moment);
    }

    /// Whether the client of the connection at a place is proved.
    pub fn proved(&self, place: u32) -> bool
        requires { place < length self.now.table.conns }
        ensures { IsSomeAnd (record_at self.now.table place) (λ r. result ≡ r.proved) }
    {
        self.table.proved(place)
    }

    // ---- channels

    /// What is kept of a channel.
    pub fn seat(&self, key: u32) -> &Seat
        requires { IsKey self.now key }
        ensures { seat_at self.now.table key ≡ Some result.now }
    {
        self.table.seat(key)
    }

    /// The key of the channel of a call, where its connection is there.
    pub fn channel(&self, c: &CallName) -> Option<u32>
        ensures within { IfSome result (IsKey self.now) }
        ensures chan { IfSome result (λ key. c.now.chan < 4) }
        ensures channel { (l : Looks) → Mirrors C.class_of self.now l → c.now.chan < 4 →
            IfSome result (λ key. IsChannel l key (channel_of c.now)) }
        ensures none { (l : Looks) → Mirrors C.class_of self.now l → c.now.chan < 4 →
            result ≡ None → rules.conn_at l (connection_of c.now) ≡ None }
        ensures absent { result ≡ None → c.now.chan < 4 → place_of self.now.table (connection_of c.now) ≡ None }
        ensures found { c.now.chan < 4 → IsFound C.class_of self.now c.now result }
    {
        let place = self.table.find(c.host, c.epoch, c.cid)?;
        if c.chan as u32 >= CHANNELS {
            return None;
        }
        Some(CHANNELS * place + c.chan as u32)
    }

    /// The key of the channel of which a call is the latest.
    pub fn own(&self, c: &CallName) -> Option<u32>
        ensures within { IfSome result (IsKey self.now) }
        ensures channel { (l : Looks) → Mirrors C.class_of self.now l →
            IfSome result (λ key. IsChannel l key (channel_of c.now)) }
        ensures latest { (l : Looks) → Mirrors C.class_of self.now l →
            IfSome result (λ key. rules.latest_name l (channel_of c.now) ≡ c.now) }
        ensures none { (l : Looks) → Mirrors C.class_of self.now l → result ≡ None →
            rules.is_call (λ k. is_live k.life) (rules.call_at l c.now) ≡ false }
        ensures missing { (l : Looks) → Mirrors C.class_of self.now l → result ≡ None → own_call l c.now ≡ None }
    {
        let key = self.channel(c)?;
        if self.table.seat(key).number != c.number {
            return None;
        }
        Some(key)
    }

    /// DATA of a service that a server hasn't owes a stray abort (`rx.h`, `RX_INVALID_OPERATION`); of more than 64 the
    /// oldest is dropped.
    pub fn owe_stray(&mut self, from: Host, head: &Head)
        ensures steps { (body : models.Body) → StepsNode C.class_of self.old self.new (λ l. record l {
          strays = last_of STRAYS (l.strays ++ rules_stray_of from (message_with_head head.now body) ∷ []);
        }) }
        ensures channels { (q : ℕ) → SameChannel self.old self.new q }
        ensures same { KeepsNode self.old self.new }
    {
        self.strays.push_back(stray_of(from, head));
    }
}

/// The name of the call that a message from a peer, or for one, speaks of.
pub fn named(kind: Kind, peer: Host, head: &Head) -> CallName
    ensures name { (body : models.Body) → result ≡ name_of (client_host (kind_of kind) peer)
        (message_with_head head.now body) }
    ensures cid { result.cid + 3 < 2 ^ 32 }
    ensures chan { result.chan < 4 }
{
    let chan = head.cid % CHANNELS;
    CallName {
        host: kind.client_host(peer),
        epoch: head.epoch,
        cid: head.cid - chan,
        chan: chan as u8,
        number: head.number,
    }
}
