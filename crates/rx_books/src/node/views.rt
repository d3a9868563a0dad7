//! What a node answers of what it keeps.

ghost use Rattle.std.specs.Prelude.{◌≡◌, ◌≤◌, ◌<◌, ◌/◌, ℕ, Some, None, length, slice_get, IfSome, IsSomeAnd, false};
ghost use Rattle.std.specs.Prelude.{Option, true, is_some, option_map};
ghost use Rattle.rx_model.specs.Names.{channel_of, connection_of, Channel};
ghost use Rattle.rx_packet.specs.Seen.{message_of};
ghost use Rattle.rx_rules.specs.Looks.{Looks, CallRecord, is_call, latest, latest_name};
ghost use Rattle.rx_rules.specs.Records.{used};
ghost use Rattle.rx_rules.specs.Life.{is_live, is_active};
ghost use Rattle.rx_rules.specs.Rules.{own_call};
ghost use Rattle.rx_rules.specs.Setup.{is_client};
ghost use Rattle.rx_table.specs.Records.{place_of, record_at, seat_at};
ghost use Rattle.rx_node.specs.Kinds.{kind_of};
ghost use Rattle.rx_node.specs.Mirrors.{IsChannel, IsKey, Mirrors, IsActiveAt};
ghost use Rattle.rx_node.specs.Node.{setup_of, life_at};
ghost use Rattle.rx_call_ends.specs.Ends.{IsUnshut};
ghost use Rattle.rx_node.specs.Lives.{is_of, life_of};
ghost use Rattle.rx_rules.specs.Judging.{facts_of};
ghost use Rattle.rx_node.specs.Steps.{IsFound, facts_seen};
ghost use Rattle.rx_rules.specs.Looks as rules;

use crate::node::Node;
use rx_class::Class;
use rx_model::{CallName, Host, Limits};
use rx_node::{Facts, Kind, Life, Link};
use rx_packet::{Body, Head};
use rx_table::Seat;

impl<C: Class> Node<C> {
    /// Its moment, in milliseconds since its clock began.
    pub fn moment(&self) -> u64
        ensures { result ≡ self.now.moment }
    {
        self.core.moment()
    }

    /// How many calls live.
    pub fn live(&self) -> u32
        ensures { result ≡ self.now.live }
    {
        self.core.live()
    }

    /// Its limits.
    pub fn limits(&self) -> &Limits
        ensures { result.now ≡ self.now.limits }
    {
        self.core.limits()
    }

    /// Which end of its connections it is.
    pub fn kind(&self) -> Kind
        ensures { kind_of result ≡ self.now.kind }
    {
        self.core.kind()
    }

    /// Its security class.
    pub fn class(&self) -> &C
        ensures { C.secret result.now ≡ self.now.secret }
    {
        self.core.class()
    }

    /// How many connections are there.
    pub fn conns(&self) -> u32
        ensures count { result ≡ length self.now.table.conns }
        ensures few { result ≤ 65536 }
    {
        self.core.conns()
    }

    /// The place of the connection of a call.
    pub fn place(&self, c: &CallName) -> Option<u32>
        ensures found { result ≡ place_of self.now.table (connection_of c.now) }
        ensures within { IfSome result (λ place. place < length self.now.table.conns) }
    {
        self.core.place(c)
    }

    /// The peer, the service and the first call number of the connection at a place.
    pub fn link(&self, place: u32) -> &Link
        requires { place < length self.now.table.conns }
        ensures { slice_get self.now.links place ≡ Some result.now }
    {
        self.core.link(place)
    }

    /// Whether the client of the connection at a place is proved.
    pub fn proved(&self, place: u32) -> bool
        requires { place < length self.now.table.conns }
        ensures { IsSomeAnd (record_at self.now.table place) (λ r. result ≡ r.proved) }
    {
        self.core.proved(place)
    }

    /// What is kept of a channel.
    pub fn seat(&self, key: u32) -> &Seat
        requires { IsKey self.now key }
        ensures { seat_at self.now.table key ≡ Some result.now }
    {
        self.core.seat(key)
    }

    /// The key of the channel of a call, where its connection is there.
    pub fn channel(&self, c: &CallName) -> Option<u32>
        ensures within { IfSome result (IsKey self.now) }
        ensures chan { IfSome result (λ key. c.now.chan < 4) }
        ensures channel { (l : Looks) → Mirrors C.class_of self.now l → c.now.chan < 4 →
            IfSome result (λ key. IsChannel l key (channel_of c.now)) }
        ensures none { (l : Looks) → Mirrors C.class_of self.now l → c.now.chan < 4 →
            result ≡ None → rules.conn_at l (connection_of c.now) ≡ None }
        ensures absent { result ≡ None → c.now.chan < 4 → place_of self.now.table (connection_of c.now) ≡ None }
        ensures found { c.now.chan < 4 → IsFound C.class_of self.now c.now result }
    {
        self.core.channel(c)
    }

    /// The key of the channel of which a call is the latest.
    pub fn own(&self, c: &CallName) -> Option<u32>
        ensures within { IfSome result (IsKey self.now) }
        ensures channel { (l : Looks) → Mirrors C.class_of self.now l →
            IfSome result (λ key. IsChannel l key (channel_of c.now)) }
        ensures latest { (l : Looks) → Mirrors C.class_of self.now l →
            IfSome result (λ key. rules.latest_name l (channel_of c.now) ≡ c.now) }
        ensures none { (l : Looks) → Mirrors C.class_of self.now l → result ≡ None →
            rules.is_call (λ k. is_live k.life) (rules.call_at l c.now) ≡ false }
        ensures missing { (l : Looks) → Mirrors C.class_of self.now l → result ≡ None → own_call l c.now ≡ None }
    {
        self.core.own(c)
    }

    /// The life of a channel's latest call; none where it had none.
    pub fn life(&self, key: u32) -> Option<Life>
        requires { IsKey self.now key }
        ensures value { option_map life_of result ≡ life_at self.now key }
        ensures kind { IfSome result (λ life. is_of (is_client self.now.kind) (life_of life) ≡ true) }
        ensures answered { (l : Looks) (ch : Channel) → Mirrors C.class_of self.now l → IsChannel l key ch →
            option_map life_of result ≡ option_map (λ k. k.life) (latest l ch) }
    {
        self.core.life(key)
    }

    /// The key of the end of a channel's call, where it lives and isn't broken.
    pub fn active(&self, key: u32) -> Option<usize>
        requires { IsKey self.now key }
        ensures some { IfSome result (IsActiveAt self.now key) }
        ensures answered { (l : Looks) (ch : Channel) → Mirrors C.class_of self.now l → IsChannel l key ch →
            is_some result ≡ is_call (λ k. is_active k.life) (latest l ch) }
    {
        self.core.active(key)
    }

    /// The name of a channel's latest call.
    pub fn latest(&self, key: u32) -> CallName
        requires { IsKey self.now key }
        ensures { (l : Looks) (ch : Channel) → Mirrors C.class_of self.now l → IsChannel l key ch →
            result ≡ latest_name l ch }
    {
        self.core.latest(key)
    }

    /// Whether the own stream of a channel's call is shut.
    pub fn is_shut(&self, key: u32, end: usize) -> bool
        requires { IsActiveAt self.now key end }
        ensures unshut { result ≡ false → IsUnshut self.now.ends end }
        ensures answered { (l : Looks) (ch : Channel) (k : CallRecord) → Mirrors C.class_of self.now l →
            IsChannel l key ch → latest l ch ≡ Some k → result ≡ k.looks.sent.shut }
    {
        self.core.is_shut(key, end)
    }

    /// Whether the other side's stream was read to its end.
    pub fn all_read(&self, key: u32, end: usize) -> bool
        requires { IsActiveAt self.now key end }
        ensures { (l : Looks) (ch : Channel) (k : CallRecord) → Mirrors C.class_of self.now l →
            IsChannel l key ch → latest l ch ≡ Some k → result ≡ k.looks.received.ended }
    {
        self.core.all_read(key, end)
    }

    /// What decides the rows of a message's connection and channel, by what a look-up of the channel gave.
    pub fn facts(&self, channel: Option<u32>, c: &CallName, head: &Head, body: &Body<'_>) -> Facts
        requires { IsFound C.class_of self.now c.now channel }
        ensures { (l : Looks) → Mirrors C.class_of self.now l → facts_seen result
            ≡ record (facts_of (setup_of C.class_of self.now) l c.now (message_of head.now body.now))
            { has_place = true } }
    {
        self.core.facts(channel, c, head, body)
    }
}
