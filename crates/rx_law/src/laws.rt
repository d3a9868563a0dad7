ghost use Rattle.std.specs.Prelude.{◌≡◌, ◌⊎◌, not, ℕ, false, List, Ok, Some};
ghost use Rattle.std.specs.List.{All};
ghost use Rattle.rx_model.specs.Telling.{FitsEvent, IsTold};
ghost use Rattle.rx_model.specs.declared.event.Event.{Event};
ghost use Rattle.rx_model.specs.declared.event.Noted.{Noted};
ghost use Rattle.rx_model.specs.declared.names.Host.{Host};
ghost use Rattle.rx_rules.specs.After.{looks};
ghost use Rattle.rx_model.specs.Body as bodies;
ghost use Rattle.rx_rules.specs.CallLooks.{packet_of};
ghost use Rattle.rx_model.specs.Message.{Message};
ghost use Rattle.rx_law.specs.Promises.{LawOn, WorldLaw};
ghost use Rattle.rx_history.specs.Alone.{EnteredOnlyWhenProved, OnceUnderForgery, SlotsSuffice};
ghost use Rattle.rx_model.specs.Names.{channel_of};
ghost use Rattle.rx_model.specs.Strays.{is_stray};
ghost use Rattle.rx_rules.specs.Looks.{latest_name};
ghost use Rattle.rx_model.specs.Reading.{reading_of};
ghost use Rattle.rx_rules.specs.Rules.{Legal};
ghost use Rattle.rx_rules.specs.Setup.{Setup, Client, FitsSetup, IsServer, is_client, named};
ghost use Rattle.rx_history.specs.Sides.{Node};
ghost use Rattle.rx_history.specs.Streams.{is_shut, said};
ghost use Rattle.rx_law.specs.Worlds.{Gave, TwoEnds, World};
ghost use Rattle.rx_law.specs.Times.{GoAlike, GoAlways};
ghost use Rattle.rx_history.specs.Givings.{GivesItem, GivesPlain};
ghost use Rattle.rx_rules.specs.Items.{poll_answer};
ghost use Rattle.rx_law.specs.Pieces.{IsAt};
ghost use Rattle.rx_law.specs.Premises.{ConnectionLaw, HeldOnce};
ghost use Rattle.rx_history.specs.Starts.{StartsOnce};

/// A server that forgot no connection accepts no call twice, whatever bytes came.
pub fn accepts_once()
    ensures { OnceUnderForgery }
{}

/// A server with a key accepts only calls of clients that showed it, whatever bytes came.
pub fn enters_when_proved()
    ensures { EnteredOnlyWhenProved }
{}

/// Whatever bytes came, each DATA that a client ever gave is, at every later moment, the piece of its seq of what was
/// said of its call.
pub fn client_gives_pieces()
    ensures { (s : Setup) (host : Host) (epoch : ℕ) (h : List Event) (to : Host) (bytes : List ℕ) (m : Message)
        (payload : List ℕ)
        → s.kind ≡ Client host epoch → FitsSetup s → Legal s h → Gave to bytes h → reading_of bytes ≡ Ok m
        → m.body ≡ bodies.Chunk payload
        → IsAt (said (looks s h) (named s to m)) (is_shut (looks s h) (named s to m)) m.seq
        (packet_of m payload).piece }
{}

/// The same of a server's call that never starts while it has a record.
pub fn server_gives_pieces()
    ensures { (s : Setup) (h : List Event) (to : Host) (bytes : List ℕ) (m : Message) (payload : List ℕ)
        → IsServer s.kind → FitsSetup s → Legal s h → StartsOnce s h (named s to m) → Gave to bytes h
        → reading_of bytes ≡ Ok m
        → m.body ≡ bodies.Chunk payload
        → IsAt (said (looks s h) (named s to m)) (is_shut (looks s h) (named s to m)) m.seq
        (packet_of m payload).piece }
{}

/// Between two legal ends of a connection, with a network that invents nothing on it and a server that starts none of
/// its calls while it has a record, at every moment: each call of the connection is accepted at most once; what each
/// end read begins what the other said; and a client's call that ended has what its end says.
pub fn connection_law_once()
    ensures { (x : TwoEnds) (h : List Noted) → HeldOnce x h → LawOn x h }
{}

/// The same where the server forgot no record of the connection, or where it may, but nothing that comes is old: each
/// datagram was given less than 120,000 milliseconds before by the server's clock, and between two events of the client
/// its clock loses at most 60,000 on the server's.
pub fn connection_law()
    ensures { ConnectionLaw }
{}

/// In a world of one server and any number of clients, whose network invents nothing, no call is accepted twice, and
/// each call of each client has all that: where the server forgot no record, or where no datagram is old and each
/// client's clock goes like the server's.
pub fn world_law()
    ensures { WorldLaw }
{}

/// In a legal history of a node each event is one that its line tells, where its numbers fit.
pub fn legal_events_are_told()
    ensures { (s : Setup) (h : List Event)
        → Legal s h → All FitsEvent h → All (IsTold (not (is_client s.kind))) h }
{}

/// Clocks of which the client's never loses more than 60,000 milliseconds on the server's, between any two places of a
/// history, go alike between the client's own events, which is all that the laws ask.
pub fn clocks_go_alike()
    ensures { (server client : ℕ) (h : List Noted) → GoAlways server client h → GoAlike server client h }
{}

/// Whatever bytes came to a node, and whatever its application asked, its calls never hold more slots beside one of
/// their own than are shared: none lacks a slot other than by NoSlot or by the room of a write.
pub fn slots_suffice()
    ensures { SlotsSuffice }
{}

/// Whatever bytes came to a node, and whatever its application asked, each datagram that a poll gives is the written
/// form of one message that is owed, a stray abort or the next item, each number of which fits its field: it is read as
/// that message. An item's datagram is read as no stray abort, and speaks of the item's call, which is the latest of
/// its channel unless it is told to wait.
pub fn polls_give_plain_messages()
    ensures plain { (s : Setup) (h : List Event) (to : Host) (bytes : List ℕ) → FitsSetup s → Legal s h
        → poll_answer s (looks s h) ≡ Some (to, bytes) → GivesPlain s (looks s h) to bytes }
    ensures apart { (s : Setup) (h : List Event) (to : Host) (m : Message) → FitsSetup s → Legal s h
        → GivesItem s (looks s h) to m → is_stray m m.body ≡ false }
    ensures named { (s : Setup) (h : List Event) (to : Host) (m : Message) → FitsSetup s → Legal s h
        → (g : GivesItem s (looks s h) to m) → named s to m ≡ g.item.name }
    ensures latest { (s : Setup) (h : List Event) (to : Host) (m : Message) → FitsSetup s → Legal s h
        → (g : GivesItem s (looks s h) to m)
        → (g.item.body ≡ bodies.Busy) ⊎ (g.item.name ≡ latest_name (looks s h) (channel_of g.item.name)) }
{}
