//! The lives of calls: how they start, change and end.

ghost use Rattle.std.specs.Prelude.{◌≡◌, ◌≤◌, ◌<◌, ◌+◌, ◌^◌, ℕ, Some, None, Option, IfSome, length, take, drop, min};
ghost use Rattle.std.specs.Prelude.{true, false, is_some, slice_get};
ghost use Rattle.std.specs.Prelude.{option_and_then, option_map};
ghost use Rattle.rx_model.specs.declared.answers.CallRead.TheVariants as reads;
ghost use Rattle.rx_model.specs.Names.{Channel};
ghost use Rattle.rx_rules.specs.After.{owing_ackall, read_done, settled, stopped_all};
ghost use Rattle.rx_rules.specs.CallLooks.{after_shut, after_write};
ghost use Rattle.rx_rules.specs.Life.{after_code, after_end, is_active, is_calling, is_live};
ghost use Rattle.rx_rules.specs.Looks.{CallRecord, ConnLooks, Looks, call_named, is_call, latest, latest_name, on_call};
ghost use Rattle.rx_rules.specs.Looks.{on_channel, on_life, on_looks};
ghost use Rattle.rx_rules.specs.Received.{read_of};
ghost use Rattle.rx_rules.specs.Records.{silenced, started, unless_silent};
ghost use Rattle.rx_rules.specs.Setup.{is_client};
ghost use Rattle.rx_rules.specs.Slots.{room};
ghost use Rattle.rx_due.specs.Cost.{AtMost};
ghost use Rattle.rx_history.proofs.LifeFalls.{Falls};
ghost use Rattle.rx_history.proofs.Order.Orderly.{Orderly};
ghost use Rattle.rx_history.proofs.Room.RoomStarts.{RoomyAt};
ghost use Rattle.rx_recvwin.specs.Window.{given_count, tells_end};
ghost use Rattle.rx_call.specs.Kept.{call_under};
ghost use Rattle.rx_call_ends.specs.Ends.{HasShutSlot, IsUnshut};
ghost use Rattle.rx_table.specs.Records.{seat_at};
ghost use Rattle.rx_node.specs.Lives.{after_turn, is_of, life_of};
ghost use Rattle.rx_node.specs.Mirrors.{IsActiveAt, IsChannel, IsKey, Mirrors, StepsAt, StepsNode};
ghost use Rattle.rx_node.specs.Moments.{OthersSame, PlacesSame, SameChannel, active_end, silence_at};
ghost use Rattle.rx_node.specs.Node.{KeepsNode, is_active_life, life_at, setup_of};

use crate::life::{Life, Turn, end_of, ended_life};
use crate::node::Node;
use rx_class::Class;
use rx_due::Steps;
use rx_model::CallRead;
use rx_model::wire::SILENCE_MS;
use rx_table::{CHANNELS, Seat};
use std::marker::Brand;
use std::sync::ledger::{Blank, Ledger};

impl<C: Class> Node<C> {
    /// The life of a channel's latest call; none where it had none.
    pub fn life(&self, key: u32) -> Option<Life>
        requires { IsKey self.now key }
        ensures value { option_map life_of result ≡ life_at self.now key }
        ensures kind { IfSome result (λ life. is_of (is_client self.now.kind) (life_of life) ≡ true) }
        ensures answered { (l : Looks) (ch : Channel) → Mirrors C.class_of self.now l → IsChannel l key ch →
            option_map life_of result ≡ option_map (λ k. k.life) (latest l ch) }
    {
        let seat = self.table.seat(key);
        match seat.live {
            Some(_end) => Some(self.lives[key as usize]),
            None => Some(ended_life(self.kind.side(), seat.end?)),
        }
    }

    /// The key of the end of a channel's call, where it lives and isn't broken.
    pub fn active(&self, key: u32) -> Option<usize>
        requires { IsKey self.now key }
        ensures some { IfSome result (IsActiveAt self.now key) }
        ensures call { active_end self.now key ≡ option_and_then (λ end. call_under self.now.ends.calls end) result }
        ensures answered { (l : Looks) (ch : Channel) → Mirrors C.class_of self.now l → IsChannel l key ch →
            is_some result ≡ is_call (λ k. is_active k.life) (latest l ch) }
    {
        let end = self.table.seat(key).live?;
        if self.lives[key as usize].is_active() {
            return Some(end);
        }
        None
    }

    /// A call starts on a channel whose latest call doesn't live; the channel owes nothing then.
    pub fn start(&mut self, key: u32, number: u32, life: Life)
        requires key { IsKey self.old key }
        requires free { (seat : _) → seat_at self.old.table key ≡ Some seat → seat.live ≡ None }
        requires room { self.old.live < self.old.limits.calls }
        requires number { 0 < number }
        requires life { is_active (life_of life) ≡ true }
        requires kind { is_of (is_client self.old.kind) (life_of life) ≡ true }
        ensures steps { (l : Looks) (ch : Channel) → Mirrors C.class_of self.old l → IsChannel l key ch →
            let s = setup_of C.class_of self.old in
            let c = call_named ch number in
            Orderly s (started s (life_of life) c l) → RoomyAt s (started s (life_of life) c l)
            → Mirrors C.class_of self.new (started s (life_of life) c l) }
        ensures others { OthersSame self.old self.new key }
        ensures same { KeepsNode self.old self.new }
    {
        let Some(end) = self.ends.start(self.moment) else {
            return;
        };
        self.lives[key as usize] = life;
        self.live += 1;
        *self.table.seat_mut(key) = Seat {
            live: Some(end),
            ..Seat::fresh(number)
        };
    }

    /// The life of a channel's call, where it lives, becomes this: one that isn't active gives its slots back, and one
    /// that ends leaves its channel.
    fn set_life<L: Ledger>(&mut self, key: u32, life: Life, steps: &mut Steps<L>)
        requires key { IsKey self.old key }
        requires kind { is_of (is_client self.old.kind) (life_of life) ≡ true }
        ensures steps { (l : Looks) (ch : Channel) (k : CallRecord) → Mirrors C.class_of self.old l
            → IsChannel l key ch →
            latest l ch ≡ Some k → is_live k.life ≡ true → Falls k.life (life_of life) →
            Mirrors C.class_of self.new (on_life (latest_name l ch) (λ before. life_of life) l) }
        ensures ended { (l : Looks) (ch : Channel) → Mirrors C.class_of self.old l → IsChannel l key ch →
            is_call (λ k. is_live k.life) (latest l ch) ≡ false → self.new ≡ self.old }
        ensures active { (end : ℕ) → is_active (life_of life) ≡ true → IsActiveAt self.old key end →
            IsActiveAt self.new key end }
        ensures ends { is_active (life_of life) ≡ true → self.new.ends ≡ self.old.ends }
        ensures idle { is_active (life_of life) ≡ false → active_end self.new key ≡ None }
        ensures others { OthersSame self.old self.new key }
        ensures same { KeepsNode self.old self.new }
        ensures steps_taken { AtMost 1 steps.old steps.new }
    {
        let Some(end) = self.table.seat(key).live else {
            return;
        };
        self.lives[key as usize] = life;
        if life.is_active() {
            return;
        }
        self.ends.clear(end, steps);
        if life.is_live() {
            return;
        }
        self.ends.leave(end);
        self.live -= 1;
        let seat = self.table.seat_mut(key);
        seat.live = None;
        seat.end = Some(end_of(life));
    }

    /// The life of a channel's call turns, where it lives.
    pub fn turn(&mut self, key: u32, turn: Turn)
        requires { IsKey self.old key }
        ensures steps { StepsAt C.class_of self.old self.new key
            (λ ch l. on_life (latest_name l ch) (after_turn turn) l) }
        ensures active { (end : ℕ) → IsActiveAt self.old key end →
            is_active_life (option_map (after_turn turn) (life_at self.old key)) ≡ true →
            IsActiveAt self.new key end }
        ensures ends { is_active_life (option_map (after_turn turn) (life_at self.old key)) ≡ true →
            self.new.ends ≡ self.old.ends }
        ensures idle { is_active_life (option_map (after_turn turn) (life_at self.old key)) ≡ false →
            active_end self.new key ≡ None }
        ensures others { OthersSame self.old self.new key }
        ensures same { KeepsNode self.old self.new }
    {
        self.turn_counted::<Brand>(key, turn, Blank::new(1));
    }

    fn turn_counted<L: Ledger>(&mut self, key: u32, turn: Turn, blank: Blank)
        requires key { IsKey self.old key }
        requires name { blank.name ≡ L.name }
        requires parts { blank.parts ≡ L.parts }
        requires counts { 0 < blank.parts }
        ensures steps { StepsAt C.class_of self.old self.new key
            (λ ch l. on_life (latest_name l ch) (after_turn turn) l) }
        ensures active { (end : ℕ) → IsActiveAt self.old key end →
            is_active_life (option_map (after_turn turn) (life_at self.old key)) ≡ true →
            IsActiveAt self.new key end }
        ensures ends { is_active_life (option_map (after_turn turn) (life_at self.old key)) ≡ true →
            self.new.ends ≡ self.old.ends }
        ensures idle { is_active_life (option_map (after_turn turn) (life_at self.old key)) ≡ false →
            active_end self.new key ≡ None }
        ensures others { OthersSame self.old self.new key }
        ensures same { KeepsNode self.old self.new }
    {
        let mut steps = Steps::<L>::new(blank);
        self.make_turn(key, turn, &mut steps);
    }

    /// The same, by these steps: one look, where the call isn't active then.
    fn make_turn<L: Ledger>(&mut self, key: u32, turn: Turn, steps: &mut Steps<L>)
        requires { IsKey self.old key }
        ensures steps { StepsAt C.class_of self.old self.new key
            (λ ch l. on_life (latest_name l ch) (after_turn turn) l) }
        ensures active { (end : ℕ) → IsActiveAt self.old key end →
            is_active_life (option_map (after_turn turn) (life_at self.old key)) ≡ true →
            IsActiveAt self.new key end }
        ensures ends { is_active_life (option_map (after_turn turn) (life_at self.old key)) ≡ true →
            self.new.ends ≡ self.old.ends }
        ensures idle { is_active_life (option_map (after_turn turn) (life_at self.old key)) ≡ false →
            active_end self.new key ≡ None }
        ensures others { OthersSame self.old self.new key }
        ensures same { KeepsNode self.old self.new }
        ensures steps_taken { AtMost 1 steps.old steps.new }
    {
        if let Some(life) = self.life(key) {
            self.set_life(key, life.after(turn), steps);
        }
    }

    /// A code reaches a channel's call.
    pub fn reach(&mut self, key: u32, code: i32)
        requires { IsKey self.old key }
        ensures steps { StepsAt C.class_of self.old self.new key
            (λ ch l. on_life (latest_name l ch) (after_code code) l) }
        ensures others { OthersSame self.old self.new key }
        ensures same { KeepsNode self.old self.new }
    {
        self.turn(key, Turn::Code(code));
    }

    /// A code reaches the calls of the connection at a place.
    pub fn reach_all(&mut self, place: u32, code: i32)
        requires { place < length self.old.table.conns }
        ensures steps { (l : Looks) (x : ConnLooks) → Mirrors C.class_of self.old l → slice_get l.conns place ≡ Some x →
            Mirrors C.class_of self.new (stopped_all x.connection code l) }
        ensures places { PlacesSame self.old self.new place }
        ensures same { KeepsNode self.old self.new }
    {
        let _kind = &self.kind;
        for chan in 0..CHANNELS {
            self.reach(CHANNELS * place + chan, code);
        }
    }

    /// The call of a channel ends, if nothing was heard of it for 12,000 milliseconds (`RX_DEAD_TIME`).
    pub fn silence_on<L: Ledger>(&mut self, key: u32, steps: &mut Steps<L>)
        requires { IsKey self.old key }
        ensures silenced { StepsAt C.class_of self.old self.new key
            (λ ch l. on_call (latest_name l ch) (unless_silent l.now) l) }
        ensures ends { (moment : ℕ) → silence_at self.old key ≡ Some moment → moment ≤ self.old.moment →
            silence_at self.new key ≡ None }
        ensures others { OthersSame self.old self.new key }
        ensures same { KeepsNode self.old self.new }
        ensures steps_taken { AtMost 2 steps.old steps.new }
    {
        let Some(end) = self.active(key) else {
            return;
        };
        let dies = self.ends.dies(end, steps);
        if dies > self.moment {
            return;
        }
        let silence = self.moment - dies + SILENCE_MS;
        self.make_turn(key, Turn::Silence(silence), steps);
    }

    /// Says bytes on a channel's call, which isn't shut: as many as fit.
    pub fn write(&mut self, key: u32, end: usize, bytes: &[u8]) -> usize
        requires active { IsActiveAt self.old key end }
        requires unshut { IsUnshut self.old.ends end }
        ensures answered { (l : Looks) (ch : Channel) (k : CallRecord) → Mirrors C.class_of self.old l →
            IsChannel l key ch → latest l ch ≡ Some k →
            result ≡ min (length bytes.now) (room (setup_of C.class_of self.old) l k.looks) }
        ensures steps { StepsAt C.class_of self.old self.new key
            (λ ch l. on_looks (latest_name l ch) (after_write (take result bytes.now)) l) }
        ensures within { result ≤ length bytes.now }
        ensures others { OthersSame self.old self.new key }
        ensures same { KeepsNode self.old self.new }
    {
        self.ends.write(end, bytes)
    }

    /// The own stream of a channel's call ends.
    pub fn shut(&mut self, key: u32, end: usize)
        requires active { IsActiveAt self.old key end }
        requires unshut { IsUnshut self.old.ends end }
        requires slot { HasShutSlot self.old.ends end }
        ensures steps { (l : Looks) (ch : Channel) → Mirrors C.class_of self.old l → IsChannel l key ch →
            RoomyAt (setup_of C.class_of self.old) (on_looks (latest_name l ch) after_shut l) →
            Mirrors C.class_of self.new (on_looks (latest_name l ch) after_shut l) }
        ensures others { OthersSame self.old self.new key }
        ensures same { KeepsNode self.old self.new }
    {
        self.ends.shut(end);
    }

    /// Whether the own stream of a channel's call is shut.
    pub fn is_shut(&self, key: u32, end: usize) -> bool
        requires { IsActiveAt self.now key end }
        ensures unshut { result ≡ false → IsUnshut self.now.ends end }
        ensures answered { (l : Looks) (ch : Channel) (k : CallRecord) → Mirrors C.class_of self.now l →
            IsChannel l key ch → latest l ch ≡ Some k → result ≡ k.looks.sent.shut }
    {
        self.ends.is_shut(end)
    }

    /// Whether the other side's stream was read to its end.
    pub fn all_read(&self, key: u32, end: usize) -> bool
        requires { IsActiveAt self.now key end }
        ensures { (l : Looks) (ch : Channel) (k : CallRecord) → Mirrors C.class_of self.now l →
            IsChannel l key ch → latest l ch ≡ Some k → result ≡ k.looks.received.ended }
    {
        self.ends.all_read(end)
    }

    /// Gives the next bytes that came for a channel's call. A client's call that is read to its end ends Ok, and
    /// acknowledges all.
    pub fn read(&mut self, key: u32, end: usize, to: &mut [u8]) -> CallRead
        requires active { IsActiveAt self.old key end }
        requires some { 0 < length to.old }
        ensures answered { (l : Looks) (ch : Channel) (k : CallRecord) → Mirrors C.class_of self.old l →
            IsChannel l key ch → latest l ch ≡ Some k →
            (result, take (given_count result) to.new) ≡ read_of k.looks.received (length to.old) }
        ensures steps { StepsAt C.class_of self.old self.new key
            (λ ch l. read_done (latest_name l ch) (tells_end result) (take (given_count result) to.new) l) }
        ensures rest { drop (given_count result) to.new ≡ drop (given_count result) to.old }
        ensures none { result ≡ reads.NotYet → SameChannel self.old self.new key }
        ensures others { OthersSame self.old self.new key }
        ensures same { KeepsNode self.old self.new }
    {
        let got = self.ends.read(end, self.moment, to);
        match got {
            CallRead::End => self.on_end(key),
            CallRead::Got(_) | CallRead::NotYet => {}
        }
        got
    }

    /// A read of a channel's call answered End.
    fn on_end(&mut self, key: u32)
        requires { IsKey self.old key }
        ensures steps { StepsAt C.class_of self.old self.new key
            (λ ch l. on_life (latest_name l ch) (after_end true)
            (on_channel ch (owing_ackall (is_call (λ k. is_calling k.life) (latest l ch))) l)) }
        ensures others { OthersSame self.old self.new key }
        ensures same { KeepsNode self.old self.new }
    {
        let Some(life) = self.life(key) else {
            return;
        };
        if !life.is_calling() {
            return;
        }
        self.table.seat_mut(key).owed_ackall = true;
        self.turn(key, Turn::End(true));
    }

    /// A finished call is over once the other end has all that it said.
    pub fn settle(&mut self, key: u32, end: usize)
        requires { IsActiveAt self.old key end }
        ensures steps { StepsAt C.class_of self.old self.new key (λ ch l. on_call (latest_name l ch) settled l) }
        ensures others { OthersSame self.old self.new key }
        ensures same { KeepsNode self.old self.new }
    {
        let delivered = self.ends.is_delivered(end);
        self.turn(key, Turn::Acks(delivered));
    }
}
