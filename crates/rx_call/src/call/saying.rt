ghost use Rattle.std.specs.Prelude.{◌≡◌, ◌≤◌, ◌<◌, ◌+◌, ◌-◌, ◌^◌, min, length, take, drop, true, false};
ghost use Rattle.rx_model.specs.declared.answers.CallRead.TheVariants as reads;
ghost use Rattle.rx_rules.specs.CallLooks.{CallLooks, lead, after_write, after_shut, after_read};
ghost use Rattle.rx_rules.specs.Received.{read_of};
ghost use Rattle.rx_rules.specs.Sent.{room_of};
ghost use Rattle.rx_pool.specs.Pool.{Slots};
ghost use Rattle.rx_pool.specs.Held.{Holds, Keeps};
ghost use Rattle.rx_recvwin.specs.Window.{given_count, tells_end};
ghost use Rattle.rx_call.specs.Standing.{StandsCall, IsSameEnd, HasSpare, slots_of};

use crate::call::Call;
use crate::owing::owe_for_done;
use rx_model::CallRead;
use rx_pool::Pool;

impl Call {
    /// Accepts as many bytes as fit, and answers how many. `common` is how many slots its node has left for any call.
    pub fn write(&mut self, pool: &mut Pool, common: u32, bytes: &[u8]) -> usize
        requires unshut { self.old.sent.shut ≡ false }
        requires holds { Holds pool.old (slots_of self.old) }
        requires spare { HasSpare pool.old self.old common }
        ensures answered { (k : CallLooks) → StandsCall pool.old self.old k →
            result ≡ min (length bytes.now) (room_of self.old.pace.window (common + 1 - lead k) k.sent) }
        ensures stands { (k : CallLooks) → StandsCall pool.old self.old k →
            StandsCall pool.new self.new (after_write (take result bytes.now) k) }
        ensures within { result ≤ length bytes.now }
        ensures keeps { Keeps pool.old pool.new (slots_of self.old) (slots_of self.new) }
        ensures same { IsSameEnd self.old self.new }
        ensures unshut { self.new.sent.shut ≡ false }
    {
        if self.lead() {
            return self.sent.write(pool, bytes, common);
        }
        let more = common.saturating_add(1).min(pool.free());
        self.sent.write(pool, bytes, more)
    }

    /// Its own stream ends; where nothing was accepted, with one empty piece.
    pub fn shut(&mut self, pool: &mut Pool)
        requires unshut { self.old.sent.shut ≡ false }
        requires free { self.old.sent.total ≡ 0 → 0 < length pool.old.free }
        requires holds { Holds pool.old (slots_of self.old) }
        ensures stands { (k : CallLooks) → StandsCall pool.old self.old k →
            StandsCall pool.new self.new (after_shut k) }
        ensures keeps { Keeps pool.old pool.new (slots_of self.old) (slots_of self.new) }
        ensures same { IsSameEnd self.old self.new }
        ensures shut { self.new.sent.shut ≡ true }
    {
        self.sent.shut(pool);
    }

    /// Gives the next bytes of the other side's stream, as many as fit. Where none is unread it answers the end, or
    /// nothing yet where the last packet isn't among those that stand without a gap. What lies in `to` behind the bytes
    /// given stays.
    pub fn read(&mut self, pool: &mut Pool, now: u64, to: &mut [u8]) -> CallRead
        requires some { 0 < length to.old }
        requires now { now < 2 ^ 62 }
        requires holds { Holds pool.old (slots_of self.old) }
        ensures answered { (k : CallLooks) → StandsCall pool.old self.old k →
            (result, take (given_count result) to.new) ≡ read_of k.received (length to.old) }
        ensures stands { (k : CallLooks) → StandsCall pool.old self.old k → StandsCall pool.new self.new
            (after_read now (tells_end result) (take (given_count result) to.new) k) }
        ensures rest { drop (given_count result) to.new ≡ drop (given_count result) to.old }
        ensures keeps { Keeps pool.old pool.new (slots_of self.old) (slots_of self.new) }
        ensures same { IsSameEnd self.old self.new }
        ensures unshut { self.new.sent.shut ≡ self.old.sent.shut }
        ensures none { result ≡ reads.NotYet → self.new ≡ self.old }
    {
        let before = self.received.held();
        let answer = self.received.read(pool, to);
        if self.received.held() < before {
            self.owed = owe_for_done(now, self.cwnd.recovers(), self.owed);
        }
        answer
    }
}
