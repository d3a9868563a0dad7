ghost use Rattle.std.specs.Prelude.{◌≡◌, ◌≤◌, ◌<◌, ◌+◌, ◌^◌, nat_lt, ℕ, List, [], ◌∷◌, length, set, Some, None, IfOk};
ghost use Rattle.std.specs.Prelude.{MatchOption, true, false};
ghost use Rattle.rx_pool.specs.Pool.{Slots, IsSlotOf, Takes, HasNoRepeat, AllBelow, bytes_at, overwrite, has};

use crate::slot::Slot;
use std::alloc::{AllocError, Global};
use std::marker::Model;

/// How many bytes a slot has: those of the longest payload.
pub const SLOT_BYTES: usize = 1444;

/// How many slots a pool may have.
pub const MAX_SLOTS: u32 = 65_536;

/// All packet slots of a node.
#[derive(Debug, Drop)]
pub struct Pool {
    slots: Vec<[u8; SLOT_BYTES]>,
    /// The numbers of the free slots. The one given back last is the next.
    free: Vec<u32>,
}

impl Model for Pool {
    ghost use Rattle.std.specs.Prelude.{◌≤◌, vec_len, vec_capacity, length, ◌^◌};
    ghost use Rattle.rx_pool.specs.Pool.{Slots, IsFit};

    ghost Value = { Slots };

    ghost view = { λ p. record { bytes = p.slots.items; free = p.free.items } };

    ghost invariant = { λ p. IsFit (record { bytes = p.slots.items; free = p.free.items }) (vec_capacity p.free) };
}

impl Pool {
    ghost use Rattle.rx_pool.specs.declared.pool.TheConstants.{SLOT_BYTES, MAX_SLOTS};

    /// A pool of n slots, all of them free: all the memory that a node's packets need.
    pub fn make(alloc: Global, n: u32) -> Result<Pool, AllocError>
        requires some { 0 < n }
        requires most { n ≤ MAX_SLOTS }
        ensures size { IfOk result (λ p. length p.bytes ≡ n) }
        ensures free { IfOk result (λ p. (s : ℕ) → has s p.free ≡ nat_lt s n) }
        ensures count { IfOk result (λ p. length p.free ≡ n) }
    {
        let mut slots = Vec::with_capacity(alloc, n as usize)?;
        let mut free = Vec::with_capacity(alloc, n as usize)?;
        for number in 0..n {
            slots.push([0; SLOT_BYTES])?;
            free.push(number)?;
        }
        Ok(Pool { slots, free })
    }

    /// A free slot, which is then held; none exactly where none is free.
    pub fn get(&mut self) -> Option<Slot>
        ensures taken { MatchOption result (self.old.free ≡ []) (λ s. Takes self.old self.new s) }
        ensures none { result ≡ None → self.new ≡ self.old }
    {
        let number = self.free.pop()?;
        Some(Slot::of(number))
    }

    /// The bytes of a slot, all 1,444.
    pub fn bytes(&self, slot: &Slot) -> &[u8]
        requires { IsSlotOf self.now slot.now }
        ensures value { result.now ≡ bytes_at self.now slot.now }
        ensures size { length result.now ≡ SLOT_BYTES }
    {
        &self.slots[slot.number() as usize]
    }

    /// Writes into a slot, from byte `at` of it on. Nothing else changes.
    pub fn put(&mut self, slot: &Slot, at: u32, bytes: &[u8])
        requires of { IsSlotOf self.old slot.now }
        requires fits { at + length bytes.now ≤ SLOT_BYTES }
        ensures written { self.new ≡ record self.old {
          bytes = set self.old.bytes slot.now (overwrite (bytes_at self.old slot.now) at bytes.now);
        } }
        ensures of { (s : ℕ) → IsSlotOf self.old s → IsSlotOf self.new s }
    {
        let room = &mut self.slots[slot.number() as usize];
        room[at as usize..at as usize + bytes.len()].copy_from_slice(bytes);
    }

    /// The slot is free again; its bytes stay until it is written anew.
    pub fn give(&mut self, slot: Slot)
        requires { IsSlotOf self.old slot }
        ensures given { Takes self.new self.old slot }
        ensures bytes { self.new.bytes ≡ self.old.bytes }
    {
        self.free.push_reserved(slot.number());
    }

    /// How many slots are free.
    pub fn free(&self) -> u32
        ensures { result ≡ length self.now.free }
    {
        self.free.len() as u32
    }
}
