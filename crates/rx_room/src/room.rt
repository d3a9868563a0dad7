ghost use Rattle.std.specs.Prelude.{◌≡◌, ◌++◌, ◌≤◌, IfOk, OnOk, length, take, vec_capacity, vec_len};
ghost use Rattle.rx_room.specs.Rooms.{room_for};

use std::alloc::{AllocError, Global};
use std::marker::Model;

#[cfg(test)]
mod tests;

/// Memory for what reads of streams bring, kept for all streams that are read in turn: a read that brings nothing takes
/// none, and a short stream takes no more than its bytes. Contracts see how many bytes a stream can have in the memory
/// that is kept for one.
#[derive(Debug, Drop)]
pub struct Room {
    alloc: Global,
    /// What is read into.
    lent: Vec<u8>,
    /// Where a short stream goes that can't get memory of its own.
    kept: Vec<u8>,
}

impl Model for Room {
    ghost use Rattle.std.specs.Prelude.{◌≡◌, ℕ, [], vec_capacity};

    ghost Value = { ℕ };

    ghost view = { λ s. vec_capacity s.kept };

    ghost invariant = { λ s. s.kept.items ≡ [] };
}

impl Room {
    /// No room yet.
    pub fn none(alloc: Global) -> Room {
        Room {
            alloc,
            lent: Vec::new(alloc),
            kept: Vec::new(alloc),
        }
    }

    /// So many bytes to read into: those that are kept, where they are as many.
    pub fn lend(&mut self, size: usize) -> Result<Vec<u8>, AllocError>
        ensures size { IfOk result (λ bytes. length bytes.items ≡ size) }
        ensures kept { self.new ≡ self.old }
    {
        if self.lent.len() == size {
            return Ok(std::mem::replace(&mut self.lent, Vec::new(self.alloc)));
        }
        vec![in self.alloc; 0u8; size]
    }

    /// The first of the bytes that were lent, as many as a read brought. Where it brought none they are kept for the
    /// next.
    pub fn filled(&mut self, mut bytes: Vec<u8>, count: usize) -> Vec<u8>
        ensures brought { result.items ≡ take count bytes.items }
        ensures kept { self.new ≡ self.old }
    {
        if count == 0 {
            self.take_back(bytes);
            return Vec::new(self.alloc);
        }
        bytes.truncate(count);
        bytes
    }

    /// Keeps bytes that were lent for the next.
    pub fn take_back(&mut self, bytes: Vec<u8>)
        ensures { self.new ≡ self.old }
    {
        self.lent = bytes;
    }

    /// Sees to it that so many bytes can be put behind those of a stream. For one that is shorter than that, memory is
    /// kept here, in which it could go on.
    pub fn ready(&mut self, stream: &mut Vec<u8>, size: usize) -> Result<(), AllocError>
        ensures same { stream.new.items ≡ stream.old.items }
        ensures ready { OnOk result (size ≤ room_for self.new (vec_len stream.new) (vec_capacity stream.new)) }
    {
        let count = stream.len();
        if count >= size {
            return stream.reserve(size);
        }
        match count.checked_add(size) {
            Some(all) => self.kept.reserve(all),
            None => Err(AllocError),
        }
    }

    /// Puts bytes behind those of a stream that has room for them.
    pub fn put(&mut self, stream: &mut Vec<u8>, bytes: &[u8])
        requires { length bytes.now ≤ room_for self.old (vec_len stream.old) (vec_capacity stream.old) }
        ensures { stream.new.items ≡ stream.old.items ++ bytes.now }
    {
        if bytes.is_empty() {
            return;
        }
        if stream.reserve_exact(bytes.len()).is_err() {
            self.carry_on(stream);
        }
        let _put = stream.extend_from_slice(bytes);
    }

    /// A stream goes on in the memory that is kept, and its own is kept.
    fn carry_on(&mut self, stream: &mut Vec<u8>)
        requires { vec_len stream.old ≤ self.old }
        ensures same { stream.new.items ≡ stream.old.items }
        ensures room { self.old ≤ vec_capacity stream.new }
    {
        let _carried = self.kept.extend_from_slice(stream.as_slice());
        std::mem::swap(stream, &mut self.kept);
        self.kept.clear();
    }
}
