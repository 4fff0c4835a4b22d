// Buffers. The memory of a buffer is taken when it is made, so that no push wants memory.
ghost use Rattle.std.specs.Prelude.{◌≡◌, ◌+◌, ◌≤◌, ◌↔◌, [], ◌++◌, length, IsTrue, IfOk};
ghost use Rattle.std.specs.Bool.{OnTrue, OnFalse};
ghost use Rattle.jet_pool.specs.Pool.{empty_buf};

use jet_items::NoMemory;
use std::alloc::Global;
use std::marker::Model;

/// At most `room` bytes, in the order in which they were pushed.
#[derive(Drop)]
pub struct Buf {
    room: u32,
    bytes: Vec<u8>,
}

impl Model for Buf {
    ghost use Rattle.std.specs.Prelude.{◌≤◌, length};
    ghost use Rattle.std.specs.Vec.{vec_capacity};
    ghost use Rattle.jet_pool.specs.Pool.{BufValue};

    ghost Value = { BufValue };

    ghost view = { λ b. record { room = b.room; bytes = b.bytes.items } };

    ghost invariant = { λ b. (length b.bytes.items ≤ b.room) × (b.room ≤ vec_capacity b.bytes) };
}

impl Buf {
    // An empty buffer.
    pub(crate) fn new(alloc: Global, room: u32) -> Result<Buf, NoMemory>
        ensures { IfOk result (λ b. b ≡ empty_buf room) }
    {
        let bytes = Vec::with_capacity(alloc, room as usize)?;
        Ok(Buf { room, bytes })
    }

    /// Appends the bytes where they fit, all or none.
    pub fn push(&mut self, bytes: &[u8]) -> bool
        ensures fits { IsTrue result ↔ (length self.old.bytes + length bytes.now ≤ self.old.room) }
        ensures pushed { OnTrue result (self.new ≡ record self.old { bytes = self.old.bytes ++ bytes.now }) }
        ensures full { OnFalse result (self.new ≡ self.old) }
    {
        bytes.len() <= self.room as usize - self.bytes.len()
            && self.bytes.extend_from_slice(bytes).is_ok()
    }

    /// The bytes pushed.
    pub fn bytes(&self) -> &[u8]
        ensures bytes { result.now ≡ self.now.bytes }
        ensures most { length self.now.bytes ≤ self.now.room }
    {
        &self.bytes
    }

    /// How many bytes fit into the buffer while it is empty.
    pub fn room(&self) -> u32
        ensures { result ≡ self.now.room }
    {
        self.room
    }

    // Takes all bytes out.
    pub(crate) fn clear(&mut self)
        ensures { self.new ≡ empty_buf self.old.room }
    {
        self.bytes.clear();
    }
}
