// The stock of a link's sender. It keeps its buffers empty: a buffer is emptied when it is put back.
ghost use Rattle.std.specs.Prelude.{◌≡◌, ◌+◌, ◌<◌, ◌≤◌, ◌↔◌, [], IsNone, IfOk, IfSome, OnSome, IfNone};
ghost use Rattle.jet_pool.specs.Pool.{empty_buf};

use crate::Buf;
use jet_items::NoMemory;
use std::alloc::Global;
use std::marker::Model;

/// `n` buffers of one room, less those that are taken.
#[derive(Drop)]
pub struct Stock {
    n: u32,
    room: u32,
    buffers: Vec<Buf>,
}

impl Model for Stock {
    ghost use Rattle.std.specs.Prelude.{length};
    ghost use Rattle.std.specs.Vec.{vec_capacity};
    ghost use Rattle.jet_pool.specs.Pool.{StockValue, IsStock};

    ghost Value = { StockValue };

    ghost view = { λ s. record { n = s.n; room = s.room; inside = length s.buffers.items } };

    ghost invariant = { λ s. IsStock s.n s.room s.buffers.items (vec_capacity s.buffers) };
}

impl Stock {
    /// A stock of `n` empty buffers, one at least, with room for `bytes` bytes each, one at least.
    pub fn new(alloc: Global, n: u32, bytes: u32) -> Result<Stock, NoMemory>
        requires some { 1 ≤ n }
        requires room { 1 ≤ bytes }
        ensures { IfOk result (λ s. s ≡ record { n = n; room = bytes; inside = n }) }
    {
        let mut buffers = Vec::with_capacity(alloc, n as usize)?;
        for _ in 0..n {
            buffers.push(Buf::new(alloc, bytes)?)?;
        }
        Ok(Stock {
            n,
            room: bytes,
            buffers,
        })
    }

    /// A buffer of the stock, where one is inside.
    pub fn take(&mut self) -> Option<Buf>
        ensures cause { IsNone result ↔ (self.old.inside ≡ 0) }
        ensures empty { IfSome result (λ b. b ≡ empty_buf self.old.room) }
        ensures taken { OnSome result (self.old ≡ record self.new { inside = self.new.inside + 1 }) }
        ensures none { IfNone result (self.new ≡ self.old) }
    {
        self.buffers.pop()
    }

    /// Puts a buffer back, and empties it.
    pub fn put(&mut self, mut buf: Buf)
        requires fewer { self.old.inside < self.old.n }
        requires room { buf.room ≡ self.old.room }
        ensures { self.new ≡ record self.old { inside = self.old.inside + 1 } }
    {
        buf.clear();
        self.buffers.push_reserved(buf);
    }

    /// How many buffers are inside.
    pub fn inside(&self) -> u32
        ensures inside { result ≡ self.now.inside }
        ensures most { self.now.inside ≤ self.now.n }
    {
        self.buffers.len() as u32
    }
}
