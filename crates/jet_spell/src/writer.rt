// A spelling that is being written, field by field. Numbers are big-endian.
ghost use Rattle.std.specs.Prelude.{◌≡◌, ◌+◌, ◌≤◌, ◌++◌, [], ◌∷◌, length};
ghost use Rattle.std.specs.Int.{w64, w128};
ghost use Rattle.jet_spell.specs.Spelling.{signed_bytes, key_bytes, values_bytes};

use jet_items::Key;
use std::marker::Model;

/// Room for the longest spelling, which is that of a side row with two keys of 40 bytes. Contracts see the list of the
/// bytes written.
#[derive(Drop)]
pub(crate) struct Writer {
    bytes: [u8; 119],
    len: usize,
}

impl Model for Writer {
    ghost use Rattle.std.specs.Prelude.{◌≡◌, ◌≤◌, List, ℕ, length, take};

    ghost Value = { List ℕ };

    ghost view = { λ w. take w.len w.bytes };

    ghost invariant = { λ w. (w.len ≤ 119) × (length w.bytes ≡ 119) };
}

impl Writer {
    pub(crate) fn new() -> Writer
        ensures { result ≡ [] }
    {
        Writer {
            bytes: [0; 119],
            len: 0,
        }
    }

    /// The bytes written.
    pub(crate) fn bytes(&self) -> &[u8]
        ensures { result.now ≡ self.now }
    {
        &self.bytes[..self.len]
    }

    /// Appends the bytes.
    pub(crate) fn put(&mut self, bytes: &[u8])
        requires { length self.old + length bytes.now ≤ 119 }
        ensures { self.new ≡ self.old ++ bytes.now }
    {
        let end = self.len + bytes.len();
        self.bytes[self.len..end].copy_from_slice(bytes);
        self.len = end;
    }

    pub(crate) fn byte(&mut self, byte: u8)
        requires { length self.old + 1 ≤ 119 }
        ensures { self.new ≡ self.old ++ byte ∷ [] }
    {
        self.put(&[byte]);
    }

    pub(crate) fn i64(&mut self, value: i64)
        requires { length self.old + 8 ≤ 119 }
        ensures { self.new ≡ self.old ++ signed_bytes w64 value }
    {
        self.put(&value.to_be_bytes());
    }

    pub(crate) fn i128(&mut self, value: i128)
        requires { length self.old + 16 ≤ 119 }
        ensures { self.new ≡ self.old ++ signed_bytes w128 value }
    {
        self.put(&value.to_be_bytes());
    }

    /// The key's length in one byte, and its bytes.
    pub(crate) fn key(&mut self, key: &Key)
        requires { length self.old + 41 ≤ 119 }
        ensures key { self.new ≡ self.old ++ key_bytes key.now }
        ensures most { length key.now ≤ 40 }
    {
        let bytes = key.bytes();
        self.byte(bytes.len() as u8);
        self.put(bytes);
    }

    pub(crate) fn values(&mut self, values: &[i64; 4])
        requires { length self.old + 32 ≤ 119 }
        ensures { self.new ≡ self.old ++ values_bytes values.now }
    {
        for value in values {
            self.i64(*value);
        }
    }
}
