// Keys: one to forty bytes of a small alphabet, kept in place, so that a key is copied without memory.
ghost use Rattle.std.specs.Prelude.{◌≡◌, ◌≤◌, ◌<◌, length, not, position, take, IfSome, IfNone, ◌++◌, ◌-◌, replicate, ◌==◌, ◌+◌, [], ◌∷◌};
ghost use Rattle.std.specs.Ordering.{nat_cmp, as_partial_cmp};
ghost use Rattle.std.specs.Cmp.{partial_order_from_own_ties};
ghost use Rattle.std.specs.Cmp.Lexicographic.{slice_cmp, pointwise, bytes_decides};
ghost use Rattle.std.proofs.Common.{rules, ap};
ghost use Rattle.std.specs.Cmp.Rules.{comparing};
ghost use Rattle.jet_items.specs.KeyBytes.{is_key_byte, IsKey};
ghost use Rattle.jet_items.specs.KeyWords.{number_from};

use std::cmp::Ordering;
use std::hash::{Hash, Hasher};
use std::marker::Model;
use thiserror::Error;

/// Why bytes are no key.
#[derive(Clone, Copy, Debug, PartialEq, Eq, Error)]
pub enum KeyFault {
    /// There are no bytes.
    #[error("a key has at least one byte")]
    Empty,
    /// There are more bytes than the place allows.
    #[error("the key is too long")]
    Long,
    /// The first byte that no key has, by its place from 0 on.
    #[error("byte {0} of the key is no letter, digit or one of _ - . : /")]
    BadByte(u32),
}

/// One to forty bytes of letters, digits and `_ - . : /`. Contracts see the list of its bytes.
///
/// A source file's keys have at most 24 bytes; forty leave room for the tags that a job joins to them, and are five words.
#[derive(Clone, Copy)]
pub struct Key {
    padded: [u8; 40],
    len: u8,
}

impl Model for Key {
    ghost use Rattle.std.specs.Prelude.{◌≡◌, ◌-◌, ◌≤◌, ◌++◌, List, ℕ, length, take, drop, replicate};
    ghost use Rattle.std.proofs.Common.{arith, length-take-le};
    ghost use Rattle.jet_items.specs.KeyBytes.{IsKey, padded_back};

    ghost Value = { List ℕ };

    ghost view = { λ k. take k.len k.padded };

    ghost invariant = { λ k. (k.len ≤ 40) × (length k.padded ≡ 40) × (drop k.len k.padded ≡ replicate (40 - k.len) 0) × IsKey 40 (take k.len k.padded) };

    ghost inverse = { λ bytes. record { padded = bytes ++ replicate (40 - length bytes) 0; len = length bytes } };

    ghost inverse_ok = { λ k h i. record {
      padded = padded_back k.len k.padded h.0 h.1 h.2 i;
      len = length-take-le k.len k.padded (Prim.omega (arith, h.0, h.1)) i;
    } };
}

impl Key {
    ghost use Rattle.jet_items.specs.KeyFaults.{key_at};

    /// The key of these bytes, or the first fault of them. `most`, from 1 to 40, is how many bytes the place allows.
    pub fn read(bytes: &[u8], most: u8) -> Result<Key, KeyFault>
        requires { (1 ≤ most) × (most ≤ 40) }
        ensures value { result ≡ key_at most bytes.now }
    {
        if bytes.is_empty() {
            return Err(KeyFault::Empty);
        }
        if bytes.len() > most as usize {
            return Err(KeyFault::Long);
        }
        let mut padded = [0; 40];
        match fill(&mut padded, bytes) {
            Some(at) => Err(KeyFault::BadByte(at as u32)),
            None => Ok(Key {
                padded,
                len: bytes.len() as u8,
            }),
        }
    }

    /// The bytes.
    pub fn bytes(&self) -> &[u8]
        ensures bytes { result.now ≡ self.now }
        ensures key { IsKey 40 self.now }
    {
        &self.padded[..self.len as usize]
    }

    /// The first forty bytes of the key followed by the tag.
    pub fn joined(&self, tag: &Key) -> Key
        ensures { result ≡ take 40 (self.now ++ tag.now) }
    {
        let (own, more) = (self.bytes(), tag.bytes());
        let padded = both_padded(own, more);
        key_of(&padded[..(own.len() + more.len()).min(40)])
    }
}

impl PartialEq for Key {
    ghost eq = { pointwise ◌==◌ };

    ghost laws = { Prim.search (comparing, rules) };

    // 9 instructions: where only equality is asked, the compiler swaps no word.
    fn eq(&self, other: &Key) -> bool {
        self.cmp(other).is_eq()
    }
}

impl Eq for Key {
    ghost laws = { Prim.search (comparing, rules) };
}

impl PartialOrd for Key {
    ghost partial_cmp = { as_partial_cmp (slice_cmp nat_cmp) };

    ghost laws = { partial_order_from_own_ties (Prim.search (comparing, rules)) (Prim.search (comparing, rules)) };

    fn partial_cmp(&self, other: &Key) -> Option<Ordering> {
        Some(self.cmp(other))
    }
}

impl Ord for Key {
    ghost cmp = { slice_cmp nat_cmp };

    ghost total = { Prim.search (comparing, rules) };

    ghost matches_partial_cmp = { Prim.search (comparing, rules) };

    ghost matches_eq = { Prim.search (comparing, rules) };

    fn cmp(&self, other: &Key) -> Ordering {
        cmp_by_words(&self.padded, &other.padded)
    }
}

impl Hash for Key {
    ghost hash_input = { λ key. key ∷ [] };

    ghost respects_eq = { λ a b same. ap (λ key. key ∷ []) ((bytes_decides a b).0 same) };

    // One write of the bytes: with std's hasher 36 instructions a key of seven bytes, and 85 to find it in a map.
    fn hash<H: Hasher>(&self, state: &mut H) {
        state.write(self.bytes());
    }
}

// Padded keys in their order, eight bytes at a time: 14 instructions a comparison of keys of one to nine bytes, where
// one byte at a time takes 33. The zeros behind a key sort below every byte of a longer one.
fn cmp_by_words(a: &[u8; 40], b: &[u8; 40]) -> Ordering
    ensures { result ≡ slice_cmp nat_cmp a.now b.now }
{
    for n in 0..5 {
        let (of_a, of_b) = (word(a, 8 * n), word(b, 8 * n));
        if of_a != of_b {
            return of_a.cmp(&of_b);
        }
    }
    Ordering::Equal
}

// The number that eight bytes are, the first worth most. The compiler makes one load and one swap of it.
fn word(bytes: &[u8; 40], at: usize) -> u64
    requires { at + 8 ≤ 40 }
    ensures { result ≡ number_from bytes.now at 8 }
{
    u64::from_be_bytes([
        bytes[at],
        bytes[at + 1],
        bytes[at + 2],
        bytes[at + 3],
        bytes[at + 4],
        bytes[at + 5],
        bytes[at + 6],
        bytes[at + 7],
    ])
}

// The bytes of keys as bits: bit b % 64 of number b / 64 says whether b is one. A look takes 7 instructions a byte.
const KEY_BYTES: [u64; 4] = [0x07ff_e000_0000_0000, 0x07ff_fffe_87ff_fffe, 0, 0];

fn is_key_byte(b: u8) -> bool
    ensures { result ≡ is_key_byte b }
{
    KEY_BYTES[usize::from(b / 64)] >> (b % 64) & 1 == 1
}

// Writes the bytes over zeros, up to the first that no key has, and answers where that stands. In one loop a key of seven
// bytes takes 104 instructions to read, with a search first and a copy after it 136.
fn fill(padded: &mut [u8; 40], bytes: &[u8]) -> Option<usize>
    requires zeros { padded.old ≡ replicate 40 0 }
    requires room { length bytes.now ≤ 40 }
    ensures place { result ≡ position (λ b. not (is_key_byte b)) bytes.now }
    ensures bound { IfSome result (λ at. at < length bytes.now) }
    ensures filled { IfNone result (padded.new ≡ bytes.now ++ replicate (40 - length bytes.now) 0) }
{
    for (at, b) in bytes.iter().enumerate() {
        if !is_key_byte(*b) {
            return Some(at);
        }
        padded[at] = *b;
    }
    None
}

// The key of bytes that are one.
fn key_of(bytes: &[u8]) -> Key
    requires { IsKey 40 bytes.now }
    ensures { result ≡ bytes.now }
{
    Key {
        padded: padded_with(bytes),
        len: bytes.len() as u8,
    }
}

// The bytes, and zeros behind them.
fn padded_with(bytes: &[u8]) -> [u8; 40]
    requires { length bytes.now ≤ 40 }
    ensures { result ≡ bytes.now ++ replicate (40 - length bytes.now) 0 }
{
    let mut padded = [0; 40];
    padded[..bytes.len()].copy_from_slice(bytes);
    padded
}

// The bytes, and zeros behind them up to twice the length of the longest key.
fn padded_twice(bytes: &[u8]) -> [u8; 80]
    requires { length bytes.now ≤ 40 }
    ensures { result ≡ bytes.now ++ replicate (80 - length bytes.now) 0 }
{
    let mut padded = [0; 80];
    padded[..bytes.len()].copy_from_slice(bytes);
    padded
}

// The bytes of both, and zeros behind them.
fn both_padded(front: &[u8], back: &[u8]) -> [u8; 80]
    requires front { length front.now ≤ 40 }
    requires back { length back.now ≤ 40 }
    ensures { take (length front.now + length back.now) result ≡ front.now ++ back.now }
{
    let mut padded = padded_twice(front);
    padded[front.len()..front.len() + back.len()].copy_from_slice(back);
    padded
}
