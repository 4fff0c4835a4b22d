// A cursor over bytes that reads the fields of items. Numbers are big-endian.
ghost use Rattle.std.specs.Prelude.{◌≡◌, ◌≤◌, ◌<◌, take, drop, length, MatchOption, IfSome};
ghost use Rattle.std.specs.List.{AllByRecursion};
ghost use Rattle.std.specs.Int.{w16, w32, w64, w128};
ghost use Rattle.jet_items.specs.Ranges.{IsWithin, most_time};
ghost use Rattle.jet_spell.specs.Reading.{Answers, byte_at, number_at, signed_at, within_at, bytes_at, key_at, values_at};

use jet_items::Key;
use std::marker::Model;

// Times and values lie within 10^15 of 0.
pub(crate) const MOST_TIME: u64 = 1_000_000_000_000_000;

/// What is still to be read. Contracts see the list of the bytes.
#[derive(Drop)]
pub(crate) struct Reader<'a> {
    rest: &'a [u8],
}

impl<'a> Model for Reader<'a> {
    ghost use Rattle.std.specs.Prelude.{List, ℕ};

    ghost Value = { List ℕ };

    ghost view = { λ r. r.rest.now };
}

impl<'a> Reader<'a> {
    pub(crate) fn new(bytes: &'a [u8]) -> Reader<'a>
        ensures { result ≡ bytes.now }
    {
        Reader { rest: bytes }
    }

    pub(crate) fn left(&self) -> usize
        ensures { result ≡ length self.now }
    {
        self.rest.len()
    }

    #[tactic(auto, unfolding(crate::specs::Reading::byte_at))]
    pub(crate) fn byte(&mut self) -> Option<u8>
        ensures { Answers (byte_at self.old) result self.new }
    {
        let (first, rest) = self.rest.split_first()?;
        self.rest = rest;
        Some(*first)
    }

    #[tactic(auto, unfolding(crate::specs::Reading::number_at))]
    pub(crate) fn u16(&mut self) -> Option<u16>
        ensures { Answers (number_at w16 self.old) result self.new }
    {
        Some(u16::from_be_bytes(self.array()?))
    }

    #[tactic(auto, unfolding(crate::specs::Reading::number_at))]
    pub(crate) fn u32(&mut self) -> Option<u32>
        ensures { Answers (number_at w32 self.old) result self.new }
    {
        Some(u32::from_be_bytes(self.array()?))
    }

    #[tactic(auto, unfolding(crate::specs::Reading::number_at))]
    pub(crate) fn u64(&mut self) -> Option<u64>
        ensures { Answers (number_at w64 self.old) result self.new }
    {
        Some(u64::from_be_bytes(self.array()?))
    }

    #[tactic(auto, unfolding(crate::specs::Reading::signed_at, crate::specs::Reading::number_at))]
    pub(crate) fn i64(&mut self) -> Option<i64>
        ensures { Answers (signed_at w64 self.old) result self.new }
    {
        Some(i64::from_be_bytes(self.array()?))
    }

    #[tactic(auto, unfolding(crate::specs::Reading::signed_at, crate::specs::Reading::number_at))]
    pub(crate) fn i128(&mut self) -> Option<i128>
        ensures { Answers (signed_at w128 self.old) result self.new }
    {
        Some(i128::from_be_bytes(self.array()?))
    }

    // A number that lies so far from 0 at most.
    #[tactic(auto, unfolding(crate::specs::Reading::within_at))]
    pub(crate) fn within(&mut self, most: u64) -> Option<i64>
        ensures read { Answers (within_at most self.old) result self.new }
        ensures range { IfSome result (IsWithin most) }
    {
        let value = self.i64()?;
        (value.unsigned_abs() <= most).then_some(value)
    }

    #[tactic(auto, unfolding(crate::specs::Reading::values_at))]
    pub(crate) fn values(&mut self) -> Option<[i64; 4]>
        ensures read { Answers (values_at 4 self.old) result self.new }
        ensures range { IfSome result (AllByRecursion (IsWithin most_time)) }
    {
        Some([
            self.within(MOST_TIME)?,
            self.within(MOST_TIME)?,
            self.within(MOST_TIME)?,
            self.within(MOST_TIME)?,
        ])
    }

    #[tactic(auto, unfolding(crate::specs::Reading::key_at))]
    pub(crate) fn key(&mut self) -> Option<Key>
        ensures { Answers (key_at self.old) result self.new }
    {
        let len = self.byte()?;
        let bytes = self.bytes(len)?;
        Key::read(bytes, 40).ok()
    }

    #[tactic(auto, unfolding(crate::specs::Reading::bytes_at))]
    fn bytes(&mut self, len: u8) -> Option<&'a [u8]>
        ensures { MatchOption result (bytes_at len self.old ≡ None) (λ b. bytes_at len self.old ≡ Some (b.now, self.new)) }
    {
        let len = usize::from(len);
        if self.rest.len() < len {
            return None;
        }
        let (front, rest) = self.rest.split_at(len);
        self.rest = rest;
        Some(front)
    }

    fn array<const N: usize>(&mut self) -> Option<[u8; N]>
        ensures { MatchOption result (length self.old < N) (λ a. (N ≤ length self.old) × (a ≡ take N self.old) × (self.new ≡ drop N self.old)) }
    {
        let (front, rest) = self.rest.split_first_chunk::<N>()?;
        self.rest = rest;
        Some(*front)
    }
}
