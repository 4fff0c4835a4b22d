// The sizes of a sliding window: it ends at each multiple of the slide, and holds the times from its end less the size
// up to its end, which it does not hold (half open). This is the sliding window of Hazelcast Jet's reference manual.
ghost use Rattle.std.specs.Prelude.{◌≡◌, ℤ, pos, ◌+ℤ◌, ◌-ℤ◌, MatchResult, Some, None};
ghost use Rattle.jet_items.specs.Grid.{IsMultiple, IsFloor, IsFrameEnd, floor_to};
ghost use Rattle.jet_items.specs.Ranges.{IsWithin, most_time, most_frame_end, most_mark};

use std::marker::Model;
use thiserror::Error;

/// Why sizes are no policy. Each has a number, from 1 on, in the order in which they are looked for.
#[derive(Clone, Copy, Debug, PartialEq, Eq, Error)]
pub enum PolicyFault {
    /// The size is outside 1 to 10^12.
    #[error("the size of a window is from 1 to 10^12")]
    Size,
    /// The slide is outside 1 to 10^12.
    #[error("the slide of a window is from 1 to 10^12")]
    Slide,
    /// The size is no multiple of the slide.
    #[error("the size of a window is a multiple of its slide")]
    NotMultiple,
    /// The size is more than 1024 slides.
    #[error("the size of a window is at most 1024 slides")]
    Ratio,
}

impl PolicyFault {
    ghost use Rattle.jet_policy.specs.PolicyCause.{fault_number};

    /// The number of the fault: 1 Size, 2 Slide, 3 NotMultiple, 4 Ratio.
    pub fn number(&self) -> u8
        ensures { result ≡ fault_number self.now }
    {
        match self {
            PolicyFault::Size => 1,
            PolicyFault::Slide => 2,
            PolicyFault::NotMultiple => 3,
            PolicyFault::Ratio => 4,
        }
    }
}

/// The size and the slide of a window, in the unit of the timestamps.
///
/// Both are at most 10^12, so that the end of each window that holds a timestamp stays near the range of timestamps, 10^15,
/// and far within 64 bits. A window has at most 1024 slides, which bounds what each event costs.
#[derive(Clone, Copy)]
pub struct WinPolicy {
    size: i64,
    slide: i64,
}

impl Model for WinPolicy {
    ghost use Rattle.std.specs.Prelude.{ℤ};
    ghost use Rattle.jet_policy.specs.Policy.{PolicyValue, IsPolicy};

    ghost Value = { PolicyValue };

    ghost view = { λ p. record { size = p.size; slide = p.slide } };

    ghost invariant = { λ p. IsPolicy p.size p.slide };

    ghost inverse = { λ p. record { size = p.size; slide = p.slide } };
}

impl WinPolicy {
    ghost use Rattle.jet_policy.specs.Policy.{IsPolicy, IsLastEnd};
    ghost use Rattle.jet_policy.specs.PolicyCause.{policy_fault};

    /// The policy of these sizes, or the first fault of them.
    pub fn new(size: i64, slide: i64) -> Result<WinPolicy, PolicyFault>
        ensures ok { MatchResult result (λ p. (p.size ≡ size) × (p.slide ≡ slide) × (policy_fault size slide ≡ None)) (λ e. policy_fault size slide ≡ Some e) }
    {
        if size < 1 || size > 1_000_000_000_000 {
            return Err(PolicyFault::Size);
        }
        if slide < 1 || slide > 1_000_000_000_000 {
            return Err(PolicyFault::Slide);
        }
        if size.rem_euclid(slide) != 0 {
            return Err(PolicyFault::NotMultiple);
        }
        if 1024 * slide < size {
            return Err(PolicyFault::Ratio);
        }
        Ok(WinPolicy { size, slide })
    }

    /// The size.
    pub fn size(&self) -> i64
        ensures value { result ≡ self.now.size }
        ensures policy { IsPolicy self.now.size self.now.slide }
    {
        self.size
    }

    /// The slide.
    pub fn slide(&self) -> i64
        ensures value { result ≡ self.now.slide }
        ensures policy { IsPolicy self.now.size self.now.slide }
    {
        self.slide
    }

    /// The greatest multiple of the slide that is at most `t`, which lies within 4·10^15 of 0, the range of marks.
    pub fn floor(&self, t: i64) -> i64
        requires { IsWithin most_mark t }
        ensures greatest { IsFloor self.now.slide t result }
        ensures value { result ≡ floor_to self.now.slide t }
    {
        t - t.rem_euclid(self.slide)
    }

    /// The least multiple of the slide above `ts`, which lies within 4·10^15 of 0: the end of its frame.
    pub fn frame_end(&self, ts: i64) -> i64
        requires { IsWithin most_mark ts }
        ensures least { IsFrameEnd self.now.slide ts result }
        ensures value { result ≡ floor_to self.now.slide ts +ℤ self.now.slide }
        ensures policy { IsPolicy self.now.size self.now.slide }
    {
        self.floor(ts) + self.slide
    }

    /// The end of the last window that holds the frame which ends here, within 1,001·10^12 of 0, the range of frames' ends.
    pub fn last_end(&self, end: i64) -> i64
        requires { IsWithin most_frame_end end }
        ensures last { IsMultiple self.now.slide end → IsLastEnd self.now.size self.now.slide end result }
        ensures value { result ≡ (end +ℤ self.now.size) -ℤ self.now.slide }
    {
        end + self.size - self.slide
    }
}
