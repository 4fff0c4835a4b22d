// Frames: the first stage of a sliding window, one for each slide.
use crate::{Acc, Key};
use std::marker::Model;

/// What is known of the events of a key from one multiple of the slide to the next, which is `end`. `end` lies within
/// 1,001·10^12 of 0: a timestamp and one slide.
#[derive(Clone, Copy)]
pub struct Frame {
    pub vertex: u8,
    pub end: i64,
    pub key: Key,
    pub acc: Acc,
}

impl Model for Frame {
    ghost use Rattle.jet_items.specs.Ranges.{IsWithin, most_frame_end};
    ghost use Rattle.jet_items.specs.Values.{FrameValue};

    ghost Value = { FrameValue };

    ghost view = { λ f. record { vertex = f.vertex; end = f.end; key = f.key; acc = f.acc } };

    ghost invariant = { λ f. IsWithin most_frame_end f.end };

    ghost inverse = { λ f. record { vertex = f.vertex; end = f.end; key = f.key; acc = f.acc } };
}

impl Frame {
    ghost use Rattle.jet_items.specs.Fits.{FrameFits};

    /// A law for proofs above: each frame lies in the ranges of its types. The call does nothing.
    pub fn fits(&self)
        ensures { FrameFits self.now }
    {
        let (_vertex, _key) = (self.vertex, self.key.bytes());
        self.acc.fits();
    }
}
