// The counts of a sender are kept modulo 2^64, and differences alone are compared: by the bounds of a link no two of
// them are further apart than that.
ghost use Rattle.std.specs.Prelude.{◌≡◌, ◌≤◌, ◌<◌, ◌+◌, ◌^◌, ◌↔◌, IsTrue};
ghost use Rattle.jet_link.specs.Link.{less, Accepts};

use crate::LinkShape;

/// How many bytes were sent, how many of them are acknowledged, and how many may be sent in all.
#[derive(Clone, Copy)]
pub struct Counts {
    pub sent: u64,
    pub acked: u64,
    pub limit: u64,
}

impl Counts {
    ghost use Rattle.std.specs.Prelude.{◌≡◌, ◌≤◌, ◌<◌, ◌+◌, ◌^◌, ◌↔◌, IsTrue};
    ghost use Rattle.jet_link.specs.Link.{less, Accepts};

    // Whether a link allows an acknowledgement of these two counts: no more is acknowledged than was sent and no less
    // than before, and the limit lies between the least and the greatest grant ahead and not below the present one.
    pub(crate) fn accepts(&self, shape: &LinkShape, processed: u64, offer: u64) -> bool
        requires { less self.now.sent self.now.acked < 2 ^ 63 }
        ensures fits { (processed < 2 ^ 64) × (offer < 2 ^ 64) }
        ensures value { IsTrue result ↔ Accepts shape.now self.now.sent self.now.acked self.now.limit processed offer }
    {
        let in_flight = self.sent.wrapping_sub(self.acked);
        let newly = processed.wrapping_sub(self.acked);
        let ahead = offer.wrapping_sub(processed);
        newly <= in_flight
            && shape.window as u64 <= ahead
            && ahead <= shape.peak as u64
            && self.limit.wrapping_sub(self.acked) <= newly + ahead
    }

    // Whether a packet may begin: the bytes sent are below the limit.
    pub(crate) fn may_begin(&self) -> bool
        ensures { IsTrue result ↔ (less self.now.sent self.now.acked < less self.now.limit self.now.acked) }
    {
        self.sent.wrapping_sub(self.acked) < self.limit.wrapping_sub(self.acked)
    }
}
