// Late events: what a window does not count.
use crate::Event;
use std::marker::Model;

/// An event that came late at the window of this vertex.
#[derive(Clone, Copy)]
pub struct Late {
    pub vertex: u8,
    pub event: Event,
}

impl Model for Late {
    ghost use Rattle.jet_items.specs.Values.{LateValue};

    ghost Value = { LateValue };

    ghost view = { λ l. record { vertex = l.vertex; event = l.event } };

    ghost inverse = { λ l. record { vertex = l.vertex; event = l.event } };
}

impl Late {
    ghost use Rattle.jet_items.specs.Fits.{LateFits};

    /// A law for proofs above: each late event lies in the ranges of its types. The call does nothing.
    pub fn fits(&self)
        ensures { LateFits self.now }
    {
        let _vertex = self.vertex;
        self.event.fits();
    }
}
