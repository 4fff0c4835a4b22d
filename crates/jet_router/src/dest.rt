// One destination of a router.
ghost use Rattle.std.specs.Prelude.{◌≡◌};
ghost use Rattle.jet_router.specs.Dest.{dest_view, served, unserved};

use jet_items::Item;
use jet_ring::Tx;

/// A ring's end, and whether it was sent the item in hand.
#[derive(Drop)]
pub(crate) struct Dest {
    pub(crate) tx: Tx<Item>,
    pub(crate) had: bool,
}

impl Dest {
    // Offers the item, unless it was sent before, and says whether it was sent.
    pub(crate) fn serve(&mut self, item: &Item) -> bool
        ensures after { dest_view self.new ≡ served item.now (dest_view self.old) }
        ensures value { result ≡ (dest_view self.new).had }
    {
        if !self.had && self.tx.put(item) {
            self.had = true;
        }
        self.had
    }

    // Forgets the item in hand.
    pub(crate) fn clear(&mut self)
        ensures { dest_view self.new ≡ unserved (dest_view self.old) }
    {
        self.had = false;
    }
}
