// Outputs: routers, each with what it has had of the outbox.
ghost use Rattle.std.specs.Prelude.{◌≡◌, ◌⊎◌, true, false, List};
ghost use Rattle.jet_items.specs.declared.item.Item.{Item};
ghost use Rattle.jet_router.specs.Router.{sent_count};
ghost use Rattle.jet_router.specs.Deals.{IsFull};
ghost use Rattle.jet_tasklet.specs.Outputs.{output_view, InGift, Waits, Says};
ghost use Rattle.jet_tasklet.specs.Turned.{OutputGoes};

use jet_items::Item;
use jet_router::{Given, Router};

/// The destinations of one edge, and whether they have had the item at the front of the outbox.
#[derive(Drop)]
pub(crate) struct Output {
    pub(crate) router: Router,
    pub(crate) had: bool,
}

impl Output {
    // Gives the item, unless it was given before, and answers whether it was pushed into a ring.
    pub(crate) fn give(&mut self, item: &Item) -> bool
        requires { (gave : List Item) × InGift gave item.now (output_view self.old) }
        ensures gives { (gave : List Item) → InGift gave item.now (output_view self.old) → InGift gave item.now (output_view self.new) }
        ensures goes { OutputGoes (output_view self.old) (output_view self.new) }
        ensures full { (output_view self.new).had ≡ false → IsFull (output_view self.new).router item.now }
        ensures keeps { (output_view self.old).had ≡ true → output_view self.new ≡ output_view self.old }
        ensures waits { Waits (output_view self.old) → (result ≡ true) ⊎ Waits (output_view self.new) }
        ensures pushed { Says result (sent_count (output_view self.old).router) (sent_count (output_view self.new).router) }
    {
        if self.had {
            return false;
        }
        if self.router.gives_to_each(item) {
            return self.give_to_each(item);
        }
        self.had = matches!(self.router.give(item), Given::All);
        self.had
    }

    // Gives an item that goes to each destination, of which some may take it now: the free slots tell.
    fn give_to_each(&mut self, item: &Item) -> bool
        requires gift { (gave : List Item) × InGift gave item.now (output_view self.old) }
        requires waits { (output_view self.old).had ≡ false }
        ensures gives { (gave : List Item) → InGift gave item.now (output_view self.old) → InGift gave item.now (output_view self.new) }
        ensures goes { OutputGoes (output_view self.old) (output_view self.new) }
        ensures full { (output_view self.new).had ≡ false → IsFull (output_view self.new).router item.now }
        ensures waits { Waits (output_view self.old) → (result ≡ true) ⊎ Waits (output_view self.new) }
        ensures pushed { Says result (sent_count (output_view self.old).router) (sent_count (output_view self.new).router) }
    {
        let free = self.router.free();
        self.had = matches!(self.router.give(item), Given::All);
        self.router.free() != free
    }
}
