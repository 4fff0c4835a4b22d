// The ends of rings that a sender and a receiver lend out.
use crate::{Receiver, Sender};
use jet_conveyor::Conveyor;
use jet_router::Router;

impl Sender {
    ghost use Rattle.std.specs.Prelude.{◌≡◌, List, ℕ};
    ghost use Rattle.std.specs.Borrow.{sem, Lends};
    ghost use Rattle.jet_conveyor.specs.Conveyor as conveyors;
    ghost use Rattle.jet_conveyor.specs.contracts.conveyor.Conveyor as conveyor;
    ghost use Rattle.jet_conveyor.specs.declared.conveyor.Conveyor.{Conveyor as Queues};
    ghost use Rattle.jet_wire.specs.Lending.{conveyor_of, with_conveyor};
    ghost use Rattle.jet_wire.specs.Sender.{sender_view, Stays};
    ghost use Rattle.jet_wire.specs.contracts.sender.Sender.{the_row};

    /// The conveyor, for meetings with the other ends of its queues. A meeting leaves what the sender keeps, and
    /// the rest of the sender stays as it is.
    pub fn conveyor(&mut self) -> &mut Conveyor
        ensures* writes_back { sem 𝓛 (Lends the_row conveyor.the_row self.entry result (with_conveyor self.entry.now)) }
        ensures value { result.now ≡ conveyor_of self.old }
        ensures meets { (w : Queues) → (q : ℕ) → conveyors.Refreshed (conveyors.view (conveyor_of self.old)) (conveyors.view w) q → Stays (sender_view self.old) (sender_view (with_conveyor self.old w)) }
        ensures rest { (w : Queues) → sender_view (with_conveyor self.old w) ≡ record (sender_view self.old) { queues = conveyors.view w } }
    {
        &mut self.conveyor
    }
}

impl Receiver {
    ghost use Rattle.std.specs.Prelude.{◌≡◌, List, ℕ};
    ghost use Rattle.std.specs.Borrow.{sem, Lends};
    ghost use Rattle.jet_router.specs.Router as routers;
    ghost use Rattle.jet_router.specs.contracts.router.Router as router;
    ghost use Rattle.jet_router.specs.declared.router.Router.{Router as Routes};
    ghost use Rattle.jet_wire.specs.Lending.{router_of, with_router};
    ghost use Rattle.jet_wire.specs.Receiver.{receiver_view, ReceiverStays};
    ghost use Rattle.jet_wire.specs.contracts.receiver.Receiver.{the_row};

    /// The router, for meetings with the other ends of its destinations. A meeting leaves what the receiver
    /// keeps, and the rest of the receiver stays as it is.
    pub fn router(&mut self) -> &mut Router
        ensures* writes_back { sem 𝓛 (Lends the_row router.the_row self.entry result (with_router self.entry.now)) }
        ensures value { result.now ≡ router_of self.old }
        ensures meets { (w : Routes) → (d : ℕ) → routers.Refreshed (routers.view (router_of self.old)) (routers.view w) d → ReceiverStays (receiver_view self.old) (receiver_view (with_router self.old w)) }
        ensures rest { (w : Routes) → receiver_view (with_router self.old w) ≡ record (receiver_view self.old) { router = routers.view w } }
    {
        &mut self.router
    }
}
