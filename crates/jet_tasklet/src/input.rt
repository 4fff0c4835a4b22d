// Inputs: conveyors with the ports that they lead to.
ghost use Rattle.std.specs.Prelude.{◌≡◌, ◌<◌, length, IfSome, IfNone};
ghost use Rattle.std.specs.List.{list_all};
ghost use Rattle.jet_conveyor.specs.Conveyor.{Found, SeesMore, NoneKnown, InTurn};
ghost use Rattle.jet_tasklet.specs.Inputs.{input_view};
ghost use Rattle.jet_tasklet.specs.Trace.{same_port};

use jet_boxes::Port;
use jet_conveyor::Conveyor;

/// The queues of one edge, and the port that they lead to.
#[derive(Drop)]
pub struct Input {
    pub port: Port,
    pub conveyor: Conveyor,
}

impl Input {
    // Whether the queues lead to this port.
    pub(crate) fn leads_to(&self, port: Port) -> bool
        ensures { result ≡ same_port self.now.port port }
    {
        match (self.port, port) {
            (Port::Stream, Port::Stream) | (Port::Build, Port::Build) => true,
            _ => false,
        }
    }

    // Whether each queue is done.
    pub(crate) fn have_ended(&self) -> bool
        ensures { result ≡ list_all (λ d. d) (input_view self.now).queues.done }
    {
        self.conveyor.all_done()
    }

    // Finds the first queue in turn that has an item.
    pub(crate) fn find(&mut self) -> Option<u32>
        ensures port { self.new.port ≡ self.old.port }
        ensures found { IfSome result (λ q. (q < length (input_view self.old).queues.rings) × Found (input_view self.old).queues (input_view self.new).queues q) }
        ensures in_turn { IfSome result (λ q. InTurn (input_view self.old).queues q) }
        ensures nothing { IfNone result (input_view self.new ≡ input_view self.old) }
        ensures cause { IfNone result (NoneKnown (input_view self.old).queues 0 (length (input_view self.old).queues.rings)) }
        ensures seen { SeesMore (input_view self.old).queues (input_view self.new).queues }
    {
        self.conveyor.find()
    }
}
