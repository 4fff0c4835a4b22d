// The ends of rings that a tasklet lends out.
use crate::Tasklet;
use jet_boxes::Processor;
use jet_conveyor::Conveyor;
use jet_router::Router;

impl<P: Processor> Tasklet<P> {
    ghost use Rattle.std.specs.Prelude.{◌≡◌, ◌<◌, length, Some, slice_get, map};
    ghost use Rattle.std.specs.Borrow.{sem, Lends};
    ghost use Rattle.jet_tasklet.specs.Lending.{with_input, with_output};
    ghost use Rattle.jet_conveyor.specs.contracts.conveyor.Conveyor as conveyor;
    ghost use Rattle.jet_router.specs.contracts.router.Router as router;
    ghost use Rattle.jet_tasklet.specs.contracts.tasklet.Tasklet.{the_row};

    /// The conveyor of one input, for meetings with the other ends of its queues.
    pub fn input(&mut self, n: u32) -> &mut Conveyor
        requires { n < length self.old.inputs.items }
        ensures* writes_back { sem 𝓛 (Lends (the_row P.row) conveyor.the_row self.entry result (with_input self.entry.now n result.now)) }
        ensures value { slice_get (map (λ i. i.conveyor) self.old.inputs.items) n ≡ Some result.now }
    {
        let lent = &mut self.inputs[n as usize];
        &mut lent.conveyor
    }

    /// The router of one output, for meetings with the other ends of its destinations.
    pub fn output(&mut self, n: u32) -> &mut Router
        requires { n < length self.old.outputs.items }
        ensures* writes_back { sem 𝓛 (Lends (the_row P.row) router.the_row self.entry result (with_output self.entry.now n result.now)) }
        ensures value { slice_get (map (λ o. o.router) self.old.outputs.items) n ≡ Some result.now }
    {
        let lent = &mut self.outputs[n as usize];
        &mut lent.router
    }
}
