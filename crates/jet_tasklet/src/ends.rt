// What a tasklet has given: so far, in whatever state it is, and once it has ended.
ghost use Rattle.std.specs.Prelude.{◌≡◌, List, [], ◌∷◌, ◌++◌};
ghost use Rattle.jet_items.specs.declared.item.Item.{Item};
ghost use Rattle.jet_items.specs.declared.item.Item.TheVariants as item;
ghost use Rattle.jet_tasklet.specs.declared.arrival.Arrival.{Arrival};
ghost use Rattle.jet_tasklet.specs.Inputs.{inputs_view};
ghost use Rattle.jet_tasklet.specs.Keeps.{Keeps};
ghost use Rattle.jet_tasklet.specs.Outputs.{outputs_view};
ghost use Rattle.jet_tasklet.specs.Over.{told_of, SoFar, Over};
ghost use Rattle.jet_tasklet.specs.Turning.{HasEnded};

use crate::Tasklet;
use jet_boxes::Processor;

impl<P: Processor> Tasklet<P> {
    /// What the processor is told is all that its queues received, port by port, in an order in which it may come; and what
    /// it has given of that, in whatever state the tasklet is, follows as its laws say.
    pub fn law_gives_so_far(&self)
        ensures bag { (came : List Arrival) → (gave : List Item) → Keeps P.stands P.amid P.takes self.now came gave
            → SoFar (P.bag self.now.processor) (P.bag_amid self.now.processor) (inputs_view self.now.inputs.items) (told_of self.now came) (gave ++ self.now.outbox.items) }
        ensures marks { (came : List Arrival) → (gave : List Item) → Keeps P.stands P.amid P.takes self.now came gave
            → SoFar (P.marks self.now.processor) (P.marks_amid self.now.processor) (inputs_view self.now.inputs.items) (told_of self.now came) (gave ++ self.now.outbox.items) }
    {
        self.law_keeps();
        self.law_told_in_order();
    }

    /// Once a tasklet has ended, every queue is done, its processor has taken all that these received, and what it gave of
    /// that, as its laws say, was given to each output, with Done behind it.
    pub fn law_ends(&self)
        ensures { (came : List Arrival) → (gave : List Item) → Keeps P.stands P.amid P.takes self.now came gave → HasEnded self.now
            → (given : List Item) × (gave ≡ given ++ item.Done ∷ [])
            × (Over (P.bag self.now.processor) (inputs_view self.now.inputs.items) (outputs_view self.now.outputs.items) (told_of self.now came) given × P.marks self.now.processor (told_of self.now came) given) }
    {
        self.law_told_in_order();
    }
}
