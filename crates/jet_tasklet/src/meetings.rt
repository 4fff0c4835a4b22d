// Meetings of the two ends of one ring: between two tasklets, and between a tasklet and an end from outside; and of the
// two ends of a link, which are two rings.
ghost use Rattle.std.specs.Prelude.{◌≡◌, ◌≤◌, ◌++◌, length, List};
ghost use Rattle.jet_items.specs.declared.item.Item.{Item};
ghost use Rattle.jet_ring.specs.Ring as ring;
ghost use Rattle.jet_ring.specs.Ring.{RxView, TxView};
ghost use Rattle.jet_conveyor.specs.Conveyor as conveyors;
ghost use Rattle.jet_tasklet.specs.Inputs.{inputs_view};
ghost use Rattle.jet_tasklet.specs.Outputs.{outputs_view};
ghost use Rattle.jet_tasklet.specs.Views.{ins, outs};
ghost use Rattle.jet_tasklet.specs.Meeting.{HasEnd, HasQueue, IsQueue, AreJoined, HaveMet, EndsMet, GiverMet, TakerMet, AnyGiverMet, AnyTakerMet, AreLinkEnds, HaveMetByLink, AnyLinkMet};

use crate::{AnyTasklet, Tasklet};
use jet_boxes::Processor;
use jet_conveyor::Conveyor;
use jet_items::Item;
use jet_ring::Tx;
use jet_wire::refresh_link;

impl<P: Processor> Tasklet<P> {
    /// The ring from a destination of this tasklet to a queue of another meets.
    pub fn meet<Q: Processor>(
        &mut self,
        output: u32,
        dest: u32,
        taker: &mut Tasklet<Q>,
        input: u32,
        queue: u32,
    )
        requires joined { AreJoined (outputs_view self.old.outputs.items) output dest (inputs_view taker.old.inputs.items) input queue }
        ensures giver { GiverMet P.stands P.amid P.takes self.old self.new output dest }
        ensures taker { TakerMet Q.stands Q.amid Q.takes taker.old taker.new input queue }
        ensures met { HaveMet (outputs_view self.new.outputs.items) output dest (inputs_view taker.new.inputs.items) input queue }
    {
        let tx = self.output(output).tx(dest);
        let Ok(()) = taker.input(input).refresh_queue(queue, tx) else {
            unreachable!()
        };
    }
}

/// The ring from a destination of one tasklet to a queue of another meets.
pub fn meet(
    giver: &mut AnyTasklet,
    output: u32,
    dest: u32,
    taker: &mut AnyTasklet,
    input: u32,
    queue: u32,
)
    requires joined { AreJoined (outs giver.old) output dest (ins taker.old) input queue }
    ensures giver { AnyGiverMet giver.old giver.new output dest }
    ensures taker { AnyTakerMet taker.old taker.new input queue }
    ensures met { HaveMet (outs giver.new) output dest (ins taker.new) input queue }
{
    let tx = giver.output(output).tx(dest);
    let Ok(()) = taker.input(input).refresh_queue(queue, tx) else {
        unreachable!()
    };
}

/// The ring from an end outside to a queue of a tasklet meets.
pub fn meet_source(tx: &mut Tx<Item>, taker: &mut AnyTasklet, input: u32, queue: u32)
    requires joined { (rx : RxView Item) × HasQueue (ins taker.old) input queue rx × (rx.ring ≡ ring.tx_ring tx.old) }
    ensures ring { ring.tx_ring tx.new ≡ ring.tx_ring tx.old }
    ensures sent { ring.sent tx.new ≡ ring.sent tx.old }
    ensures reach { ring.reach tx.old ≤ ring.reach tx.new }
    ensures taker { AnyTakerMet taker.old taker.new input queue }
    ensures met { (rx : RxView Item) × HasQueue (ins taker.new) input queue rx × EndsMet (ring.tx_view tx.new) rx }
{
    let Ok(()) = taker.input(input).refresh_queue(queue, tx) else {
        unreachable!()
    };
}

/// The ring from a destination of a tasklet to a queue of a conveyor outside meets.
pub fn meet_sink(
    giver: &mut AnyTasklet,
    output: u32,
    dest: u32,
    conveyor: &mut Conveyor,
    queue: u32,
)
    requires joined { (tx : TxView Item) × (rx : RxView Item) × HasEnd (outs giver.old) output dest tx × IsQueue (conveyors.view conveyor.old) queue rx × (rx.ring ≡ tx.ring) }
    ensures giver { AnyGiverMet giver.old giver.new output dest }
    ensures conveyor { conveyors.Refreshed (conveyors.view conveyor.old) (conveyors.view conveyor.new) queue }
    ensures seen { conveyors.SeesMore (conveyors.view conveyor.old) (conveyors.view conveyor.new) }
    ensures met { (tx : TxView Item) × (rx : RxView Item) × HasEnd (outs giver.new) output dest tx × IsQueue (conveyors.view conveyor.new) queue rx × EndsMet tx rx }
{
    let tx = giver.output(output).tx(dest);
    let Ok(()) = conveyor.refresh_queue(queue, tx) else {
        unreachable!()
    };
}

/// The two ends of a link meet: of both its rings. Each tasklet keeps what it keeps, and neither gives or takes anything.
pub fn meet_link(sender: &mut AnyTasklet, receiver: &mut AnyTasklet)
    requires joined { AreLinkEnds sender.old receiver.old }
    ensures joined { AreLinkEnds sender.new receiver.new }
    ensures met { HaveMetByLink sender.new receiver.new }
    ensures sender { AnyLinkMet sender.old sender.new }
    ensures receiver { AnyLinkMet receiver.old receiver.new }
{
    let AnyTasklet::Send(from) = sender else {
        unreachable!()
    };
    let AnyTasklet::Receive(to) = receiver else {
        unreachable!()
    };
    let Ok(()) = refresh_link(from, to) else {
        unreachable!()
    };
}
