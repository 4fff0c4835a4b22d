// The two ends of links as tasklets, over the rings that are there for them.
ghost use Rattle.std.specs.Prelude.{◌+◌, ◌<◌, ◌^◌, [], IfOk, OnOk};
ghost use Rattle.jet_link.specs.Shape.{IsShape};
ghost use Rattle.jet_tasklet.specs.Any.{AnyKeeps};
ghost use Rattle.jet_tasklet.specs.Meeting.{AreLinkEnds};
ghost use Rattle.jet_deploy.specs.Grounds.{ground_of, IsSound};
ghost use Rattle.jet_deploy.specs.Making.{CanLink, IsSending, IsReceiving, Remains};

use crate::{Ground, router};
use jet_conveyor::Conveyor;
use jet_harness::{Giver, Harness};
use jet_items::NoMemory;
use jet_layout::{Link, Port, Taker};
use jet_plan::{Plan, valid_jobs_keep_their_ranges};
use jet_tasklet::AnyTasklet;
use jet_wire::{LinkShape, Receiver, Sender, link};
use std::alloc::Global;

// The numbers of the links of a plan.
fn shape(plan: &Plan) -> LinkShape
    ensures { IsShape result }
{
    let settings = plan.settings();
    valid_jobs_keep_their_ranges(plan.dag(), settings);
    LinkShape {
        packet: settings.packet.unsigned_abs() as u32,
        window: settings.window.unsigned_abs() as u32,
        peak: settings.peak.unsigned_abs() as u32,
        multiplier: settings.multiplier.unsigned_abs() as u32,
        period: settings.period.unsigned_abs() as u32,
        buffers: plan.buffers(),
    }
}

/// The tasklets of this number and of the next one, which are the two ends of a link. Their ends are taken out of the
/// harness. It fails only for want of memory.
pub fn link_tasklets(
    alloc: Global,
    ground: Ground<'_>,
    harness: &mut Harness,
    task: usize,
    between: Link,
) -> Result<(AnyTasklet, AnyTasklet), NoMemory>
    requires ground { IsSound ground }
    requires can { CanLink (ground_of ground) harness.old task between }
    requires small { task < 2 ^ 63 }
    ensures sends { IfOk result (λ r. IsSending harness.old task r.0) }
    ensures receives { IfOk result (λ r. IsReceiving (ground_of ground.entry) harness.old (task + 1) between r.1) }
    ensures linked { IfOk result (λ r. AreLinkEnds r.0 r.1) }
    ensures keeps { IfOk result (λ r. AnyKeeps r.0 [] [] × AnyKeeps r.1 [] []) }
    ensures leaves { OnOk result (Remains (task + 2) harness.old harness.new) }
{
    let (send, receive) = link(alloc, shape(ground.plan))?;
    let input = Port { task, number: 0 };
    let queues = harness.take_rxs(alloc, Taker::Input(input))?;
    let conveyor = Conveyor::new(alloc, queues)?;
    let sender = Sender::new(alloc, conveyor, send)?;
    let output = Port {
        task: task + 1,
        number: 0,
    };
    let txs = harness.take_txs(alloc, Giver::Output(output))?;
    let joint = ground.joints[between.edge as usize];
    let router = router(alloc, txs, &joint, ground.members, false, between.to)?;
    let receiver = Receiver::new(receive, router);
    Ok((AnyTasklet::Send(sender), AnyTasklet::Receive(receiver)))
}
