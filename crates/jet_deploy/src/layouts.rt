// All tasklets of a layout, over the rings that are there for them.
ghost use Rattle.std.specs.Prelude.{◌≡◌, ◌<◌, ◌^◌, length, vec_len, IfOk, OnOk};
ghost use Rattle.jet_deploy.specs.Grounds.{ground_of, IsSound};
ghost use Rattle.jet_deploy.specs.Making.{AreMade, CanMake, Remains};

use crate::Ground;
use crate::instances::instance_tasklet;
use crate::links::link_tasklets;
use jet_harness::Harness;
use jet_items::NoMemory;
use jet_layout::Task;
use jet_tasklet::AnyTasklet;
use std::alloc::Global;

/// All tasklets, in their order. Their ends are taken out of the harness. It fails only for want of memory.
pub fn tasklets(
    alloc: Global,
    ground: Ground<'_>,
    harness: &mut Harness,
    tasks: &[Task],
) -> Result<Vec<AnyTasklet>, NoMemory>
    requires ground { IsSound ground }
    requires can { CanMake (ground_of ground) harness.old tasks.now }
    requires small { length tasks.now < 2 ^ 62 }
    ensures count { IfOk result (λ ts. vec_len ts ≡ length tasks.now) }
    ensures made { IfOk result (λ ts. AreMade (ground_of ground.entry) harness.old tasks.now ts.items) }
    ensures rest { OnOk result (Remains (length tasks.now) harness.old harness.new) }
{
    let mut tasklets = Vec::new(alloc);
    for (number, task) in tasks.iter().enumerate() {
        match *task {
            Task::Run(instance) => {
                tasklets.push(instance_tasklet(alloc, ground, harness, number, instance)?)?;
            }
            Task::Send(link) => {
                let (sender, receiver) = link_tasklets(alloc, ground, harness, number, link)?;
                tasklets.push(sender)?;
                tasklets.push(receiver)?;
            }
            // It was made with what sends over its link, which stands before it.
            Task::Receive(_) => {}
        }
    }
    Ok(tasklets)
}
