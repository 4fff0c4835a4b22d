// The rings of a deployed job.
ghost use Rattle.std.specs.Prelude.{◌≡◌, ◌≤◌, ◌<◌, ◌+◌, ◌++◌, OnOk, map, length};
ghost use Rattle.std.specs.List.{flat_map, range_with_len};
ghost use Rattle.jet_layout.specs.declared.wire.Taker.TheVariants.{Input};
ghost use Rattle.jet_layout.specs.Joints.{count, port, taker};
ghost use Rattle.jet_layout.specs.Wires.{producer_wires, local_wires, link_wires};

use crate::{Joint, Link, Port, Taker, Wire};
use jet_items::{List, NoMemory};
use jet_plan::Route;

// Adds the rings out of a producer to the consumers on its own member.
#[tactic(auto, using(crate::proofs::Ranges::map_more))]
fn add_producer(
    wires: &mut List<Wire>,
    joint: &Joint,
    member: u32,
    producer: u32,
) -> Result<(), NoMemory>
    ensures { OnOk result (wires.new ≡ wires.old ++ producer_wires joint.now member producer) }
{
    let giver = joint.from.port(member, producer);
    let consumers = joint.to.count(member);
    if matches!(joint.route, Route::Isolated) {
        if consumers != 0 {
            let taker = joint.to.taker(member, producer % consumers);
            wires.push(Wire { giver, taker })?;
        }
        return Ok(());
    }
    for consumer in 0..consumers {
        let taker = joint.to.taker(member, consumer);
        wires.push(Wire { giver, taker })?;
    }
    Ok(())
}

// Adds the rings between the instances on one member.
#[tactic(auto, using(crate::proofs::Ranges::flat_map_more))]
fn add_local(wires: &mut List<Wire>, joint: &Joint, member: u32) -> Result<(), NoMemory>
    ensures { OnOk result (wires.new ≡ wires.old ++ local_wires joint.now member) }
{
    for producer in 0..joint.from.count(member) {
        add_producer(wires, joint, member, producer)?;
    }
    Ok(())
}

/// Adds the rings of an edge between instances on the same member, on all members.
#[tactic(auto, using(crate::proofs::Ranges::flat_map_more))]
pub fn add_all_local(wires: &mut List<Wire>, joint: &Joint, members: u32) -> Result<(), NoMemory>
    ensures { OnOk result (wires.new ≡ wires.old ++ flat_map (local_wires joint.now) (range_with_len 0 members)) }
{
    for member in 0..members {
        add_local(wires, joint, member)?;
    }
    Ok(())
}

// Adds the rings into the sender of a link, which is the tasklet with this number.
#[tactic(auto, using(crate::proofs::Ranges::map_more))]
fn add_into(
    wires: &mut List<Wire>,
    joint: &Joint,
    sender: usize,
    link: &Link,
) -> Result<(), NoMemory>
    ensures { OnOk result (wires.new ≡ wires.old ++ map (λ i. record { giver = port joint.now.from link.now.from i; taker = Input (record { task = sender; number = 0 }) }) (range_with_len 0 (count joint.now.from link.now.from))) }
{
    let taker = Taker::Input(Port {
        task: sender,
        number: 0,
    });
    for producer in 0..joint.from.count(link.from) {
        let giver = joint.from.port(link.from, producer);
        wires.push(Wire { giver, taker })?;
    }
    Ok(())
}

// Adds the rings out of the receiver of a link, which is the tasklet with this number.
#[tactic(auto, using(crate::proofs::Ranges::map_more))]
fn add_out_of(
    wires: &mut List<Wire>,
    joint: &Joint,
    receiver: usize,
    link: &Link,
) -> Result<(), NoMemory>
    ensures { OnOk result (wires.new ≡ wires.old ++ map (λ k. record { giver = record { task = receiver; number = 0 }; taker = taker joint.now.to link.now.to k }) (range_with_len 0 (count joint.now.to link.now.to))) }
{
    let giver = Port {
        task: receiver,
        number: 0,
    };
    for consumer in 0..joint.to.count(link.to) {
        let taker = joint.to.taker(link.to, consumer);
        wires.push(Wire { giver, taker })?;
    }
    Ok(())
}

/// Adds the rings of a link, by the numbers of the tasklets that send and receive.
pub fn add_link(
    wires: &mut List<Wire>,
    joint: &Joint,
    sender: usize,
    receiver: usize,
    link: &Link,
) -> Result<(), NoMemory>
    requires { receiver ≡ sender + 1 }
    ensures { OnOk result (wires.new ≡ wires.old ++ link_wires joint.now sender link.now) }
{
    add_into(wires, joint, sender, link)?;
    add_out_of(wires, joint, receiver, link)
}
