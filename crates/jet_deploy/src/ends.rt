// The inputs and outputs of a tasklet, over the ends of rings that a harness has for them.
ghost use Rattle.std.specs.Prelude.{◌≡◌, ◌≢◌, ◌<◌, ◌≤◌, ◌^◌, ℕ, [], map, length, vec_len, IfOk, OnOk};
ghost use Rattle.jet_harness.specs.Harness.{txs_of, rxs_of};
ghost use Rattle.jet_harness.specs.declared.channel.Giver.{Giver as GiverValue};
ghost use Rattle.jet_layout.specs.declared.wire.Taker.{Taker as TakerValue};
ghost use Rattle.jet_ring.specs.Ring.{tx_view};
ghost use Rattle.jet_router.specs.Router.{view};
ghost use Rattle.jet_tasklet.specs.Inputs.{input_view, inputs_view};
ghost use Rattle.jet_deploy.specs.Ends.{input_at, output_at, input_over, inputs_from, router_over, outputs_from, Fits, FitAll};

use jet_boxes::Port;
use jet_conveyor::Conveyor;
use jet_harness::{Giver, Harness};
use jet_items::{Item, NoMemory};
use jet_layout::{Joint, Port as Place, Taker, partition_table};
use jet_plan::Route;
use jet_ring::Tx;
use jet_router::Router;
use jet_tasklet::Input;
use std::alloc::Global;

// An input that leads to this port, over the ends that are there for a taker.
fn input(alloc: Global, harness: &mut Harness, taker: Taker, port: Port) -> Result<Input, NoMemory>
    requires few { length (rxs_of harness.old taker) < 2 ^ 32 }
    ensures view { IfOk result (λ i. input_view i ≡ input_over port (rxs_of harness.old taker)) }
    ensures gone { OnOk result (rxs_of harness.new taker ≡ []) }
    ensures others { OnOk result ((t : TakerValue) → t ≢ taker → rxs_of harness.new t ≡ rxs_of harness.old t) }
    ensures givers { (g : GiverValue) → txs_of harness.new g ≡ txs_of harness.old g }
{
    let queues = harness.take_rxs(alloc, taker)?;
    let conveyor = Conveyor::new(alloc, queues)?;
    Ok(Input { port, conveyor })
}

/// The inputs of a tasklet, by the port that each leads to: their ends are taken out of the harness. It fails only for
/// want of memory.
pub fn inputs(
    alloc: Global,
    harness: &mut Harness,
    task: usize,
    ports: &[Port],
) -> Result<Vec<Input>, NoMemory>
    requires ports { length ports.now < 2 ^ 32 }
    requires few { (n : ℕ) → n < length ports.now → length (rxs_of harness.old (input_at task n)) < 2 ^ 32 }
    ensures views { IfOk result (λ inputs. inputs_view inputs.items ≡ inputs_from harness.old task 0 ports.now) }
    ensures gone { OnOk result ((n : ℕ) → n < length ports.now → rxs_of harness.new (input_at task n) ≡ []) }
    ensures others { OnOk result ((t : TakerValue) → ((n : ℕ) → n < length ports.now → t ≢ input_at task n) → rxs_of harness.new t ≡ rxs_of harness.old t) }
    ensures givers { (g : GiverValue) → txs_of harness.new g ≡ txs_of harness.old g }
{
    let mut inputs = Vec::new(alloc);
    for (number, port) in ports.iter().enumerate() {
        let number = number as u32;
        let taker = Taker::Input(Place { task, number });
        inputs.push(input(alloc, harness, taker, *port)?)?;
    }
    Ok(inputs)
}

/// The router of an edge on a member, over these ends. Where the edge goes by keys, `across` tells whether it goes to other
/// members too.
pub fn router(
    alloc: Global,
    txs: Vec<Tx<Item>>,
    joint: &Joint,
    members: u32,
    across: bool,
    member: u32,
) -> Result<Router, NoMemory>
    requires members { (1 ≤ members) × (members ≤ 4) }
    requires member { member < members }
    requires fits { Fits members joint.now across member (vec_len txs) }
    ensures { IfOk result (λ r. view r ≡ router_over members joint.now across member (map tx_view txs.items)) }
{
    match joint.route {
        Route::Unicast | Route::Isolated => Router::unicast(alloc, txs),
        Route::Broadcast => Router::broadcast(alloc, txs),
        Route::Partitioned => {
            let table = partition_table(alloc, joint, members, across, member)?;
            Router::partitioned(alloc, txs, table)
        }
    }
}

/// The outputs of a tasklet on a member, by the edge that each is: their ends are taken out of the harness. It fails only
/// for want of memory.
pub fn outputs(
    alloc: Global,
    harness: &mut Harness,
    joints: &[Joint],
    members: u32,
    member: u32,
    task: usize,
) -> Result<Vec<Router>, NoMemory>
    requires joints { length joints.now < 2 ^ 32 }
    requires members { (1 ≤ members) × (members ≤ 4) }
    requires member { member < members }
    requires fit { FitAll harness.old task members member 0 joints.now }
    ensures views { IfOk result (λ routers. map view routers.items ≡ outputs_from harness.old task members member 0 joints.now) }
    ensures gone { OnOk result ((n : ℕ) → n < length joints.now → txs_of harness.new (output_at task n) ≡ []) }
    ensures others { OnOk result ((g : GiverValue) → ((n : ℕ) → n < length joints.now → g ≢ output_at task n) → txs_of harness.new g ≡ txs_of harness.old g) }
    ensures takers { (t : TakerValue) → rxs_of harness.new t ≡ rxs_of harness.old t }
{
    let mut routers = Vec::new(alloc);
    for (number, joint) in joints.iter().enumerate() {
        let number = number as u32;
        let giver = Giver::Output(Place { task, number });
        let txs = harness.take_txs(alloc, giver)?;
        routers.push(router(alloc, txs, joint, members, joint.distributed, member)?)?;
    }
    Ok(routers)
}
