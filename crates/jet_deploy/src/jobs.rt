// A whole job, made from its plan.
ghost use Rattle.std.specs.Prelude.{◌≡◌, ◌≤◌, ◌<◌, ◌^◌, ℕ, ℤ, List, All, length, map, unsigned_abs, vec_len, IfOk, OnOk};
ghost use Rattle.jet_conveyor.specs.Conveyor.{IsNew, view};
ghost use Rattle.jet_crew.specs.Gather.{gather, Placed};
ghost use Rattle.jet_flow.specs.DataFiles.{data_files};
ghost use Rattle.jet_harness.specs.declared.channel.Giver.TheVariants.{File};
ghost use Rattle.jet_harness.specs.Harness.{rxs_of, txs_of};
ghost use Rattle.jet_items.specs.declared.item.Item.{Item};
ghost use Rattle.jet_layout.specs.declared.wire.Taker.TheVariants.{Sink};
ghost use Rattle.jet_layout.specs.Layouts.{IsLayout};
ghost use Rattle.jet_layout.specs.Tasks.{member_of};
ghost use Rattle.jet_plan.specs.Rings.{members};
ghost use Rattle.jet_ring.specs.Ring.{rx_view, tx_view};
ghost use Rattle.jet_ring.specs.declared.ends.Rx.{Rx};
ghost use Rattle.jet_deploy.specs.Dealing.{IsDealt};
ghost use Rattle.jet_deploy.specs.Deployed.{IsDeployed};
ghost use Rattle.jet_deploy.specs.Making.{AreMade, Remains};
ghost use Rattle.jet_deploy.specs.inner.Standing.{StandsReady, ground_over};

use crate::Ground;
use crate::dealing::{Crew, deal};
use crate::layouts::tasklets;
use crate::sites::{link_places, wiring};
use crate::spare::spare;
use crate::standing::{all_can_be_made, made_tasklets_are_wired};
use jet_conveyor::Conveyor;
use jet_engine::{Job, Spares};
use jet_harness::{Giver, Harness};
use jet_items::{Item, NoMemory};
use jet_layout::{Layout, Taker};
use jet_plan::{Plan, valid_jobs_keep_their_ranges};
use jet_ring::Tx;
use jet_tasklet::AnyTasklet;
use jet_worker::limits_of;
use std::alloc::Global;

// The rings of a layout.
fn fresh_rings(alloc: Global, plan: &Plan, layout: &Layout) -> Result<Harness, NoMemory>
    requires layout { IsLayout plan.now.dag plan.now.settings layout.now }
    ensures { IfOk result (StandsReady plan.now.dag plan.now.settings layout.now) }
{
    let settings = plan.settings();
    valid_jobs_keep_their_ranges(plan.dag(), settings);
    let ring = settings.ring.unsigned_abs() as usize;
    let harness = Harness::new(alloc, layout, ring)?;
    all_can_be_made(plan, layout, &harness);
    made_tasklets_are_wired(plan, layout, &harness);
    Ok(harness)
}

// All tasklets of a layout, over its fresh rings.
fn all_tasklets(
    alloc: Global,
    plan: &Plan,
    layout: &Layout,
    harness: &mut Harness,
) -> Result<Vec<AnyTasklet>, NoMemory>
    requires ready { StandsReady plan.now.dag plan.now.settings layout.now harness.old }
    ensures count { IfOk result (λ ts. vec_len ts ≡ length layout.now.tasks) }
    ensures made { IfOk result (λ ts. (grain : ℤ) × AreMade (ground_over plan.now.dag layout.now (members plan.now.settings) grain) harness.old layout.now.tasks ts.items) }
    ensures rest { OnOk result (Remains (length layout.now.tasks) harness.old harness.new) }
{
    let settings = plan.settings();
    valid_jobs_keep_their_ranges(plan.dag(), settings);
    let ground = Ground {
        plan,
        joints: layout.joints.items(),
        members: settings.members.unsigned_abs() as u32,
        grain: limits_of(plan).unit,
    };
    tasklets(alloc, ground, harness, layout.tasks.items())
}

// The workers of all members, with these tasklets of a layout.
fn dealt(
    alloc: Global,
    plan: &Plan,
    layout: &Layout,
    tasklets: Vec<AnyTasklet>,
) -> Result<Crew<AnyTasklet>, NoMemory>
    requires sites { length layout.now.tasks ≡ vec_len tasklets }
    requires inside { All (λ task. member_of task < members plan.now.settings) layout.now.tasks }
    ensures tasks { IfOk result (λ crew. gather crew.workers.items crew.order.items ≡ tasklets.items) }
    ensures placed { IfOk result (λ crew. Placed crew.workers.items crew.order.items) }
    ensures some { IfOk result (λ crew. (0 < vec_len crew.workers) × (vec_len crew.workers < 2 ^ 32)) }
    ensures dealt { IfOk result (λ crew. IsDealt (unsigned_abs plan.now.settings.workers) layout.now.tasks crew.order.items) }
{
    let settings = plan.settings();
    valid_jobs_keep_their_ranges(plan.dag(), settings);
    let members = settings.members.unsigned_abs() as u32;
    let each = settings.workers.unsigned_abs() as u32;
    deal(alloc, members, each, layout.tasks.items(), tasklets)
}

// The ends outside: those that send into the rings of files, and those that receive for the sink.
fn outside(alloc: Global, harness: &mut Harness) -> Result<(Vec<Tx<Item>>, Conveyor), NoMemory>
    requires few { length (rxs_of harness.old Sink) ≤ 2000000 }
    ensures feeds { IfOk result (λ ends. map tx_view ends.0.items ≡ txs_of harness.old File) }
    ensures sink { IfOk result (λ ends. (queues : List (Rx Item)) × IsNew (view ends.1) queues × (map rx_view queues ≡ rxs_of harness.old Sink)) }
{
    let feeds = harness.take_txs(alloc, Giver::File)?;
    let queues = harness.take_rxs(alloc, Taker::Sink)?;
    let sink = Conveyor::new(alloc, queues)?;
    Ok((feeds, sink))
}

fn spares(alloc: Global) -> Result<Spares, NoMemory> {
    Ok(Spares {
        giver: spare(alloc)?,
        taker: spare(alloc)?,
    })
}

/// Makes all workers, tasklets, rings and links of a plan, before anything runs. It fails only for want of memory.
pub fn deploy(alloc: Global, plan: &Plan) -> Result<Job, NoMemory>
    ensures deployed { IfOk result (IsDeployed (length (data_files plan.now.dag))) }
{
    let layout = Layout::new(alloc, plan)?;
    let mut harness = fresh_rings(alloc, plan, &layout)?;
    let tasklets = all_tasklets(alloc, plan, &layout, &mut harness)?;
    let crew = dealt(alloc, plan, &layout, tasklets)?;
    let links = link_places(alloc, layout.tasks.items())?;
    let wiring = wiring(alloc, &layout, links)?;
    let (feeds, sink) = outside(alloc, &mut harness)?;
    let spares = spares(alloc)?;
    Ok(Job {
        workers: crew.workers,
        order: crew.order,
        wiring,
        feeds,
        sink,
        spares,
    })
}
