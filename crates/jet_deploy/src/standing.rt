// That the ends of a made job belong together.
ghost use Rattle.std.specs.Prelude.{◌≡◌, ◌≤◌, ◌<◌, ℕ, ℤ, List, All, length};
ghost use Rattle.jet_flow.specs.DataFiles.{data_files};
ghost use Rattle.jet_harness.specs.Channels.{channels};
ghost use Rattle.jet_harness.specs.Harness.{Joins, rxs_of, txs_of};
ghost use Rattle.jet_harness.specs.declared.channel.Giver.TheVariants.{File};
ghost use Rattle.jet_layout.specs.declared.wire.Taker.TheVariants.{Sink};
ghost use Rattle.jet_layout.specs.Tasks.{member_of};
ghost use Rattle.jet_layout.specs.Layouts.{IsLayout};
ghost use Rattle.jet_plan.specs.Rings.{members};
ghost use Rattle.jet_ring.specs.Ring.{Ring};
ghost use Rattle.jet_deploy.specs.Making.{CanMake};
ghost use Rattle.jet_deploy.specs.inner.Standing.{WiresAll, ground_over};

use jet_harness::{Harness, every_end_is_of_one_ring, every_ring_joins_its_two};
use jet_layout::{
    Layout, layouts_have_what_is_counted, links_have_their_wires, outputs_have_their_wires,
    tasks_have_their_places, wires_have_their_ports,
};
use jet_plan::{Plan, valid_jobs_keep_their_ranges};

/// A law: tasklets that are made over the fresh rings of a layout are wired at the sites of the rings.
pub(crate) fn made_tasklets_are_wired(plan: &Plan, layout: &Layout, harness: &Harness)
    requires layout { IsLayout plan.now.dag plan.now.settings layout.now }
    ensures { (capacity : ℕ) → (rings : List Ring) → Joins (channels layout.now) capacity rings harness.now → WiresAll plan.now.dag layout.now harness.now }
{
    let dag = plan.dag();
    let settings = plan.settings();
    wires_have_their_ports(dag, settings, layout);
    outputs_have_their_wires(dag, settings, layout);
    every_ring_joins_its_two(harness);
    every_end_is_of_one_ring(harness);
}

/// A law: over the fresh rings of a layout all its tasklets can be made, each on one of the members. There are not many rings,
/// and one for each data file.
pub(crate) fn all_can_be_made(plan: &Plan, layout: &Layout, harness: &Harness)
    requires layout { IsLayout plan.now.dag plan.now.settings layout.now }
    ensures can { (capacity : ℕ) → (rings : List Ring) → (grain : ℤ) → Joins (channels layout.now) capacity rings harness.now
        → CanMake (ground_over plan.now.dag layout.now (members plan.now.settings) grain) harness.now layout.now.tasks }
    ensures few { length (channels layout.now) ≤ 2000000 }
    ensures inside { All (λ task. member_of task < members plan.now.settings) layout.now.tasks }
    ensures sink { (capacity : ℕ) → (rings : List Ring) → Joins (channels layout.now) capacity rings harness.now → length (rxs_of harness.now Sink) ≤ 2000000 }
    ensures files { (capacity : ℕ) → (rings : List Ring) → Joins (channels layout.now) capacity rings harness.now
        → length (txs_of harness.now File) ≡ length (data_files plan.now.dag) }
{
    let _slots = plan.slots();
    let dag = plan.dag();
    let settings = plan.settings();
    valid_jobs_keep_their_ranges(dag, settings);
    layouts_have_what_is_counted(dag, settings, layout);
    tasks_have_their_places(dag, settings, layout);
    outputs_have_their_wires(dag, settings, layout);
    links_have_their_wires(dag, settings, layout);
    every_end_is_of_one_ring(harness);
}
