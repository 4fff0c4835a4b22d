// Accepted jobs.
ghost use Rattle.std.specs.Prelude.{◌≡◌, ◌≤◌, ◌*◌, ◌^◌, MatchResult, nat_lt, false};
ghost use Rattle.std.specs.List.{list_any};
ghost use Rattle.jet_plan.specs.Growth.{growth};
ghost use Rattle.jet_plan.specs.Limits.{IsShaped, IsLimited};
ghost use Rattle.jet_plan.specs.Plans.{IsValid, IsFirst};
ghost use Rattle.jet_plan.specs.Rings.{rings, slots, links, tasklets, buffers, packet_bytes};

use crate::all_faults::check_all;
use crate::{Dag, PlanFault, Settings, numbers};
use jet_items::Refused;
use std::alloc::Global;

/// A job that the planner has accepted: it has no fault.
#[derive(Drop)]
pub struct Plan {
    dag: Dag,
    settings: Settings,
    ghost valid: { IsValid dag settings },
}

/// The plan of a job, or its first fault. Faults are looked for in the order of the variants of `PlanFault`; of several
/// vertices or edges with the same fault the first is told.
pub fn check(alloc: Global, dag: Dag, settings: Settings) -> Result<Plan, Refused<PlanFault>>
    ensures { MatchResult result (λ plan. (plan.dag ≡ dag) × (plan.settings ≡ settings) × IsValid dag settings) (IsFirst dag settings) }
{
    check_all(alloc, &dag, &settings)?;
    Ok(Plan { dag, settings })
}

#[tactic(auto, using(crate::proofs::CheckLaws::valid_shaped, crate::proofs::CheckLaws::valid_limited, crate::proofs::CheckLaws::valid_slots, crate::proofs::CheckLaws::valid_growth))]
impl Plan {
    /// The job that was accepted.
    pub fn dag(&self) -> &Dag
        ensures dag { result.now ≡ self.now.dag }
        ensures valid { IsValid self.now.dag self.now.settings }
        ensures shaped { IsShaped self.now.dag }
        ensures limited { IsLimited self.now.dag self.now.settings }
        ensures growth { list_any (λ v. nat_lt (2 ^ 20) (growth self.now.dag v.name)) self.now.dag.vertices ≡ false }
    {
        &self.dag
    }

    /// The settings that were accepted.
    pub fn settings(&self) -> &Settings
        ensures { result.now ≡ self.now.settings }
    {
        &self.settings
    }

    /// The instances of all vertices but the sink, and two for each link.
    pub fn tasklets(&self) -> u64
        ensures { result ≡ tasklets self.now.dag self.now.settings }
    {
        numbers::tasklets(&self.dag, &self.settings)
    }

    /// The rings: those of the edges, and one for each file.
    pub fn rings(&self) -> u64
        ensures { result ≡ rings self.now.dag self.now.settings }
    {
        numbers::rings(&self.dag, &self.settings)
    }

    /// The slots of all rings, at most 4,000,000.
    pub fn slots(&self) -> u64
        ensures value { result ≡ slots self.now.dag self.now.settings }
        ensures bound { result ≤ 4000000 }
    {
        numbers::slots(&self.dag, &self.settings)
    }

    /// The links between members.
    pub fn links(&self) -> u64
        ensures { result ≡ links self.now.dag self.now.settings }
    {
        numbers::links(&self.dag, &self.settings)
    }

    /// The packet buffers of each link, 4 to 65536: one for each packet that its peak has and one to fill, as far as the
    /// buffers of all links together take at most 2^30 bytes.
    pub fn buffers(&self) -> u32
        ensures value { result ≡ buffers self.now.dag self.now.settings }
        ensures bound { (4 ≤ result) × (result ≤ 65536) }
        ensures memory { links self.now.dag self.now.settings * packet_bytes self.now.settings * result ≤ 2 ^ 30 }
    {
        numbers::buffers(&self.dag, &self.settings)
    }
}
