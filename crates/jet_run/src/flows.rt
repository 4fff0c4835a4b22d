// What the tasklets of a vertex gave together is the flow out of it.
ghost use Rattle.std.specs.Prelude.{◌≡◌, ℕ, ◌<◌, List, Some};
ghost use Rattle.std.specs.List.{find};
ghost use Rattle.jet_items.specs.declared.item.Item.{Item};
ghost use Rattle.jet_plan.specs.declared.vertex.Vertex.{Vertex};
ghost use Rattle.jet_plan.specs.Names.{has_name};
ghost use Rattle.jet_plan.specs.Plans.{IsValid};
ghost use Rattle.jet_flow.specs.Flow.{Contents, flow};
ghost use Rattle.jet_flow.specs.Keys.{AreShort};
ghost use Rattle.jet_tasklet.specs.declared.any.AnyTasklet.{AnyTasklet};
ghost use Rattle.jet_run.specs.Ended.{EndedByKind};
ghost use Rattle.jet_run.specs.Flows.{AreFed, GiveFlow, IsFor};

use jet_flow::{flow_keeps_the_rules, keys_stay_short};
use jet_plan::{Dag, Settings};

/// A law: where all tasklets of a vertex together received what flows into it, and each gave what its kind makes of what it
/// received, they gave the flow out of the vertex: one step of an induction over a job.
pub fn tasklets_give_the_flow(dag: &Dag, settings: &Settings)
    requires { IsValid dag.now settings.now }
    ensures { (files : Contents) → AreShort files → (name : List ℕ) → (v : Vertex) → find (has_name name) dag.now.vertices ≡ Some v
        → (n : ℕ) → (tasklets : ℕ → AnyTasklet) → (given : ℕ → List Item)
        → ((i : ℕ) → i < n → IsFor v.kind (tasklets i)) → ((i : ℕ) → i < n → EndedByKind (tasklets i) (given i))
        → AreFed files dag.now name v.kind n tasklets
        → GiveFlow v.kind n given (flow files dag.now name) }
{
    flow_keeps_the_rules(dag, settings);
    keys_stay_short(dag, settings);
}
