// Laws of valid jobs, and of what grows along the edges.
ghost use Rattle.std.specs.Prelude.{◌≡◌, ◌<◌, ℕ, List, IsTrue, false, length};
ghost use Rattle.std.specs.List.{list_any, Contains};
ghost use Rattle.jet_plan.specs.declared.edge.Edge.{Edge};
ghost use Rattle.jet_plan.specs.Along.{before};
ghost use Rattle.jet_plan.specs.Depth.{depth};
ghost use Rattle.jet_plan.specs.Growth.{is_cyclic, stream_edges, by_kind, longest_rule, longest_key, growth_rule, growth};
ghost use Rattle.jet_plan.specs.JobShape.{JobShape};
ghost use Rattle.jet_plan.specs.Names.{has_name, AreKnown};
ghost use Rattle.jet_plan.specs.Plans.{IsValid};
ghost use Rattle.jet_plan.specs.Ranges.{IsRanged};

use crate::{Dag, Settings};

/// A law: a valid job has its shape. Each fault that it lacks says a part of it.
pub fn valid_jobs_have_their_shape(dag: &Dag, settings: &Settings)
    requires { IsValid dag.now settings.now }
    ensures { JobShape dag.now settings.now }
{
    let _dag = dag;
    let _settings = settings;
}

/// A law: a valid job has its settings in their ranges, and 1 to 8 instances of each vertex.
pub fn valid_jobs_keep_their_ranges(dag: &Dag, settings: &Settings)
    requires { IsValid dag.now settings.now }
    ensures { IsRanged dag.now settings.now }
{
    let _dag = dag;
    let _settings = settings;
}

/// A law: in a valid job each edge leads deeper, and no vertex lies as deep as there are vertices.
pub fn edges_lead_deeper(dag: &Dag, settings: &Settings)
    requires { IsValid dag.now settings.now }
    ensures deeper { (e : Edge) → Contains dag.now.edges e → depth dag.now e.from < depth dag.now e.to }
    ensures below { (name : List ℕ) → IsTrue (list_any (has_name name) dag.now.vertices) → depth dag.now name < length dag.now.vertices }
{
    let _dag = dag;
    let _settings = settings;
}

/// A law: without a cycle the longest key and the growth at each vertex are what its kind makes of those at the vertices
/// before it, over its stream inputs. So the number of steps over which they are defined is enough.
pub fn measures_keep_the_rules(dag: &Dag)
    requires known { AreKnown dag.now.vertices dag.now.edges }
    requires acyclic { is_cyclic dag.now ≡ false }
    ensures keys { (name : List ℕ) → IsTrue (list_any (has_name name) dag.now.vertices)
        → longest_key dag.now name ≡ by_kind dag.now.vertices longest_rule 0 name (before (stream_edges dag.now) (longest_key dag.now) name) }
    ensures events { (name : List ℕ) → IsTrue (list_any (has_name name) dag.now.vertices)
        → growth dag.now name ≡ by_kind dag.now.vertices growth_rule 0 name (before (stream_edges dag.now) (growth dag.now) name) }
{
    let _dag = dag;
}
