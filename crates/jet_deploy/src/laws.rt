// Laws of valid jobs.
ghost use Rattle.std.specs.List.{Contains};
ghost use Rattle.jet_plan.specs.declared.vertex.Vertex.{Vertex};
ghost use Rattle.jet_plan.specs.Plans.{IsValid};
ghost use Rattle.jet_deploy.specs.Ranges.{IsInRange};

use jet_plan::{Dag, Settings};

/// A law: each vertex of a valid job has its numbers in their ranges.
pub fn valid_vertices_keep_their_ranges(dag: &Dag, settings: &Settings)
    requires { IsValid dag.now settings.now }
    ensures { (v : Vertex) → Contains dag.now.vertices v → IsInRange v.kind }
{
    let _dag = dag;
    let _settings = settings;
}
