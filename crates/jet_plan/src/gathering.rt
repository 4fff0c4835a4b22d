// Whether what belongs together comes together behind an edge.
ghost use Rattle.std.specs.Prelude.{◌≡◌, ◌<◌, ◌&&◌, length, position, bytes_eq, IfSome};
ghost use Rattle.std.specs.List.{list_any};
ghost use Rattle.jet_plan.specs.Kinds.{is_partitioned};
ghost use Rattle.jet_plan.specs.Gathering.{is_isolated_distributed, broadcasts_events, meets_partitions, crosses_members, is_not_gathered};

use crate::names::is_at;
use crate::role::Role;
use crate::{Dag, Edge, Settings};
use jet_items::Key;

fn is_isolated_distributed(edge: &Edge) -> bool
    ensures { result ≡ is_isolated_distributed edge.now }
{
    edge.route.is_isolated() && edge.distributed
}

/// The number of the first edge that is isolated and distributed.
pub fn first_isolated_distributed(edges: &[Edge]) -> Option<usize>
    ensures bound { IfSome result (λ i. i < length edges.now) }
    ensures value { result ≡ position is_isolated_distributed edges.now }
{
    edges.iter().position(|e| is_isolated_distributed(e))
}

fn broadcasts_events(edge: &Edge) -> bool
    ensures { result ≡ broadcasts_events edge.now }
{
    edge.route.is_broadcast() && !edge.build
}

/// The number of the first edge that broadcasts events.
pub fn first_broadcast_data(edges: &[Edge]) -> Option<usize>
    ensures bound { IfSome result (λ i. i < length edges.now) }
    ensures value { result ≡ position broadcasts_events edges.now }
{
    edges.iter().position(|e| broadcasts_events(e))
}

fn has_partitioned_build(edges: &[Edge], to: &Key) -> bool
    ensures { result ≡ list_any (λ b. b.build && bytes_eq b.to to.now && is_partitioned b.route) edges.now }
{
    edges
        .iter()
        .any(|b| b.build && b.to == *to && b.route.is_partitioned())
}

fn meets_partitions(dag: &Dag, edge: &Edge) -> bool
    ensures { result ≡ meets_partitions dag.now edge.now }
{
    !edge.build
        && is_at(dag, &edge.to, Role::Join)
        && has_partitioned_build(dag.edges.items(), &edge.to)
}

fn crosses_members(dag: &Dag, edge: &Edge) -> bool
    ensures { result ≡ crosses_members dag.now edge.now }
{
    is_at(dag, &edge.to, Role::Combine)
        || is_at(dag, &edge.to, Role::Sink)
        || edge.build
        || meets_partitions(dag, edge)
}

fn is_not_gathered(dag: &Dag, settings: &Settings, edge: &Edge) -> bool
    ensures { result ≡ is_not_gathered dag.now settings.now edge.now }
{
    (is_at(dag, &edge.to, Role::Combine) && !edge.route.is_partitioned())
        || (edge.build && !(edge.route.is_broadcast() || edge.route.is_partitioned()))
        || (meets_partitions(dag, edge) && !edge.route.is_partitioned())
        || (settings.members > 1 && !edge.distributed && crosses_members(dag, edge))
}

/// The number of the first edge behind which what belongs together would not come together.
pub fn first_not_gathered(dag: &Dag, settings: &Settings, edges: &[Edge]) -> Option<usize>
    ensures bound { IfSome result (λ i. i < length edges.now) }
    ensures value { result ≡ position (is_not_gathered dag.now settings.now) edges.now }
{
    edges.iter().position(|e| is_not_gathered(dag, settings, e))
}
