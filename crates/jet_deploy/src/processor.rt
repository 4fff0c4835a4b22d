// The processors of vertices: each has the settings of its vertex, and has taken and given nothing.
ghost use Rattle.std.specs.Prelude.{◌≡◌, ◌≤◌, true, [], map, length, None, IfOk};
ghost use Rattle.std.specs.List.{Contains};
ghost use Rattle.jet_expr.specs.Flows.{mapped};
ghost use Rattle.jet_flow.specs.Flow.{joining, leg_value};
ghost use Rattle.jet_join.specs.Calls as join;
ghost use Rattle.jet_stages.specs.Filter.{filtered};
ghost use Rattle.jet_stages.specs.Flat as flat;
ghost use Rattle.jet_stages.specs.Map.{remade};
ghost use Rattle.jet_plan.specs.declared.kind.Kind.TheVariants.{Accumulate};
ghost use Rattle.jet_plan.specs.Kinds.{is_accumulate, is_combine};
ghost use Rattle.jet_stages.specs.Stage.{StageStands};
ghost use Rattle.jet_window.specs.CombineCalls as combine;
ghost use Rattle.jet_window.specs.FrameCalls as frame;
ghost use Rattle.jet_deploy.specs.Windows.{IsNamed, HasSizes};

use crate::take::{mode_of, take_of};
use crate::valid_vertices_keep_their_ranges;
use crate::window::{number_behind, policy_before, policy_of};
use jet_expr::Expr;
use jet_items::NoMemory;
use jet_join::JoinP;
use jet_plan::{LegSpec, ModeSpec, Plan, Vertex};
use jet_stages::{FilterP, FlatP, Leg, MapP};
use jet_window::{CombineP, FrameP};
use std::alloc::Global;

// A copy of an expression that there may be.
fn copied(alloc: Global, expression: &Option<Expr>) -> Result<Option<Expr>, NoMemory>
    ensures { IfOk result (λ e. e ≡ expression.now) }
{
    match expression {
        Some(expression) => Ok(Some(expression.copy(alloc)?)),
        None => Ok(None),
    }
}

// The processor of a map vertex.
pub fn map(alloc: Global, set: &[Option<Expr>; 4]) -> Result<MapP, NoMemory>
    ensures settings { IfOk result (λ p. p.set ≡ set.now) }
    ensures stands { IfOk result (λ p. StageStands (remade p.set) [] []) }
{
    let [first, second, third, fourth] = set;
    Ok(MapP::new([
        copied(alloc, first)?,
        copied(alloc, second)?,
        copied(alloc, third)?,
        copied(alloc, fourth)?,
    ]))
}

// The processor of a filter vertex.
pub fn filter(alloc: Global, test: &Expr) -> Result<FilterP, NoMemory>
    ensures settings { IfOk result (λ p. p.test ≡ test.now) }
    ensures stands { IfOk result (λ p. StageStands (filtered p.test) [] []) }
{
    Ok(FilterP::new(test.copy(alloc)?))
}

// A way out of a flat vertex, as its processor has it.
fn leg(alloc: Global, spec: &LegSpec) -> Result<Leg, NoMemory>
    ensures { IfOk result (λ l. flat.leg_value l ≡ leg_value spec.now) }
{
    Ok(Leg {
        test: spec.test.copy(alloc)?,
        value: spec.value.copy(alloc)?,
        tag: spec.tag,
    })
}

// The processor of a flat vertex.
pub fn flat(alloc: Global, specs: &[LegSpec]) -> Result<FlatP, NoMemory>
    requires { (1 ≤ length specs.now) × (length specs.now ≤ 8) }
    ensures settings { IfOk result (λ p. map flat.leg_value p.legs.items ≡ map leg_value specs.now) }
    ensures stands { IfOk result (λ p. flat.FlatStands p.legs.items p.next [] []) }
{
    let mut legs = Vec::new(alloc);
    for spec in specs {
        legs.push(leg(alloc, spec)?)?;
    }
    Ok(FlatP::new(legs))
}

// The processor of a join vertex.
pub fn join(alloc: Global, mode: ModeSpec, rekey: bool, fields: &[u8; 4]) -> JoinP
    ensures settings { join.setting_of result ≡ joining mode rekey fields.now }
    ensures stands { join.Stands result [] [] }
{
    let [first, second, third, fourth] = *fields;
    let fields = [
        take_of(first),
        take_of(second),
        take_of(third),
        take_of(fourth),
    ];
    JoinP::new(alloc, mode_of(mode), rekey, fields)
}

// The processor of an accumulate vertex: frames and late items carry the number of the combine vertex behind it.
pub fn frame(alloc: Global, plan: &Plan, vertex: &Vertex) -> FrameP
    requires there { Contains plan.now.dag.vertices vertex.now }
    requires accumulates { is_accumulate vertex.now.kind ≡ true }
    ensures named { IsNamed plan.now.dag vertex.now result.vertex }
    ensures sizes { vertex.now.kind ≡ Accumulate result.times.policy.size result.times.policy.slide }
    ensures begun { result.times.begun ≡ None }
    ensures stands { frame.Stands result [] [] }
{
    valid_vertices_keep_their_ranges(plan.dag(), plan.settings());
    FrameP::new(alloc, number_behind(plan, vertex), policy_of(&vertex.kind))
}

// The processor of the combine vertex of this number: its rows carry that number.
pub fn combine(alloc: Global, plan: &Plan, number: u8, vertex: &Vertex) -> CombineP
    requires there { Contains plan.now.dag.vertices vertex.now }
    requires combines { is_combine vertex.now.kind ≡ true }
    ensures named { result.vertex ≡ number }
    ensures sizes { HasSizes plan.now.dag vertex.now result.policy.size result.policy.slide }
    ensures begun { (result.begun ≡ None) × (result.start.items ≡ []) }
    ensures stands { combine.Stands result [] [] }
{
    CombineP::new(alloc, number, policy_before(plan, vertex))
}
