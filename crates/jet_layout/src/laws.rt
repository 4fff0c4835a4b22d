// Laws of layouts.
ghost use Rattle.std.specs.Prelude.{◌≡◌, ◌<◌, ℕ, Some, false, length, slice_get};
ghost use Rattle.std.specs.List.{Contains};
ghost use Rattle.jet_plan.specs.Ends.{edges_from};
ghost use Rattle.jet_plan.specs.Kinds.{is_sink};
ghost use Rattle.jet_plan.specs.Plans.{IsValid};
ghost use Rattle.jet_plan.specs.Rings.{members};
ghost use Rattle.jet_plan.specs.declared.vertex.Vertex.{Vertex as VertexValue};
ghost use Rattle.jet_layout.specs.Counts.{HasCounted};
ghost use Rattle.jet_layout.specs.Layouts.{IsLayout};
ghost use Rattle.jet_layout.specs.Places.{IsInstance, IsLink};
ghost use Rattle.jet_layout.specs.Ports.{HasInput, HasPorts, HasWires, IsFed, IsHeard, joints_out};
ghost use Rattle.jet_layout.specs.declared.joint.Joint.{Joint as JointValue};
ghost use Rattle.jet_layout.specs.declared.task.Instance.{Instance as InstanceValue};
ghost use Rattle.jet_layout.specs.declared.task.Link.{Link as LinkValue};
ghost use Rattle.jet_layout.specs.declared.task.Task.TheVariants.{Run, Send, Receive};
ghost use Rattle.jet_layout.specs.declared.wire.Port.{Port as PortValue};
ghost use Rattle.jet_layout.specs.declared.wire.Wire.{Wire as WireValue};
ghost use Rattle.jet_layout.specs.inner.Facts.{Facts};

use crate::Layout;
use jet_plan::{
    Dag, Settings, edges_lead_deeper, valid_jobs_have_their_shape, valid_jobs_keep_their_ranges,
};

/// A law: a layout has as many tasklets and links as the plan counts, and so many rings, with one for each file.
pub fn layouts_have_what_is_counted(dag: &Dag, settings: &Settings, layout: &Layout)
    requires { IsLayout dag.now settings.now layout.now }
    ensures { HasCounted dag.now settings.now layout.now }
{
    let _dag = dag;
    let _settings = settings;
    let _layout = layout;
}

// What the laws of valid jobs say for their layouts.
fn know(dag: &Dag, settings: &Settings)
    requires { IsValid dag.now settings.now }
    ensures { Facts dag.now settings.now }
{
    valid_jobs_have_their_shape(dag, settings);
    valid_jobs_keep_their_ranges(dag, settings);
    edges_lead_deeper(dag, settings);
}

/// A law: each tasklet is an instance of a vertex on one of the members, or an end of a link between two of them.
pub fn tasks_have_their_places(dag: &Dag, settings: &Settings, layout: &Layout)
    requires valid { IsValid dag.now settings.now }
    requires layout { IsLayout dag.now settings.now layout.now }
    ensures instances { (k : ℕ) (i : InstanceValue) → slice_get layout.now.tasks k ≡ Some (Run i) → IsInstance dag.now (members settings.now) i }
    ensures senders { (k : ℕ) (x : LinkValue) → slice_get layout.now.tasks k ≡ Some (Send x) → IsLink (members settings.now) layout.now.joints x }
    ensures receivers { (k : ℕ) (x : LinkValue) → slice_get layout.now.tasks k ≡ Some (Receive x) → IsLink (members settings.now) layout.now.joints x }
{
    know(dag, settings);
    let _layout = layout;
}

/// A law: each wire leads from an output of a tasklet to an input of another one, or to the sink, and each file to an
/// input.
pub fn wires_have_their_ports(dag: &Dag, settings: &Settings, layout: &Layout)
    requires valid { IsValid dag.now settings.now }
    requires layout { IsLayout dag.now settings.now layout.now }
    ensures wires { (w : WireValue) → Contains layout.now.wires w → HasPorts dag.now layout.now.tasks w }
    ensures files { (p : PortValue) → Contains layout.now.files p → HasInput dag.now layout.now.tasks p }
{
    know(dag, settings);
    let _layout = layout;
}

/// A law: each output of an instance is an edge out of its vertex, and has a wire for each destination.
pub fn outputs_have_their_wires(dag: &Dag, settings: &Settings, layout: &Layout)
    requires valid { IsValid dag.now settings.now }
    requires layout { IsLayout dag.now settings.now layout.now }
    ensures wires { (k n : ℕ) (i : InstanceValue) (v : VertexValue) (j : JointValue) → slice_get layout.now.tasks k ≡ Some (Run i) → slice_get dag.now.vertices i.vertex ≡ Some v
        → slice_get (joints_out dag.now layout.now.joints v.name) n ≡ Some j → HasWires (members settings.now) layout.now.wires k n i.member j }
    ensures outputs { (v : VertexValue) → length (joints_out dag.now layout.now.joints v.name) ≡ edges_from dag.now.edges v.name }
    ensures some { (v : VertexValue) → Contains dag.now.vertices v → is_sink v.kind ≡ false → 0 < edges_from dag.now.edges v.name }
{
    know(dag, settings);
    let _layout = layout;
}

/// A law: the receiver of each link has a wire for each of the consumers on its member, and the sender has some wire.
pub fn links_have_their_wires(dag: &Dag, settings: &Settings, layout: &Layout)
    requires valid { IsValid dag.now settings.now }
    requires layout { IsLayout dag.now settings.now layout.now }
    ensures receivers { (k : ℕ) (x : LinkValue) → slice_get layout.now.tasks k ≡ Some (Receive x) → IsHeard (members settings.now) layout.now.joints layout.now.wires k x }
    ensures senders { (k : ℕ) (x : LinkValue) → slice_get layout.now.tasks k ≡ Some (Send x) → IsFed layout.now.wires k 0 }
{
    know(dag, settings);
    let _layout = layout;
}
