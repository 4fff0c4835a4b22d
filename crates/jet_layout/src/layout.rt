// The whole of a job laid out.
ghost use Rattle.std.specs.Prelude.{◌≡◌, IfOk};
ghost use Rattle.jet_layout.specs.Layouts.{IsLayout};

use crate::draft::Draft;
use crate::files::add_files;
use crate::instances::add_vertices;
use crate::joints::add_joints;
use crate::{EdgeEnd, Joint, Link, Port, Task, Wire};
use jet_items::{List, NoMemory};
use jet_plan::{Plan, valid_jobs_keep_their_ranges};
use std::alloc::Global;

/// Where the parts of a job stand once it is deployed.
#[derive(Drop)]
pub struct Layout {
    /// The vertices as ends of edges, each with the number of its first tasklet.
    pub ends: List<EdgeEnd>,
    /// The edges by the instances at their ends.
    pub joints: List<Joint>,
    /// The tasklets: the instances of the vertices, and then two for each link.
    pub tasks: List<Task>,
    /// The links between members.
    pub links: List<Link>,
    /// The rings between tasklets, and those into the sink. Each file has one more.
    pub wires: List<Wire>,
    /// The input that takes the items of each file.
    pub files: List<Port>,
}

impl Layout {
    /// The layout of a plan.
    pub fn new(alloc: Global, plan: &Plan) -> Result<Layout, NoMemory>
        ensures { IfOk result (λ l. IsLayout plan.now.dag plan.now.settings l) }
    {
        let dag = plan.dag();
        let settings = plan.settings();
        valid_jobs_keep_their_ranges(dag, settings);
        let members = settings.members.unsigned_abs() as u32;
        let vertices = dag.vertices.items();
        let mut tasks = List::new(alloc);
        let mut ends = List::new(alloc);
        add_vertices(&mut tasks, &mut ends, members, vertices)?;
        let mut joints = List::new(alloc);
        add_joints(&mut joints, vertices, dag.edges.items(), ends.items())?;
        let mut draft = Draft {
            tasks,
            links: List::new(alloc),
            wires: List::new(alloc),
        };
        draft.add_edges(joints.items(), members)?;
        let mut files = List::new(alloc);
        add_files(&mut files, vertices, ends.items(), members, false)?;
        add_files(&mut files, vertices, ends.items(), members, true)?;
        let Draft {
            tasks,
            links,
            wires,
        } = draft;
        Ok(Layout {
            ends,
            joints,
            tasks,
            links,
            wires,
            files,
        })
    }
}
