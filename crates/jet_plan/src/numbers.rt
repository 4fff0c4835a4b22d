// The numbers of a job within its limits.
ghost use Rattle.std.specs.Prelude.{◌≡◌, ◌≤◌, ◌*◌, ◌^◌, sum_by};
ghost use Rattle.jet_plan.specs.Limits.{IsLimited};
ghost use Rattle.jet_plan.specs.Rings.{members, rings_of, rings, slots, links, tasklets, buffers, buffers_each, packet_bytes};

use crate::edge_count::{EdgeCount, all_edges};
use crate::instances::vertex_tasklets;
use crate::sizes::files;
use crate::{Dag, Settings};

// What the edges are made of.
fn edges(dag: &Dag, settings: &Settings) -> EdgeCount
    requires { IsLimited dag.now settings.now }
    ensures rings { result.rings ≡ sum_by (rings_of (members settings.now) dag.now.vertices) dag.now.edges }
    ensures links { result.links ≡ links dag.now settings.now }
    ensures bound { (result.rings ≤ 17168640) × (result.links ≤ 1024) }
{
    all_edges(
        settings.members.unsigned_abs(),
        dag.vertices.items(),
        dag.edges.items(),
    )
}

/// The rings: those of the edges, and one for each file.
pub fn rings(dag: &Dag, settings: &Settings) -> u64
    requires { IsLimited dag.now settings.now }
    ensures value { result ≡ rings dag.now settings.now }
    ensures bound { result ≤ 17168896 }
{
    let edges = edges(dag, settings);
    edges.rings + files(dag.vertices.items())
}

/// The slots of all rings.
pub fn slots(dag: &Dag, settings: &Settings) -> u64
    requires { IsLimited dag.now settings.now }
    ensures { result ≡ slots dag.now settings.now }
{
    rings(dag, settings) * settings.ring.unsigned_abs()
}

/// The links between members.
pub fn links(dag: &Dag, settings: &Settings) -> u64
    requires { IsLimited dag.now settings.now }
    ensures value { result ≡ links dag.now settings.now }
    ensures bound { result ≤ 1024 }
{
    edges(dag, settings).links
}

/// The tasklets: the instances of all vertices but the sink, and two for each link.
pub fn tasklets(dag: &Dag, settings: &Settings) -> u64
    requires { IsLimited dag.now settings.now }
    ensures { result ≡ tasklets dag.now settings.now }
{
    let vertices = vertex_tasklets(settings.members.unsigned_abs(), dag.vertices.items());
    vertices + 2 * links(dag, settings)
}

// What the buffers of all links may take together: a quarter of the memory that a plan's ring slots may take.
const MOST_BUFFER_BYTES: u64 = 1 << 30;

/// The buffers of each link.
pub fn buffers(dag: &Dag, settings: &Settings) -> u32
    requires { IsLimited dag.now settings.now }
    ensures value { result ≡ buffers dag.now settings.now }
    ensures bound { (4 ≤ result) × (result ≤ 65536) }
    ensures memory { links dag.now settings.now * packet_bytes settings.now * result ≤ 2 ^ 30 }
{
    let links = links(dag, settings);
    if links == 0 {
        return 4;
    }
    buffers_each(
        links,
        settings.packet.unsigned_abs(),
        settings.peak.unsigned_abs(),
    )
}

// The buffers of each of so many links, one at least.
fn buffers_each(links: u64, packet: u64, peak: u64) -> u32
    requires links { (1 ≤ links) × (links ≤ 1024) }
    requires packet { (256 ≤ packet) × (packet ≤ 65536) }
    requires peak { peak ≤ 16777216 }
    ensures value { result ≡ buffers_each links packet peak }
    ensures bound { (4 ≤ result) × (result ≤ 65536) }
    ensures memory { links * packet * result ≤ 2 ^ 30 }
{
    let wanted = peak.div_ceil(packet) + 1;
    let room = MOST_BUFFER_BYTES / (links * packet);
    wanted.min(room.min(65_536)).max(4) as u32
}
