// Which tasklet takes each file.
ghost use Rattle.std.specs.Prelude.{◌≡◌, ◌≤◌, ◌++◌, Bool, OnOk, map, length};
ghost use Rattle.std.specs.List.{All, range_with_len};
ghost use Rattle.jet_layout.specs.Files.{file_port, file_ports, files_from, chosen_files};

use crate::{EdgeEnd, Port};
use jet_items::{List, NoMemory};
use jet_plan::{Kind, Vertex};

// The input that takes the file at a place in the list of its vertex.
fn file_port(end: EdgeEnd, members: u32, place: usize) -> Port
    requires members { (1 ≤ members) × (members ≤ 4) }
    requires instances { 1 ≤ end.parallelism }
    ensures { result ≡ file_port end members place }
{
    let members = members as usize;
    let instance = (place / members) % usize::from(end.parallelism);
    end.port((place % members) as u32, instance as u32)
}

// Adds the inputs that take so many files of a vertex.
#[tactic(auto, using(crate::proofs::Ranges::map_more))]
fn add_ports(
    ports: &mut List<Port>,
    end: EdgeEnd,
    members: u32,
    count: usize,
) -> Result<(), NoMemory>
    requires members { (1 ≤ members) × (members ≤ 4) }
    requires instances { 1 ≤ end.parallelism }
    ensures { OnOk result (ports.new ≡ ports.old ++ file_ports members end count) }
{
    for place in 0..count {
        ports.push(file_port(end, members, place))?;
    }
    Ok(())
}

// How many files a vertex has, if it is a side vertex or if it is none, as is asked.
fn chosen_files(vertex: &Vertex, sides: bool) -> usize
    ensures { result ≡ chosen_files sides vertex.now.kind }
{
    match &vertex.kind {
        Kind::Source { files, .. } if !sides => files.items().len(),
        Kind::Side { .. } if sides => 1,
        _ => 0,
    }
}

/// Adds the inputs that take the files of the sources, or those that take the side files.
pub fn add_files(
    ports: &mut List<Port>,
    vertices: &[Vertex],
    ends: &[EdgeEnd],
    members: u32,
    sides: bool,
) -> Result<(), NoMemory>
    requires members { (1 ≤ members) × (members ≤ 4) }
    requires ends { length ends.now ≡ length vertices.now }
    requires instances { All (λ e. 1 ≤ e.parallelism) ends.now }
    ensures { OnOk result (ports.new ≡ ports.old ++ files_from sides members ends.now vertices.now) }
{
    for (number, vertex) in vertices.iter().enumerate() {
        let count = chosen_files(vertex, sides);
        add_ports(ports, ends[number], members, count)?;
    }
    Ok(())
}
