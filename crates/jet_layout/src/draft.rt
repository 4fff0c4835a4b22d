// What is laid out so far.
ghost use Rattle.std.specs.Prelude.{◌≡◌, ◌++◌, ◌∷◌, [], OnOk, length};
ghost use Rattle.std.specs.List.{flat_map, range_with_len};
ghost use Rattle.jet_layout.specs.Links.{link_between, links_from, links_of};
ghost use Rattle.jet_layout.specs.Wires.{edge_wires};
ghost use Rattle.jet_layout.specs.inner.Drafts.{HasLinks, HasEdge, HasEdges};

use crate::wires::{add_all_local, add_link};
use crate::{Joint, Link, Task, Wire};
use jet_items::{List, NoMemory};

/// The tasklets, links and rings that are laid out so far.
#[derive(Drop)]
pub struct Draft {
    pub tasks: List<Task>,
    pub links: List<Link>,
    pub wires: List<Wire>,
}

#[tactic(auto, using(crate::proofs::Drafts::has_none))]
impl Draft {
    // Adds a link with its two tasklets and its rings.
    fn add(&mut self, joint: &Joint, link: Link) -> Result<(), NoMemory>
        ensures { OnOk result (HasLinks joint.now self.old self.new (link ∷ [])) }
    {
        let sender = self.tasks.items().len();
        self.tasks.push(Task::Send(link))?;
        let receiver = self.tasks.items().len();
        self.tasks.push(Task::Receive(link))?;
        self.links.push(link)?;
        add_link(&mut self.wires, joint, sender, receiver, &link)
    }

    // Adds the link of an edge from one member to another, if there is one.
    fn add_between(&mut self, joint: &Joint, from: u32, to: u32) -> Result<(), NoMemory>
        ensures { OnOk result (HasLinks joint.now self.old self.new (link_between joint.now from to)) }
    {
        if to == from || joint.from.count(from) == 0 || joint.to.count(to) == 0 {
            return Ok(());
        }
        let edge = joint.edge;
        self.add(joint, Link { edge, from, to })
    }

    // Adds the links of an edge from one member.
    fn add_from(&mut self, joint: &Joint, members: u32, from: u32) -> Result<(), NoMemory>
        ensures { OnOk result (HasLinks joint.now self.old self.new (links_from joint.now members from)) }
    {
        for to in 0..members {
            self.add_between(joint, from, to)?;
        }
        Ok(())
    }

    // Adds the links of an edge.
    fn add_links(&mut self, joint: &Joint, members: u32) -> Result<(), NoMemory>
        ensures { OnOk result (HasLinks joint.now self.old self.new (links_of members joint.now)) }
    {
        if !joint.distributed {
            return Ok(());
        }
        for from in 0..members {
            self.add_from(joint, members, from)?;
        }
        Ok(())
    }

    /// Adds an edge: its rings between instances on the same member, and its links with theirs.
    fn add_edge(&mut self, joint: &Joint, members: u32) -> Result<(), NoMemory>
        ensures { OnOk result (HasEdge members joint.now self.old self.new) }
    {
        add_all_local(&mut self.wires, joint, members)?;
        self.add_links(joint, members)
    }

    /// Adds all edges.
    pub fn add_edges(&mut self, joints: &[Joint], members: u32) -> Result<(), NoMemory>
        ensures { OnOk result (HasEdges members joints.now self.old self.new) }
    {
        for joint in joints {
            self.add_edge(joint, members)?;
        }
        Ok(())
    }
}
