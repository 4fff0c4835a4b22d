// Which destination of an output takes a partition of keys.
ghost use Rattle.std.specs.Prelude.{◌≡◌, ◌≤◌, ◌<◌, IfOk, map};
ghost use Rattle.std.specs.List.{All, range_with_len};
ghost use Rattle.jet_layout.specs.Destinations.{destination_count, HasOutputs};
ghost use Rattle.jet_layout.specs.Tables.{destination, table};

use crate::Joint;
use jet_items::NoMemory;
use std::alloc::Global;

// The destination of a partition from a member.
fn destination(joint: &Joint, members: u32, across: bool, member: u32, partition: u32) -> u32
    requires members { (1 ≤ members) × (members ≤ 4) }
    requires member { member < members }
    requires partition { partition < 271 }
    requires instances { 1 ≤ joint.now.to.parallelism }
    ensures { result ≡ destination members joint.now across member partition }
{
    if joint.to.single {
        return 0;
    }
    let parallelism = u32::from(joint.to.parallelism);
    let owner = partition % members;
    if across && owner != member {
        let place = if owner < member { owner } else { owner - 1 };
        parallelism + place
    } else {
        (partition / members) % parallelism
    }
}

/// The destinations of all partitions of keys in the outputs on a member of a partitioned edge. The consumers on that
/// member are the first destinations. Where items go `across` members the others stand behind them in their order; they
/// do on the outputs of a distributed edge, and never on that of a receiver.
#[tactic(auto, using(crate::proofs::Ranges::map_more))]
pub fn partition_table(
    alloc: Global,
    joint: &Joint,
    members: u32,
    across: bool,
    member: u32,
) -> Result<Vec<u32>, NoMemory>
    requires members { (1 ≤ members) × (members ≤ 4) }
    requires member { member < members }
    requires instances { 1 ≤ joint.now.to.parallelism }
    ensures table { IfOk result (λ t. t.items ≡ table members joint.now across member) }
    ensures below { IfOk result (λ t. HasOutputs joint.now across member → All (λ d. d < destination_count members joint.now across member) t.items) }
{
    let mut destinations = Vec::new(alloc);
    for partition in 0..271 {
        destinations.push(destination(joint, members, across, member, partition))?;
    }
    Ok(destinations)
}
