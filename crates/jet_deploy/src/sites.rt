// Where the two ends of each ring stand among the tasklets of a job.
ghost use Rattle.std.specs.Prelude.{◌≡◌, ◌<◌, ◌^◌, Some, length, slice_get, IfOk};
ghost use Rattle.jet_harness.specs.Channels as harness;
ghost use Rattle.jet_harness.specs.Places.{place_at_giver, place_at_taker};
ghost use Rattle.jet_harness.specs.declared.channel.Giver.TheVariants as given;
ghost use Rattle.jet_layout.specs.declared.wire.Taker.TheVariants as taken;
ghost use Rattle.jet_deploy.specs.Sites.{EachLink, GivesAt, TakesAt, IsJunction, IsFeed, IsDrain, EachOf, AreSites, NoFileToSink, place_between};

use jet_engine::{DestAt, Junction, LinkAt, QueueAt, Wiring};
use jet_harness::{Channel, Giver, channels, place_at_giver, place_at_taker};
use jet_items::NoMemory;
use jet_layout::{Layout, Port, Taker, Task};
use std::alloc::Global;

// The destination of an output from which a ring leads.
fn dest_at(channels: &[Channel], number: usize, channel: Channel, from: Port) -> DestAt
    requires few { length channels.now < 2 ^ 32 }
    requires at { slice_get channels.now number ≡ Some channel }
    requires giver { channel.giver ≡ given.Output from }
    ensures { GivesAt channels.now number channel result }
{
    DestAt {
        task: from.task,
        output: from.number,
        dest: place_at_giver(channels, number, channel.giver) as u32,
    }
}

// The queue of an input to which a ring leads.
fn queue_at(channels: &[Channel], number: usize, channel: Channel, to: Port) -> QueueAt
    requires few { length channels.now < 2 ^ 32 }
    requires at { slice_get channels.now number ≡ Some channel }
    requires taker { channel.taker ≡ taken.Input to }
    ensures { TakesAt channels.now number channel result }
{
    QueueAt {
        task: to.task,
        input: to.number,
        queue: place_at_taker(channels, number, channel.taker) as u32,
    }
}

// The rings between two tasklets.
fn junctions(alloc: Global, channels: &[Channel]) -> Result<Vec<Junction>, NoMemory>
    requires few { length channels.now < 2 ^ 32 }
    ensures each { IfOk result (λ js. EachOf (IsJunction channels.now) js.items) }
    ensures all { IfOk result (λ js. length js.items ≡ place_between channels.now (length channels.now)) }
{
    let mut junctions = Vec::new(alloc);
    for (number, channel) in channels.iter().enumerate() {
        if let (Giver::Output(from), Taker::Input(to)) = (channel.giver, channel.taker) {
            let giver = dest_at(channels, number, *channel, from);
            let taker = queue_at(channels, number, *channel, to);
            junctions.push(Junction { giver, taker })?;
        }
    }
    Ok(junctions)
}

// The queues that take the items of the files.
fn feeds(alloc: Global, channels: &[Channel]) -> Result<Vec<QueueAt>, NoMemory>
    requires few { length channels.now < 2 ^ 32 }
    requires inputs { NoFileToSink channels.now }
    ensures each { IfOk result (λ ps. EachOf (IsFeed channels.now) ps.items) }
    ensures all { IfOk result (λ ps. length ps.items ≡ place_at_giver channels.now (length channels.now) given.File) }
{
    let mut feeds = Vec::new(alloc);
    for (number, channel) in channels.iter().enumerate() {
        if let (Giver::File, Taker::Input(to)) = (channel.giver, channel.taker) {
            feeds.push(queue_at(channels, number, *channel, to))?;
        }
    }
    Ok(feeds)
}

// The destinations that lead to the sink.
fn drains(alloc: Global, channels: &[Channel]) -> Result<Vec<DestAt>, NoMemory>
    requires few { length channels.now < 2 ^ 32 }
    requires inputs { NoFileToSink channels.now }
    ensures each { IfOk result (λ ps. EachOf (IsDrain channels.now) ps.items) }
    ensures all { IfOk result (λ ps. length ps.items ≡ place_at_taker channels.now (length channels.now) taken.Sink) }
{
    let mut drains = Vec::new(alloc);
    for (number, channel) in channels.iter().enumerate() {
        if let (Giver::Output(from), Taker::Sink) = (channel.giver, channel.taker) {
            drains.push(dest_at(channels, number, *channel, from))?;
        }
    }
    Ok(drains)
}

/// Where the ends of all rings of a layout stand, beside links that stand at these places.
pub fn wiring(alloc: Global, layout: &Layout, links: Vec<LinkAt>) -> Result<Wiring, NoMemory>
    requires few { length (harness.channels layout.now) < 2 ^ 32 }
    ensures sites { IfOk result (λ w. AreSites (harness.channels layout.now) w) }
    ensures links { IfOk result (λ w. w.links ≡ links) }
{
    let channels = channels(alloc, layout)?;
    Ok(Wiring {
        links,
        junctions: junctions(alloc, &channels)?,
        feeds: feeds(alloc, &channels)?,
        drains: drains(alloc, &channels)?,
    })
}

/// Where the two ends of each link stand.
pub fn link_places(alloc: Global, tasks: &[Task]) -> Result<Vec<LinkAt>, NoMemory>
    ensures each { IfOk result (λ links. EachLink tasks.now links.items) }
{
    let mut links = Vec::new(alloc);
    for (number, task) in tasks.iter().enumerate() {
        if let Task::Send(_) = task {
            links.push(LinkAt {
                sender: number,
                receiver: number + 1,
            })?;
        }
    }
    Ok(links)
}
