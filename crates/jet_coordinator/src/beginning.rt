// A running job as it begins.
ghost use Rattle.std.specs.Prelude.{◌≡◌, ◌≢◌, ◌≤ℤ◌, ℕ, pos, List, [], All, Bool, Option, true, IfErr, IfOk, IsTrue, length, map};
ghost use Rattle.jet_conveyor.specs.Conveyor.{IsNew, view as lanes};
ghost use Rattle.jet_deploy.specs.Deployed.{IsDeployed};
ghost use Rattle.jet_file.specs.Outside.{Told, WhereTold};
ghost use Rattle.jet_flow.specs.DataFiles.{data_files};
ghost use Rattle.jet_flow.specs.Inflows.{windows};
ghost use Rattle.jet_items.specs.Ranges.{most_time};
ghost use Rattle.jet_items.specs.declared.item.Item.{Item};
ghost use Rattle.jet_ring.specs.Ring.{TxView};
ghost use Rattle.jet_ring.specs.declared.ends.Rx.{Rx};
ghost use Rattle.jet_sink.specs.Alike.{AreAlike};
ghost use Rattle.jet_sink.specs.Drained.{HasDrained};
ghost use Rattle.jet_sink.specs.View.{view};
ghost use Rattle.jet_worker.specs.Calls.{Calling};
ghost use Rattle.jet_worker.specs.CheckText.{Checks};
ghost use Rattle.jet_worker.specs.Checked.{IsCheckOf, LacksSome};
ghost use Rattle.jet_worker.specs.Opening.{HasLag, file_in, opened_in};
ghost use Rattle.jet_worker.specs.Stopping.{IsForOutside, IsNoBadLine, OpenOutcome};
ghost use Rattle.jet_coordinator.specs.Begun.{CanFeed, HasBegun, HasFeeds};
ghost use Rattle.jet_coordinator.specs.Feeds.{AreFed, WhereThere};
ghost use Rattle.jet_coordinator.specs.Going.{CanGo};
ghost use Rattle.jet_coordinator.specs.Runs.{RunStops};

use crate::Running;
use crate::files::feeds_of;
use jet_conveyor::Conveyor;
use jet_deploy::deploy;
use jet_engine::Job;
use jet_feed::Feed;
use jet_file::Outside;
use jet_items::NoMemory;
use jet_plan::Plan;
use jet_sink::{Sink, Windows};
use jet_worker::{OpenFile, Stop, limits_of, open_files};
use std::alloc::Global;

// The greatest time by which a source may be read ahead.
const MOST_AHEAD: i64 = 1_000_000_000_000_000;

// The feeds of the opened files of a plan.
fn feeds_for(alloc: Global, plan: &Plan, opened: &[OpenFile<'_>]) -> Result<Vec<Feed>, NoMemory>
    requires lags { All (λ o. HasLag (file_in o.file)) opened.now }
    ensures fed { IfOk result (λ feeds. (c : Checks) (told : Option Told) (txs : List (TxView Item)) → IsCheckOf plan.now.dag plan.now.settings c → WhereThere told (map opened_in opened.now)
        → length txs ≡ length opened.now → All (λ tx. tx.sent ≡ []) txs → AreFed c (map opened_in opened.now) told told txs feeds.items) }
    ensures files { IfOk result (λ feeds. map (λ f. f.file) feeds.items ≡ map (λ o. o.at) opened.now) }
{
    feeds_of(alloc, opened, limits_of(plan))
}

// The files of a plan, opened in the order of their numbers, each with its feed.
fn open_feeds<O: Outside>(alloc: Global, plan: &Plan, out: &mut O) -> Result<Vec<Feed>, Stop>
    ensures count { IfOk result (λ feeds. length feeds.items ≡ length (data_files plan.now.dag)) }
    ensures fit { IfOk result (λ feeds. CanFeed (O.opened out.new) feeds.items) }
    ensures fed { IfOk result (λ feeds. (c : Checks) → IsCheckOf plan.now.dag plan.now.settings c → WhereTold (HasFeeds c (O.opened out.old) (O.opened out.new) feeds.items) (O.told out.old) (O.told out.new)) }
    ensures stop { IfErr result (λ stop. (c : Checks) → IsCheckOf plan.now.dag plan.now.settings c → WhereTold (Calling (RunStops c (windows plan.now.dag) stop)) (O.told out.old) (O.told out.new)) }
    ensures no_bad_line { IfErr result IsNoBadLine }
    ensures works { O.steady out.old ≡ true → IfErr result (λ stop. IsForOutside stop → LacksSome (data_files plan.now.dag) (O.told out.old)) }
    ensures outcome { OpenOutcome O.steady O.faults out.old out.new result }
{
    match open_files(alloc, plan, out) {
        Ok(opened) => match feeds_for(alloc, plan, &opened) {
            Ok(feeds) => Ok(feeds),
            Err(_) => Err(Stop::NoMemory),
        },
        Err(stop) => Err(stop),
    }
}

// The sink of a plan over the rings that come to it.
fn sink_for(alloc: Global, plan: &Plan, rings: &Conveyor) -> Result<Sink, NoMemory>
    ensures drained { IfOk result (λ s. HasDrained (view s) [] []) }
    ensures windows { IfOk result (λ s. (view s).windows ≡ windows plan.now.dag) }
    ensures alike { IfOk result (λ s. (queues : List (Rx Item)) → IsNew (lanes rings.now) queues → AreAlike (view s).marks.queues (lanes rings.now)) }
{
    match Windows::new(alloc, plan) {
        Ok(windows) => Sink::new(alloc, windows, rings.queues()),
        Err(error) => Err(error),
    }
}

// The job of a plan with its sink, before anything ran.
fn deployed(alloc: Global, plan: &Plan) -> Result<(Job, Sink), NoMemory>
    ensures job { IfOk result (λ made. IsDeployed (length (data_files plan.now.dag)) made.0) }
    ensures drained { IfOk result (λ made. HasDrained (view made.1) [] []) }
    ensures windows { IfOk result (λ made. (view made.1).windows ≡ windows plan.now.dag) }
    ensures alike { IfOk result (λ made. AreAlike (view made.1).marks.queues (lanes made.0.sink)) }
{
    match deploy(alloc, plan) {
        Ok(job) => match sink_for(alloc, plan, &job.sink) {
            Ok(sink) => Ok((job, sink)),
            Err(error) => Err(error),
        },
        Err(error) => Err(error),
    }
}

// How far a source of a plan may be read ahead.
fn ahead_of(plan: &Plan) -> i64
    ensures { (pos 0 ≤ℤ result) × (result ≤ℤ pos most_time) }
{
    plan.settings().ahead.max(0).min(MOST_AHEAD)
}

impl Running {
    // A job that was deployed, with its sink and the feeds of its files.
    fn new(plan: &Plan, job: Job, feeds: Vec<Feed>, sink: Sink) -> Running
        ensures job { result.job ≡ job }
        ensures feeds { result.feeds ≡ feeds }
        ensures sink { result.sink ≡ sink }
        ensures ahead { (pos 0 ≤ℤ result.ahead) × (result.ahead ≤ℤ pos most_time) }
    {
        Running {
            job,
            feeds,
            sink,
            ahead: ahead_of(plan),
        }
    }
}

// A job of a plan that is deployed, over these feeds of its files.
fn over_feeds(alloc: Global, plan: &Plan, feeds: Vec<Feed>) -> Result<Running, NoMemory>
    requires count { length feeds.items ≡ length (data_files plan.now.dag) }
    ensures fit { IfOk result (λ r. (is_open : ℕ → Bool) → CanFeed is_open feeds.items → CanGo is_open r) }
    ensures begun { IfOk result (λ r. (c : Checks) (before is_open : ℕ → Bool) (told next : Option Told) → IsCheckOf plan.now.dag plan.now.settings c
        → WhereTold (HasFeeds c before is_open feeds.items) told next → WhereTold (HasBegun c (windows plan.now.dag) before is_open r) told next) }
{
    match deployed(alloc, plan) {
        Ok((job, sink)) => Ok(Running::new(plan, job, feeds, sink)),
        Err(error) => Err(error),
    }
}

/// A job of a plan that is to run: its files are opened in the order of their numbers, and then all its workers, tasklets, rings
/// and links are made. Nothing is read yet. It stops at the first file that cannot be opened, and where no memory is found.
pub fn begin<O: Outside>(alloc: Global, plan: &Plan, out: &mut O) -> Result<Running, Stop>
    ensures fit { IfOk result (λ r. CanGo (O.opened out.new) r) }
    ensures begun { IfOk result (λ r. (c : Checks) → IsCheckOf plan.now.dag plan.now.settings c → WhereTold (HasBegun c (windows plan.now.dag) (O.opened out.old) (O.opened out.new) r) (O.told out.old) (O.told out.new)) }
    ensures stop { IfErr result (λ stop. (c : Checks) → IsCheckOf plan.now.dag plan.now.settings c → WhereTold (Calling (RunStops c (windows plan.now.dag) stop)) (O.told out.old) (O.told out.new)) }
    ensures no_bad_line { IfErr result IsNoBadLine }
    ensures works { O.steady out.old ≡ true → IfErr result (λ stop. IsForOutside stop → LacksSome (data_files plan.now.dag) (O.told out.old)) }
    ensures outcome { OpenOutcome O.steady O.faults out.old out.new result }
{
    match open_feeds(alloc, plan, out) {
        Ok(feeds) => match over_feeds(alloc, plan, feeds) {
            Ok(running) => Ok(running),
            Err(_) => Err(Stop::NoMemory),
        },
        Err(stop) => Err(stop),
    }
}
