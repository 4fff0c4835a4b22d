// The feeds of all data files of a job.
ghost use Rattle.std.specs.Prelude.{◌≡◌, ◌≢◌, ◌↔◌, ◌≤ℤ◌, ◌≤◌, ◌<◌, ◌^◌, ℕ, pos, List, [], All, Option, Some, None, true, false, IsTrue, IfOk, IfErr, OnOk, length, map};
ghost use Rattle.std.specs.List.{AllPairs};
ghost use Rattle.jet_crew.specs.Epoch.{Placewise};
ghost use Rattle.jet_file.specs.Outside.{WhereTold, Told};
ghost use Rattle.jet_items.specs.Ranges.{most_time};
ghost use Rattle.jet_lines.specs.Files.{most_lines};
ghost use Rattle.jet_ring.specs.Ring.{TxView, known_free, reach, sent, tx_ring, tx_view};
ghost use Rattle.jet_worker.specs.CheckText.{Checks};
ghost use Rattle.jet_worker.specs.Opening.{HasLag, HasOpened, Opened, IsUnread, file_in, opened_in};
ghost use Rattle.jet_worker.specs.Stopping.{Outcome};
ghost use Rattle.jet_feed.specs.Fed.{IsOfFile, IsOver};
ghost use Rattle.jet_feed.specs.declared.feed.Feed.{Feed};
ghost use Rattle.jet_coordinator.specs.Feeds.{AreFed, HaveRead, IsBadAmong, IsThere, StartsFed, WhereThere};

use jet_feed::{Feed, Leave};
use jet_file::Outside;
use jet_items::{Item, NoMemory};
use jet_ring::Tx;
use jet_worker::{DataFile, Limits, OpenFile, Stop};
use std::alloc::Global;

// The feed of an opened file.
fn feed_of(alloc: Global, file: &OpenFile<'_>, limits: Limits) -> Feed
    requires lag { HasLag (file_in file.now.file) }
    requires most { limits.most ≤ most_lines }
    requires unit { (pos 1 ≤ℤ limits.unit) × (limits.unit ≤ℤ pos 1000000000000) }
    ensures fed { (c : Checks) (told : Told) → c.most ≡ limits.most → limits.unit ≡ pos c.unit → IsThere told (opened_in file.now) → StartsFed c (Some told) (opened_in file.now) result }
    ensures untold { (c : Checks) → c.most ≡ limits.most → limits.unit ≡ pos c.unit → StartsFed c None (opened_in file.now) result }
    ensures file { result.file ≡ file.now.at }
{
    match file.file {
        DataFile::Source { lag, .. } => {
            Feed::source(alloc, file.part, file.at, limits.most, lag, limits.unit)
        }
        DataFile::Side { .. } => Feed::side(alloc, file.part, file.at, limits.most),
    }
}

/// The feeds of opened files of which nothing is read.
pub fn feeds_of(
    alloc: Global,
    opened: &[OpenFile<'_>],
    limits: Limits,
) -> Result<Vec<Feed>, NoMemory>
    requires lags { All (λ o. HasLag (file_in o.file)) opened.now }
    requires most { limits.most ≤ most_lines }
    requires unit { (pos 1 ≤ℤ limits.unit) × (limits.unit ≤ℤ pos 1000000000000) }
    ensures fed { IfOk result (λ feeds. (c : Checks) (told : Option Told) (txs : List (TxView Item)) → c.most ≡ limits.most → limits.unit ≡ pos c.unit
        → WhereThere told (map opened_in opened.now) → length txs ≡ length opened.now → All (λ tx. tx.sent ≡ []) txs
        → AreFed c (map opened_in opened.now) told told txs feeds.items) }
    ensures files { IfOk result (λ feeds. map (λ f. f.file) feeds.items ≡ map (λ o. o.at) opened.now) }
{
    let mut feeds = Vec::new(alloc);
    for file in opened {
        feeds.push(feed_of(alloc, file, limits))?;
    }
    Ok(feeds)
}

// The file of this place is read on, as `feed_all` does with each.
fn feed_at<O: Outside>(
    alloc: Global,
    number: usize,
    feeds: &mut [Feed],
    txs: &mut [Tx<Item>],
    leave: &Leave,
    out: &mut O,
) -> Result<bool, Stop>
    requires ahead { (pos 0 ≤ℤ leave.now.ahead) × (leave.now.ahead ≤ℤ pos most_time) }
    requires place { number < length feeds.old }
    requires rings { length txs.old ≡ length feeds.old }
    requires opened { All (λ f. IsTrue (O.opened out.old f.file)) feeds.old }
    requires apart { AllPairs (λ f g. f.file ≢ g.file) feeds.old }
    ensures fed { OnOk result ((c : Checks) (opened : List Opened) (began : Option Told) → AreFed c opened began (O.told out.old) (map tx_view txs.old) feeds.old
        → AreFed c opened began (O.told out.new) (map tx_view txs.new) feeds.new) }
    ensures bad { IfErr result (λ stop. (c : Checks) (opened : List Opened) (began : Option Told) → AreFed c opened began (O.told out.old) (map tx_view txs.old) feeds.old
        → IsBadAmong c opened began stop) }
    ensures rings { Placewise (λ a b. b.ring ≡ a.ring) (map tx_view txs.old) (map tx_view txs.new) }
    ensures files { Placewise IsOfFile feeds.old feeds.new }
    ensures told { WhereTold (HaveRead feeds.old result) (O.told out.old) (O.told out.new) }
    ensures outcome { Outcome O.opened O.steady O.faults out.old out.new result }
    ensures still { IfOk result (λ moved. moved ≡ false → (txs.new ≡ txs.old) × (out.new ≡ out.old)) }
{
    feeds[number].feed(alloc, &mut txs[number], leave, out)
}

/// Each file is read on as far as it may be and its ring has slots, file by file. Answers whether anything moved.
pub fn feed_all<O: Outside>(
    alloc: Global,
    feeds: &mut [Feed],
    txs: &mut [Tx<Item>],
    leave: &Leave,
    out: &mut O,
) -> Result<bool, Stop>
    requires ahead { (pos 0 ≤ℤ leave.now.ahead) × (leave.now.ahead ≤ℤ pos most_time) }
    requires rings { length txs.old ≡ length feeds.old }
    requires opened { All (λ f. IsTrue (O.opened out.old f.file)) feeds.old }
    requires apart { AllPairs (λ f g. f.file ≢ g.file) feeds.old }
    ensures fed { OnOk result ((c : Checks) (opened : List Opened) (began : Option Told) → AreFed c opened began (O.told out.old) (map tx_view txs.old) feeds.old
        → AreFed c opened began (O.told out.new) (map tx_view txs.new) feeds.new) }
    ensures bad { IfErr result (λ stop. (c : Checks) (opened : List Opened) (began : Option Told) → AreFed c opened began (O.told out.old) (map tx_view txs.old) feeds.old
        → IsBadAmong c opened began stop) }
    ensures rings { Placewise (λ a b. b.ring ≡ a.ring) (map tx_view txs.old) (map tx_view txs.new) }
    ensures files { Placewise IsOfFile feeds.old feeds.new }
    ensures told { WhereTold (HaveRead feeds.old result) (O.told out.old) (O.told out.new) }
    ensures outcome { Outcome O.opened O.steady O.faults out.old out.new result }
    ensures still { IfOk result (λ moved. moved ≡ false → (txs.new ≡ txs.old) × (out.new ≡ out.old)) }
{
    let mut moved = false;
    'files: for number in 0..feeds.len() {
        match feed_at(alloc, number, feeds, txs, leave, out) {
            Ok(more) => moved |= more,
            Err(stop) => return Err(stop),
        }
    }
    Ok(moved)
}

/// Whether each file was read to its end, and its ring was sent all and Done.
pub fn are_over(feeds: &[Feed]) -> bool
    ensures { IsTrue result ↔ All IsOver feeds.now }
{
    feeds.iter().all(Feed::is_over)
}
