// The sink: it takes the items that are known, tells its watermark of marks and ends, prints late events as they come, and
// holds rows until its mark reaches them.
ghost use Rattle.std.specs.Prelude.{◌≡◌, ◌<◌, List, [], ◌∷◌, length, map, set, true, false, IfOk, OnOk};
ghost use Rattle.jet_coalescer.specs.Queues.{is_done_at};
ghost use Rattle.jet_conveyor.specs.Conveyor as lanes;
ghost use Rattle.jet_items.specs.Done.{is_done};
ghost use Rattle.jet_items.specs.declared.item.Item.{Item};
ghost use Rattle.jet_ring.specs.declared.ends.Rx.{Rx};
ghost use Rattle.jet_sink.specs.Alike.{AreAlike};
ghost use Rattle.jet_sink.specs.Drained.{HasDrained, Drained, IsIdle};
ghost use Rattle.jet_sink.specs.Taken.{TakesSome};
ghost use Rattle.jet_sink.specs.View.{view};
ghost use Rattle.jet_sink.specs.inner.LetOut.{PrintsDue};
ghost use Rattle.jet_sink.specs.inner.Noted.{Notes, TakesKnown};

use crate::Windows;
use crate::rows::{close_if, pass, print_due};
use jet_coalescer::Coalescer;
use jet_conveyor::{Conveyor, Polled};
use jet_items::{Item, NoMemory};
use jet_window::OrderedRows;
use std::alloc::Global;

// The most items that a drain takes after its first, many times what all rings of a job hold. What is left is for the next
// epoch.
const MOST: u32 = u32::MAX;

/// The sink of a running job.
#[derive(Drop)]
pub struct Sink {
    windows: Windows,
    rows: OrderedRows,
    coalescer: Coalescer,
    // The lines that the last drain printed. The next one takes their memory.
    pub(crate) row_lines: Vec<u8>,
    pub(crate) late_lines: Vec<u8>,
}

impl Sink {
    /// The sink of a conveyor with this many queues, none of which has given an item.
    pub fn new(alloc: Global, windows: Windows, queues: u32) -> Result<Sink, NoMemory>
        ensures drained { IfOk result (λ s. HasDrained (view s) [] []) }
        ensures windows { IfOk result (λ s. (view s).windows ≡ windows) }
        ensures alike { IfOk result (λ s. (v : lanes.View) (rings : List (Rx Item)) → lanes.IsNew v rings → length rings ≡ queues → AreAlike (view s).marks.queues v) }
    {
        let coalescer = Coalescer::new(alloc, queues)?;
        Ok(Sink {
            windows,
            rows: OrderedRows::new(alloc),
            coalescer,
            row_lines: Vec::new(alloc),
            late_lines: Vec::new(alloc),
        })
    }

    /// The greatest watermark that the queues ever had. It stays when queues are done.
    pub fn mark(&self) -> Option<i64>
        ensures { result ≡ (view self.now).marks.low }
    {
        match self.coalescer.low() {
            Some(mark) => Some(mark.t),
            None => None,
        }
    }

    // Takes note of an item of a queue.
    fn take(&mut self, alloc: Global, queue: u32, item: &Item) -> Result<(), NoMemory>
        requires exists { queue < length self.old.coalescer.queues }
        requires open { is_done_at self.old.coalescer queue ≡ false }
        ensures done { map (λ q. q.done) self.new.coalescer.queues ≡ set (map (λ q. q.done) self.old.coalescer.queues) queue (is_done item.now) }
        ensures windows { self.new.windows ≡ self.old.windows }
        ensures noted { OnOk result (Notes (record { queue = queue; item = item.now } ∷ []) (view self.old) (view self.new)) }
    {
        match item {
            Item::Row(row) => self.rows.put(*row),
            Item::Late(late) => self.windows.print_late(alloc, late, &mut self.late_lines),
            Item::Mark(mark) => {
                let _ = self.coalescer.observe(queue, *mark);
                pass(&mut self.rows, self.coalescer.low());
                Ok(())
            }
            Item::Done => {
                let _ = self.coalescer.done(queue);
                pass(&mut self.rows, self.coalescer.low());
                Ok(())
            }
            _ => Ok(()),
        }
    }
}

impl Sink {
    // Takes the next item that is known, and answers false where there is none.
    fn take_one(&mut self, alloc: Global, conveyor: &mut Conveyor) -> Result<bool, NoMemory>
        requires alike { AreAlike self.old.coalescer.queues (lanes.view conveyor.old) }
        ensures alike { AreAlike self.new.coalescer.queues (lanes.view conveyor.new) }
        ensures windows { self.new.windows ≡ self.old.windows }
        ensures conveyor { TakesSome (lanes.view conveyor.old) (lanes.view conveyor.new) }
        ensures took { IfOk result (λ moved. TakesKnown moved (view self.old) (view self.new) (lanes.view conveyor.old) (lanes.view conveyor.new)) }
        ensures none { IfOk result (λ moved. moved ≡ false → IsIdle (lanes.view conveyor.old) (lanes.view conveyor.new) × (view self.new ≡ view self.old)) }
    {
        match conveyor.poll() {
            Polled::Taken(queue, item) => {
                self.take(alloc, queue, &item)?;
                Ok(true)
            }
            Polled::Nothing => Ok(false),
        }
    }

    // Takes items until none is known, at most `MOST`.
    fn take_more(&mut self, alloc: Global, conveyor: &mut Conveyor) -> Result<(), NoMemory>
        requires alike { AreAlike self.old.coalescer.queues (lanes.view conveyor.old) }
        ensures alike { AreAlike self.new.coalescer.queues (lanes.view conveyor.new) }
        ensures windows { self.new.windows ≡ self.old.windows }
        ensures conveyor { TakesSome (lanes.view conveyor.old) (lanes.view conveyor.new) }
        ensures took { OnOk result (TakesKnown false (view self.old) (view self.new) (lanes.view conveyor.old) (lanes.view conveyor.new)) }
    {
        for _ in 0..MOST {
            if !self.take_one(alloc, conveyor)? {
                return Ok(());
            }
        }
        Ok(())
    }

    // Takes what is known, and answers false where nothing is.
    fn take_known(&mut self, alloc: Global, conveyor: &mut Conveyor) -> Result<bool, NoMemory>
        requires alike { AreAlike self.old.coalescer.queues (lanes.view conveyor.old) }
        ensures alike { AreAlike self.new.coalescer.queues (lanes.view conveyor.new) }
        ensures windows { self.new.windows ≡ self.old.windows }
        ensures conveyor { TakesSome (lanes.view conveyor.old) (lanes.view conveyor.new) }
        ensures took { IfOk result (λ moved. TakesKnown moved (view self.old) (view self.new) (lanes.view conveyor.old) (lanes.view conveyor.new)) }
        ensures none { IfOk result (λ moved. moved ≡ false → IsIdle (lanes.view conveyor.old) (lanes.view conveyor.new) × (view self.new ≡ view self.old)) }
    {
        if !self.take_one(alloc, conveyor)? {
            return Ok(false);
        }
        self.take_more(alloc, conveyor)?;
        Ok(true)
    }
}

impl Sink {
    // Prints the rows that are due, or all where nothing more comes.
    fn print_due(&mut self, alloc: Global, all: bool) -> Result<(), NoMemory>
        ensures queues { self.new.coalescer ≡ self.old.coalescer }
        ensures windows { self.new.windows ≡ self.old.windows }
        ensures printed { OnOk result (PrintsDue all (view self.old) (view self.new)) }
    {
        close_if(&mut self.rows, all);
        print_due(alloc, &self.windows, &mut self.rows, &mut self.row_lines)
    }

    // Takes what is known and prints what is due, in place of the lines of the last drain.
    pub(crate) fn collect(
        &mut self,
        alloc: Global,
        conveyor: &mut Conveyor,
    ) -> Result<bool, NoMemory>
        requires alike { AreAlike self.old.coalescer.queues (lanes.view conveyor.old) }
        ensures alike { AreAlike self.new.coalescer.queues (lanes.view conveyor.new) }
        ensures windows { self.new.windows ≡ self.old.windows }
        ensures conveyor { TakesSome (lanes.view conveyor.old) (lanes.view conveyor.new) }
        ensures drained { IfOk result (λ moved. Drained moved (view self.old) (view self.new) (lanes.view conveyor.old) (lanes.view conveyor.new)) }
        ensures none { IfOk result (λ moved. moved ≡ false → IsIdle (lanes.view conveyor.old) (lanes.view conveyor.new) × (view self.new ≡ record (view self.old) { row_lines = []; late_lines = [] })) }
    {
        self.row_lines.clear();
        self.late_lines.clear();
        if !self.take_known(alloc, conveyor)? {
            return Ok(false);
        }
        self.print_due(alloc, conveyor.all_done())?;
        Ok(true)
    }
}
