// A drain: what is known is taken, and what is printed is written.
ghost use Rattle.std.specs.Prelude.{◌≡◌, ◌⊎◌, [], true, false, IfOk, IfErr};
ghost use Rattle.jet_conveyor.specs.Conveyor as lanes;
ghost use Rattle.jet_file.specs.Outside.{WhereTold};
ghost use Rattle.jet_worker.specs.Feeding.{Flushes};
ghost use Rattle.jet_worker.specs.Stopping.{IsNoBadLine, Outcome};
ghost use Rattle.jet_sink.specs.Alike.{AreAlike};
ghost use Rattle.jet_sink.specs.Drained.{Drained, IsIdle};
ghost use Rattle.jet_sink.specs.Taken.{TakesSome};
ghost use Rattle.jet_sink.specs.View.{view};

use crate::Sink;
use jet_conveyor::Conveyor;
use jet_file::Outside;
use jet_items::NoMemory;
use jet_worker::{Stop, write_texts};
use std::alloc::Global;

impl Sink {
    /// Takes what the queues of a conveyor are known to hold, and writes: late lines to Notes, and then to Rows the rows whose
    /// end the mark has reached, in the order of end, vertex and key bytes. Once each queue is done it writes all rows that
    /// are left. Answers whether an item was taken. After an error nothing more is to be drained.
    pub fn drain<O: Outside>(
        &mut self,
        alloc: Global,
        conveyor: &mut Conveyor,
        out: &mut O,
    ) -> Result<bool, Stop>
        requires alike { AreAlike (view self.old).marks.queues (lanes.view conveyor.old) }
        ensures outcome { Outcome O.opened O.steady O.faults out.old out.new result }
        ensures no_bad_line { IfErr result IsNoBadLine }
        ensures told { WhereTold (Flushes (view self.new).row_lines (view self.new).late_lines result) (O.told out.old) (O.told out.new) }

        // the sink's queues stay those of the conveyor, whose queues receive what was taken
        ensures alike { AreAlike (view self.new).marks.queues (lanes.view conveyor.new) }
        ensures windows { (view self.new).windows ≡ (view self.old).windows }
        ensures conveyor { TakesSome (lanes.view conveyor.old) (lanes.view conveyor.new) }

        // what was taken and printed; where the drain stops before all is printed, nothing is written
        ensures drained { IfOk result (λ moved. Drained moved (view self.old) (view self.new) (lanes.view conveyor.old) (lanes.view conveyor.new)) }
        ensures stopped { IfErr result (λ stop. (out.new ≡ out.old) ⊎ Drained true (view self.old) (view self.new) (lanes.view conveyor.old) (lanes.view conveyor.new)) }

        // where nothing is known, nothing changes
        ensures none { IfOk result (λ moved. moved ≡ false → IsIdle (lanes.view conveyor.old) (lanes.view conveyor.new) × (view self.new ≡ record (view self.old) { row_lines = []; late_lines = [] }) × (out.new ≡ out.old)) }
    {
        match self.collect(alloc, conveyor) {
            Ok(true) => match write_texts(out, &self.row_lines, &self.late_lines) {
                Ok(()) => Ok(true),
                Err(stop) => Err(stop),
            },
            Ok(false) => Ok(false),
            Err(NoMemory) => Err(Stop::NoMemory),
        }
    }
}
