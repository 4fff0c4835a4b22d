// A worker and its part of an epoch.
ghost use Rattle.std.specs.Prelude.{◌≡◌, ◌<◌, [], All};
ghost use Rattle.jet_crew.specs.Epoch.{AllKeep, TookAll, EpochOver, Worked};
ghost use Rattle.jet_crew.specs.declared.end.EpochEnd.TheVariants as end;

use crate::end::worse;
use crate::turns::take_turns;
use crate::{EpochEnd, Turns};
use std::alloc::Global;

/// Tasks that take their turns one after another.
#[derive(Drop)]
pub struct Worker<T> {
    /// Its tasks, in the order in which it goes through them.
    pub tasks: Vec<T>,
    /// What its last epoch came to.
    pub end: EpochEnd,
    /// How many epochs it had, modulo 2^128.
    pub epochs: u128,
}

impl<T: Turns> Worker<T> {
    /// A worker without tasks that had no epoch.
    pub fn new(alloc: Global) -> Worker<T>
        ensures tasks { result.tasks.items ≡ [] }
        ensures end { result.end ≡ end.Done }
        ensures epochs { result.epochs ≡ 0 }
    {
        Worker {
            tasks: Vec::new(alloc),
            end: EpochEnd::Done,
            epochs: 0,
        }
    }

    /// Each task takes so many turns, one task after another. NoMemory comes exactly where one of these turns wanted
    /// memory, else Moved exactly where something moved, else Done exactly where each task has ended; after Idle each is
    /// idle or has ended.
    pub fn epoch(&mut self, turns: u32) -> EpochEnd
        requires keeps { AllKeep T.keeps self.old }
        requires some { 0 < turns }
        ensures worked { Worked T.went T.said turns self.old self.new }
        ensures answer { result ≡ self.new.end }
        ensures kept { AllKeep T.keeps self.new }
    {
        self.end = all_turns(&mut self.tasks, turns);
        self.epochs = self.epochs.wrapping_add(1);
        self.end
    }
}

fn all_turns<T: Turns>(tasks: &mut [T], turns: u32) -> EpochEnd
    requires keeps { All T.keeps tasks.old }
    requires some { 0 < turns }
    ensures took { TookAll T.went T.said turns result tasks.old tasks.new }
    ensures over { EpochOver T.went T.said result tasks.old tasks.new }
    ensures kept { All T.keeps tasks.new }
{
    T::law_turns_in_a_row();
    let mut end = EpochEnd::Done;
    for task in tasks.iter_mut() {
        let next = take_turns(task, turns);
        end = worse(end, next);
    }
    end
}
