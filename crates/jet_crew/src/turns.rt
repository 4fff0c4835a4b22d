// What takes turns, and some turns in a row.
ghost use Rattle.jet_crew.specs.Turns.{Took};

use crate::EpochEnd;
use crate::end::worse;

/// What can take turns. A turn never waits; what it keeps and what its answers say is the task's own to tell.
pub trait Turns {
    ghost use Rattle.jet_crew.specs.declared.end.EpochEnd.{EpochEnd};
    ghost use Rattle.jet_crew.specs.Turns.{joined};

    /// What holds of a task before each turn.
    ghost keeps: { Self → Type 0 };

    /// What turns leave as it was, or only add to.
    ghost went: { Self → Self → Type 0 };

    /// What the answer of turns says.
    ghost said: { EpochEnd → Self → Self → Type 0 };

    /// One turn.
    fn take_turn(&mut self) -> EpochEnd
        requires keeps { keeps self.old }
        ensures went { went self.old self.new }
        ensures said { said result self.old self.new };

    /// A law: turns keep what holds before each of them, turns in a row leave what each of them leaves, and their answers
    /// join.
    fn law_turns_in_a_row()
        ensures keeps { (a b : Self) → keeps a → went a b → keeps b }
        ensures went { (a b c : Self) → went a b → went b c → went a c }
        ensures said { (p q : EpochEnd) → (a b c : Self) → went a b → went b c → said p a b → said q b c → said (joined p q) a c };
}

// So many turns of one task, one after another.
pub fn take_turns<T: Turns>(task: &mut T, turns: u32) -> EpochEnd
    requires keeps { T.keeps task.old }
    ensures { Took T.went T.said turns result task.old task.new }
{
    T::law_turns_in_a_row();
    let mut end = EpochEnd::Done;
    for _ in 0..turns {
        let next = task.take_turn();
        end = worse(end, next);
    }
    end
}
