// A window that keeps the events themselves, as long as one of their windows is open, and computes a window's rows
// from them when a mark closes it.
ghost use Rattle.std.specs.Prelude.{◌≡◌, ◌≤ℤ◌, ℕ, List, [], ◌∷◌, ◌++◌, Some, None, IfSome, IfOk, OnOk, OnErr};
ghost use Rattle.jet_items.specs.Ranges.{IsWithin, most_time};
ghost use Rattle.jet_items.specs.Totals.{total};
ghost use Rattle.jet_items.specs.Values.{EventValue};
ghost use Rattle.jet_window.specs.Plain.{is_open};
ghost use Rattle.jet_window.specs.Tables.{IsTable, IsFirstEnd, IsLastDue, brings};

use crate::table::{add_event, rows_of};
use jet_items::{Event, Key, Mark, NoMemory, Row};
use jet_policy::WinPolicy;
use std::alloc::Global;
use std::collections::BTreeMap;
use std::marker::Model;

/// A window vertex over a list of events.
#[derive(Drop)]
pub struct PlainWindow {
    alloc: Global,
    vertex: u8,
    policy: WinPolicy,
    closed: Option<Mark>,
    events: Vec<Event>,
}

impl Model for PlainWindow {
    ghost use Rattle.jet_policy.specs.Policy.{IsPolicy};
    ghost use Rattle.jet_window.specs.Plain.{PlainValue};

    ghost Value = { PlainValue };

    ghost view = { λ p. record { vertex = p.vertex; size = p.policy.size; slide = p.policy.slide; closed = p.closed; events = p.events.items } };

    ghost invariant = { λ p. IsPolicy p.policy.size p.policy.slide };
}

impl PlainWindow {
    ghost use Rattle.jet_window.specs.Plain.{HasTaken, RowsBetween, window_named};

    /// A window that has taken nothing.
    pub fn new(alloc: Global, vertex: u8, policy: WinPolicy) -> PlainWindow
        ensures value { result ≡ record { vertex = vertex; size = policy.size; slide = policy.slide; closed = None; events = [] } }
        ensures taken { HasTaken result [] }
    {
        let size = policy.size();
        prove!(size > 0);
        PlainWindow {
            alloc,
            vertex,
            policy,
            closed: None,
            events: Vec::new(alloc),
        }
    }

    /// Takes one more event.
    pub fn accept(&mut self, event: Event) -> Result<(), NoMemory>
        requires { IfSome self.old.closed (λ mark. mark ≤ℤ event.ts) }
        ensures ok { OnOk result (self.new ≡ record self.old { events = self.old.events ++ event ∷ [] }) }
        ensures taken { OnOk result ((all : List EventValue) → HasTaken self.old all → HasTaken self.new (all ++ event ∷ [])) }
        ensures err { OnErr result (self.new ≡ self.old) }
    {
        self.events.push(event)?;
        Ok(())
    }

    /// Closes the windows that end at most at the mark, and answers their rows in order.
    ///
    /// Events of which all windows are closed then are let go.
    pub fn close(&mut self, mark: Mark) -> Result<Vec<Row>, NoMemory>
        requires { IfSome self.old.closed (λ last. last ≤ℤ mark) }
        ensures rows { IfOk result (λ rows. (name : List ℕ) (all : List EventValue) → HasTaken self.old all
            → RowsBetween (window_named self.old name) self.old.closed (Some mark) all rows.items) }
        ensures taken { OnOk result ((all : List EventValue) → HasTaken self.old all → HasTaken self.new all) }
        ensures same { OnOk result (self.new ≡ record self.old { closed = Some mark; events = self.new.events }) }
        ensures err { OnErr result (self.new ≡ self.old) }
    {
        let rows = self.rows_until(Some(mark))?;
        let policy = self.policy;
        self.events.retain(|event| is_open(&policy, mark, event));
        self.closed = Some(mark);
        Ok(rows)
    }

    /// Closes all windows that are left, and answers their rows in order. No event is held then.
    pub fn finish(&mut self) -> Result<Vec<Row>, NoMemory>
        ensures rows { IfOk result (λ rows. (name : List ℕ) (all : List EventValue) → HasTaken self.old all
            → RowsBetween (window_named self.old name) self.old.closed None all rows.items) }
        ensures same { OnOk result (self.new ≡ record self.old { events = [] }) }
        ensures err { OnErr result (self.new ≡ self.old) }
    {
        let rows = self.rows_until(None)?;
        self.events = Vec::new(self.alloc);
        Ok(rows)
    }

    // The rows of the windows that end after the last mark, and at most at this one, where there is one.
    fn rows_until(&self, upto: Option<Mark>) -> Result<Vec<Row>, NoMemory>
        ensures { IfOk result (λ rows. (name : List ℕ) (all : List EventValue) → HasTaken self.now all
            → RowsBetween (window_named self.now name) self.now.closed upto all rows.items) }
    {
        let table = self.table_until(&upto)?;
        rows_of(self.alloc, &table)
    }

    // The same rows, by end and key.
    fn table_until(&self, upto: &Option<Mark>) -> Result<BTreeMap<(i64, Key), Row>, NoMemory>
        ensures { IfOk result (λ table. IsTable self.now.vertex (λ e key. total (brings self.now.size self.now.slide self.now.closed upto.now e key) self.now.events) table) }
    {
        let slide = self.policy.slide();
        let mut table = BTreeMap::new(self.alloc);
        for event in self.events.iter() {
            let first = first_end(&self.policy, &self.closed, event.ts);
            let last = last_due(&self.policy, upto, event.ts);
            add_event(&mut table, self.vertex, slide, event, first, last)?;
        }
        Ok(table)
    }
}

// The first end after the mark of a window that holds the time.
fn first_end(policy: &WinPolicy, after: &Option<Mark>, ts: i64) -> i64
    requires { IsWithin most_time ts }
    ensures { IsFirstEnd policy.now.slide after.now ts result }
{
    let Some(mark) = after else {
        return policy.frame_end(ts);
    };
    if mark.t < ts {
        return policy.frame_end(ts);
    }
    policy.frame_end(mark.t)
}

// The last time at which a window may end that holds the time and ends at most at the mark.
fn last_due(policy: &WinPolicy, upto: &Option<Mark>, ts: i64) -> i64
    requires { IsWithin most_time ts }
    ensures { IsLastDue policy.now.size upto.now ts result }
{
    let last = ts + policy.size();
    match upto {
        Some(mark) => last.min(mark.t),
        None => last,
    }
}

// Whether a window that holds the event ends above the mark.
fn is_open(policy: &WinPolicy, mark: Mark, event: &Event) -> bool
    ensures { result ≡ is_open policy.now.size policy.now.slide (Some mark) event.now.ts }
{
    mark.t < policy.floor(event.ts + policy.size())
}
