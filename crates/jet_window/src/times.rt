// What a frame vertex knows of time: which events are late, and where frames end.
ghost use Rattle.std.specs.Prelude.{◌≡◌, Some, None};
ghost use Rattle.jet_items.specs.Frames.{frame_end};
ghost use Rattle.jet_items.specs.Ranges.{IsWithin, most_time, most_frame_end};
ghost use Rattle.jet_policy.specs.Policy.{IsPolicy};
ghost use Rattle.jet_window.specs.LateEvents.{comes_late, is_below};
ghost use Rattle.jet_window.specs.Times.{late_floor};

use jet_items::Mark;
use jet_policy::WinPolicy;
use std::marker::Model;

// A policy, and the marks by which an event is late. The slide is divided by once a mark and once for each run of events
// of one frame: `floor` is the time below which events are late, and `recent` the end of the frame that was seen last.
#[derive(Drop)]
pub(crate) struct Times {
    policy: WinPolicy,
    begun: Option<Mark>,
    last: Option<Mark>,
    floor: Option<i64>,
    recent: i64,
}

impl Model for Times {
    ghost use Rattle.jet_window.specs.Times.{TimesValue, KnowsTimes};

    ghost Value = { TimesValue };

    ghost view = { λ t. record { policy = t.policy; begun = t.begun; last = t.last } };

    ghost invariant = { λ t. KnowsTimes t.policy t.begun t.last t.floor t.recent };
}

impl Times {
    pub(crate) fn new(policy: WinPolicy, begun: Option<Mark>) -> Times
        ensures { result ≡ record { policy = policy; begun = begun; last = None } }
    {
        let slide = policy.slide();
        prove!(slide > 0);
        let floor = floor_of(&policy, &begun, &None);
        Times {
            policy,
            begun,
            last: None,
            floor,
            recent: 0,
        }
    }

    // The last mark that was taken.
    pub(crate) fn last(&self) -> Option<Mark>
        ensures { result ≡ self.now.last }
    {
        self.last
    }

    pub(crate) fn take(&mut self, mark: Mark)
        ensures { self.new ≡ record self.old { last = Some mark } }
    {
        self.last = Some(mark);
        self.floor = floor_of(&self.policy, &self.begun, &self.last);
    }

    // Whether an event of this time is late by one of the marks.
    pub(crate) fn is_late(&self, ts: i64) -> bool
        ensures value { result ≡ comes_late self.now.policy.slide self.now.begun self.now.last ts }
        ensures policy { IsPolicy self.now.policy.size self.now.policy.slide }
    {
        is_below(self.floor, ts)
    }

    // The end of the frame that the time falls into.
    pub(crate) fn frame_end(&mut self, ts: i64) -> i64
        requires { IsWithin most_time ts }
        ensures value { result ≡ frame_end self.old.policy.slide ts }
        ensures range { IsWithin most_frame_end result }
        ensures policy { IsPolicy self.old.policy.size self.old.policy.slide }
        ensures same { self.new ≡ self.old }
    {
        if ts < self.recent && self.recent - self.policy.slide() <= ts {
            return self.recent;
        }
        self.recent = self.policy.frame_end(ts);
        self.recent
    }
}

// Whether the time is below a floor that there is.
fn is_below(floor: Option<i64>, ts: i64) -> bool
    ensures { result ≡ is_below floor ts }
{
    floor.is_some_and(|floor| ts < floor)
}

// The time below which events are late.
fn floor_of(policy: &WinPolicy, begun: &Option<Mark>, last: &Option<Mark>) -> Option<i64>
    ensures { result ≡ late_floor policy.now.slide begun.now last.now }
{
    match (begun, last) {
        (None, None) => None,
        (None, Some(mark)) | (Some(mark), None) => Some(policy.floor(mark.t)),
        (Some(begun), Some(last)) => Some(policy.floor(begun.t).max(policy.floor(last.t))),
    }
}
