// The ends of the windows that a combine vertex gives.
ghost use Rattle.std.specs.Prelude.{◌≡◌};
ghost use Rattle.jet_items.specs.Ranges.{IsWithin, most_frame_end};
ghost use Rattle.jet_window.specs.inner.NextEnds.{IsEndAbove};

use jet_items::Mark;
use jet_policy::WinPolicy;

// The least end of a window that is at least `end` and above what passed.
pub(crate) fn end_above(policy: &WinPolicy, passed: Option<Mark>, end: i64) -> i64
    requires { IsWithin most_frame_end end }
    ensures { IsEndAbove policy.now.slide passed end result }
{
    let Some(mark) = passed else {
        return policy.frame_end(end - 1);
    };
    if mark.t < end {
        return policy.frame_end(end - 1);
    }
    policy.frame_end(mark.t)
}
