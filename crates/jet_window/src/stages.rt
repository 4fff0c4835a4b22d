// What a job may rest on that splits a window into frame and combine instances: each law is the contract of a function
// that does nothing.
ghost use Rattle.jet_window.specs.StageLaws.{FramesSumKept, InstancesSumKept, InstancesGiveRows, OneRowEach, OrderedAreRows, WholeWindows, FewRows, FewFrames};

/// Once a frame vertex has taken the finish, the frames that it gave sum the events that it kept.
pub fn frames_sum_kept()
    ensures { FramesSumKept }
{}

/// The frames of several instances together sum the events that they kept together.
pub fn instances_sum_kept()
    ensures { InstancesSumKept }
{}

/// Several combine instances, to which frames are dealt by key, together give the rows over the events of the frames and
/// over the frames that they began with, of all ends above the mark that they began with, also where they stand at
/// different marks.
pub fn instances_give_rows()
    ensures { InstancesGiveRows }
{}

/// These are at each end and key the one row of the window's events of the key, and none where there are none.
pub fn one_row_each()
    ensures { OneRowEach }
{}

/// The rows of several windows, together and in order, are the rows of these windows.
pub fn ordered_are_rows()
    ensures { OrderedAreRows }
{}

/// A window is as many slides long as an event is in windows.
pub fn whole_windows()
    ensures { WholeWindows }
{}

/// There are at most as many rows for each frame as it is in windows.
pub fn few_rows()
    ensures { FewRows }
{}

/// A frame vertex gives at most one frame or late item for each event.
pub fn few_frames()
    ensures { FewFrames }
{}
