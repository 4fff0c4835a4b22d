// What a vertex does.
ghost use Rattle.std.specs.Prelude.{◌≡◌, ◌<◌, length};
ghost use Rattle.jet_plan.specs.Kinds.{is_fed, is_side, is_join, is_accumulate, is_combine, is_sink, file_count, kind_word};

use crate::{LegSpec, ModeSpec, Text};
use jet_expr::Expr;
use jet_items::List;

/// What a vertex does.
#[derive(Drop)]
pub enum Kind {
    /// Reads events from files. `lag` is how far an event may stay behind the greatest timestamp, in the unit of the
    /// timestamps.
    Source {
        files: List<Text>,
        lag: i64,
    },
    /// Reads the rows of a side file.
    Side {
        file: Text,
    },
    /// Gives each value that has an expression that expression's value.
    Map {
        set: [Option<Expr>; 4],
    },
    /// Passes the events on whose test is not 0.
    Filter {
        test: Expr,
    },
    /// Makes up to as many events of one as it has legs.
    Flat {
        legs: List<LegSpec>,
    },
    /// Joins each event with the rows of its key. Of the fields 0 to 3 are the event's values and 4 to 7 the row's; a
    /// number above 7 counts modulo 8.
    Join {
        mode: ModeSpec,
        rekey: bool,
        fields: [u8; 4],
    },
    /// Gathers events in frames, for windows of this size and slide, in the unit of the timestamps.
    Accumulate {
        size: i64,
        slide: i64,
    },
    /// Makes the rows of windows from frames.
    Combine,
    /// Writes rows and late events.
    Sink,
}

impl Kind {
    // Whether it is a source with a file.
    pub(crate) fn is_fed(&self) -> bool
        ensures { result ≡ is_fed self.now }
    {
        match self {
            Kind::Source { files, .. } => !files.items().is_empty(),
            _ => false,
        }
    }

    // Whether it reads a side file.
    pub(crate) fn is_side(&self) -> bool
        ensures { result ≡ is_side self.now }
    {
        matches!(self, Kind::Side { .. })
    }

    // Whether it is a join.
    pub(crate) fn is_join(&self) -> bool
        ensures { result ≡ is_join self.now }
    {
        matches!(self, Kind::Join { .. })
    }

    // Whether it gathers frames.
    pub(crate) fn is_accumulate(&self) -> bool
        ensures { result ≡ is_accumulate self.now }
    {
        matches!(self, Kind::Accumulate { .. })
    }

    // Whether it makes rows.
    pub(crate) fn is_combine(&self) -> bool
        ensures { result ≡ is_combine self.now }
    {
        matches!(self, Kind::Combine)
    }

    // Whether it is the sink.
    pub(crate) fn is_sink(&self) -> bool
        ensures { result ≡ is_sink self.now }
    {
        matches!(self, Kind::Sink)
    }

    // How many files it reads.
    pub(crate) fn file_count(&self) -> usize
        ensures { result ≡ file_count self.now }
    {
        match self {
            Kind::Source { files, .. } => files.items().len(),
            Kind::Side { .. } => 1,
            _ => 0,
        }
    }

    // The word for it in a job file.
    pub(crate) fn word(&self) -> &'static str
        ensures { result.now ≡ kind_word self.now }
    {
        match self {
            Kind::Source { .. } => "source",
            Kind::Side { .. } => "side",
            Kind::Map { .. } => "map",
            Kind::Filter { .. } => "filter",
            Kind::Flat { .. } => "flat",
            Kind::Join { .. } => "join",
            Kind::Accumulate { .. } => "accumulate",
            Kind::Combine => "combine",
            Kind::Sink => "sink",
        }
    }
}
