// Why a run stops.
use jet_lines::LineFault;

/// A call on the outside.
#[derive(Clone, Copy, Debug, PartialEq, Eq)]
pub enum Call {
    Open,
    Read,
    Write,
}

/// What a call on the outside was for.
#[derive(Clone, Copy, Debug, PartialEq, Eq)]
pub enum Spot {
    /// The job file.
    Job,
    /// The data file of this number.
    Part(u16),
    /// The output of rows.
    Rows,
    /// The output of late lines.
    Notes,
}

/// Why a run stopped before its end.
#[derive(Clone, Copy, Debug, PartialEq, Eq)]
pub enum Stop {
    /// This is the first bad line of its file, by its number from 1 on.
    BadLine {
        part: u16,
        line: u32,
        why: LineFault,
    },
    /// This call on the outside failed.
    Outside {
        call: Call,
        file: Spot,
    },
    /// No memory was found.
    NoMemory,
}
