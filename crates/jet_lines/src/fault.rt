// Why a line is bad. Each fault has a number, by which programs tell it, and the data say where in the line it stands.
ghost use Rattle.std.specs.Prelude.{◌≡◌};
ghost use Rattle.jet_lines.specs.Faults.{fault_number};

use jet_items::KeyFault;
use thiserror::Error;

/// Why a line of a source or side file is bad.
#[derive(Clone, Copy, Debug, PartialEq, Eq, Error)]
pub enum LineFault {
    /// 1: the line, without its line feed and one carriage return, has more than 512 bytes.
    #[error("the line has more than 512 bytes")]
    TooLong,
    /// 2: the first byte outside 32 to 126, by its place in the line from 0 on.
    #[error("byte {0} of the line is no printable ASCII character")]
    BadByte(u32),
    /// 3: the line is no list of plain and quoted fields between commas.
    #[error("a quotation mark stands where none may")]
    Quote,
    /// 4: there are fewer or more fields than the kind of line has.
    #[error("the number of fields is wrong")]
    Fields,
    /// 5: a field is no number. The place is 0 for the timestamp and 1 to 4 for the values.
    #[error("number {0} of the line is no whole number from -10^15 to 10^15")]
    Number(u8),
    /// 6: a key, or the label of a side line, is none of at most 24 bytes; its places are those of the field without
    /// its quotation marks.
    #[error("the key is bad: {0}")]
    Key(KeyFault),
    /// 7: the file has more lines than are allowed.
    #[error("the file has too many lines")]
    TooMany,
    /// 8: the key has all the rows that a key of a side file may have.
    #[error("the key has too many rows")]
    KeyFull,
}

impl LineFault {
    /// The number of the fault, 1 for `TooLong` to 8 for `KeyFull`.
    pub fn number(&self) -> u8
        ensures { result ≡ fault_number self.now }
    {
        match self {
            LineFault::TooLong => 1,
            LineFault::BadByte(_) => 2,
            LineFault::Quote => 3,
            LineFault::Fields => 4,
            LineFault::Number(_) => 5,
            LineFault::Key(_) => 6,
            LineFault::TooMany => 7,
            LineFault::KeyFull => 8,
        }
    }
}
