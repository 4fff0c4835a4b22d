// The form of a line: plain and quoted fields between commas. It is tested in one pass, and without memory.
ghost use Rattle.std.specs.Prelude.{◌≡◌, is_some};
ghost use Rattle.jet_lines.specs.Scan.{fields_of, stand_after, may_end};

/// Where a reader of a line stands.
#[derive(Clone, Copy, Debug, PartialEq, Eq)]
pub(crate) enum Stand {
    /// At the start of a field.
    Start,
    /// In a plain field.
    Plain,
    /// Between the quotation marks of a field.
    Quoted,
    /// After a quotation mark that ends a field, unless another follows.
    Closed,
}

// Where a reader stands after a byte, if it may come.
fn stand_after(stand: Stand, b: u8) -> Option<Stand>
    ensures { result ≡ stand_after stand b }
{
    match stand {
        Stand::Start => {
            if b == b',' {
                Some(Stand::Start)
            } else if b == b'"' {
                Some(Stand::Quoted)
            } else {
                Some(Stand::Plain)
            }
        }
        Stand::Plain => {
            if b == b',' {
                Some(Stand::Start)
            } else if b == b'"' {
                None
            } else {
                Some(Stand::Plain)
            }
        }
        Stand::Quoted => {
            if b == b'"' {
                Some(Stand::Closed)
            } else {
                Some(Stand::Quoted)
            }
        }
        Stand::Closed => {
            if b == b',' {
                Some(Stand::Start)
            } else if b == b'"' {
                Some(Stand::Quoted)
            } else {
                None
            }
        }
    }
}

// Whether a line may end here.
fn may_end(stand: Stand) -> bool
    ensures { result ≡ may_end stand }
{
    stand != Stand::Quoted
}

/// Whether a line is plain and quoted fields between commas.
pub(crate) fn has_form(line: &[u8]) -> bool
    ensures { result ≡ is_some (fields_of line.now) }
{
    let mut stand = Stand::Start;
    for b in line {
        match stand_after(stand, *b) {
            Some(after) => stand = after,
            None => return false,
        }
    }
    may_end(stand)
}
