// Words in parts: operands, and options with their values. A word that begins with `-` and is not `-` alone is an
// option, until a word `--`; an option's value stands behind its `=`, or else is the next word.
ghost use Rattle.std.specs.Prelude.{◌≡◌, ◌==◌, ◌∷◌, ◌<◌, [], IfSome, MatchOption, map, length, position, string_bytes};
ghost use Rattle.jet_cli.specs.JobWords.{alone, has_equals, is_end_of_options, is_option_word, marked_parts, parts_of, takes};
ghost use Rattle.jet_cli.specs.inner.PartsView.{part_in, parts_left};

/// What words say.
#[derive(Clone, Copy)]
pub(crate) enum Part<'a> {
    Operand(&'a str),
    /// An option, and its value.
    Given(&'a str, &'a str),
    /// An option without a value.
    Lone(&'a str),
}

/// The words that are left.
#[derive(Drop)]
pub(crate) struct Parts<'a> {
    // Those before `--`.
    marked: &'a [String],
    // Those behind it.
    operands: &'a [String],
}

impl<'a> Parts<'a> {
    pub(crate) fn new(words: &'a [String]) -> Parts<'a>
        ensures { parts_left result ≡ parts_of (map string_bytes words.now) }
    {
        match end_of_options(words) {
            Some(at) => Parts {
                marked: &words[..at],
                operands: &words[at + 1..],
            },
            None => Parts {
                marked: words,
                operands: &[],
            },
        }
    }

    /// The first part that is left.
    pub(crate) fn next(&mut self) -> Option<Part<'a>>
        ensures { MatchOption result (parts_left self.old ≡ []) (λ part. parts_left self.old ≡ part_in part ∷ parts_left self.new) }
    {
        if let Some((word, rest)) = self.marked.split_first() {
            let (part, rest) = first_part(word, rest);
            self.marked = rest;
            return Some(part);
        }
        let (word, rest) = self.operands.split_first()?;
        self.operands = rest;
        Some(Part::Operand(word))
    }
}

// Where the first `--` stands.
fn end_of_options(words: &[String]) -> Option<usize>
    ensures place { result ≡ position (λ word. is_end_of_options (string_bytes word)) words.now }
    ensures bound { IfSome result (λ at. at < length words.now) }
{
    words.iter().position(|word| is_end_of_options(word))
}

fn is_end_of_options(word: &str) -> bool
    ensures { result ≡ is_end_of_options word.now }
{
    word == "--"
}

// What the first word says, with the next one where that is its value, and the words behind.
fn first_part<'a>(word: &'a str, rest: &'a [String]) -> (Part<'a>, &'a [String])
    ensures { marked_parts (word.now ∷ map string_bytes rest.now) ≡ part_in result.0 ∷ marked_parts (map string_bytes result.1.now) }
{
    let Some((next, behind)) = rest.split_first() else {
        return (alone(word), rest);
    };
    if takes(word, next) {
        (Part::Given(word, next), behind)
    } else {
        (alone(word), rest)
    }
}

fn alone(word: &str) -> Part<'_>
    ensures { part_in result ≡ alone word.now }
{
    if !is_option_word(word.as_bytes()) {
        return Part::Operand(word);
    }
    match word.split_once('=') {
        Some((name, value)) => Part::Given(name, value),
        None => Part::Lone(word),
    }
}

fn takes(word: &str, next: &str) -> bool
    ensures { result ≡ takes word.now next.now }
{
    is_option_word(word.as_bytes())
        && !has_equals(word.as_bytes())
        && !is_option_word(next.as_bytes())
}

fn is_option_word(word: &[u8]) -> bool
    ensures { result ≡ is_option_word word.now }
{
    word.len() >= 2 && word[0] == b'-'
}

fn has_equals(word: &[u8]) -> bool
    ensures { result ≡ has_equals word.now }
{
    equals_in(word).is_some()
}

fn equals_in(word: &[u8]) -> Option<usize>
    ensures { result ≡ position (λ b. b == 61) word.now }
{
    word.iter().position(|b| *b == b'=')
}
