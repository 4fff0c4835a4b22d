// The tokens of a text: the longest counts, and blanks stand between.
ghost use Rattle.std.specs.Prelude.{◌≡◌, ◌<◌, ◌+◌, min, length, take_while, true};
ghost use Rattle.std.specs.List.{list_all, prefix_len};
ghost use Rattle.std.specs.Char.{is_ascii_digit, is_ascii_alphanumeric};
ghost use Rattle.std.specs.Str.Parse.{digits_value};
ghost use Rattle.jet_items.specs.Ranges.{most_time};
ghost use Rattle.jet_expr.specs.Tokens.{token_of, sign_of, sign_token, word_token};

use crate::field::Field;
use crate::operator::Operator;

/// A token of the text of an expression.
#[derive(Clone, Copy)]
pub enum Token {
    /// A number. One above 10^15 stands as 10^15 + 1.
    Number(u64),
    /// A word that reads a field.
    Read(Field),
    /// The sign or the word of an operator on two values: `+` to `>=`, `and`, `or`, `min` and `max`.
    Sign(Operator),
    Not,
    Absolute,
    If,
    Open,
    Close,
    Comma,
    /// A word outside those of the grammar.
    Unknown,
    /// A byte that begins no token.
    Stray,
    /// The end of the text.
    End,
}

/// The token that begins a text, and how many bytes it has.
pub fn token_of(text: &[u8]) -> (Token, usize)
    requires { 0 < length text.now }
    ensures { result ≡ token_of text.now }
{
    let first = text[0];
    if first.is_ascii_digit() {
        let digits = digits_of(text);
        (Token::Number(value_of(digits)), digits.len())
    } else if first.is_ascii_alphabetic() {
        let word = word_of(text);
        (word_token(word), word.len())
    } else {
        sign_of(first, text.get(1).copied().unwrap_or(0))
    }
}

// The digits with which a text begins.
fn digits_of(text: &[u8]) -> &[u8]
    ensures { result.now ≡ take_while is_ascii_digit text.now }
{
    &text[..count_digits(text)]
}

fn count_digits(text: &[u8]) -> usize
    ensures { result ≡ prefix_len is_ascii_digit text.now }
{
    text.iter().take_while(|b| b.is_ascii_digit()).count()
}

// The letters and digits with which a text begins.
fn word_of(text: &[u8]) -> &[u8]
    ensures { result.now ≡ take_while is_ascii_alphanumeric text.now }
{
    &text[..count_letters(text)]
}

fn count_letters(text: &[u8]) -> usize
    ensures { result ≡ prefix_len is_ascii_alphanumeric text.now }
{
    text.iter()
        .take_while(|b| b.is_ascii_alphanumeric())
        .count()
}

// The value of digits, or 10^15 + 1 where it is greater.
fn value_of(digits: &[u8]) -> u64
    requires { list_all is_ascii_digit digits.now ≡ true }
    ensures { result ≡ min (most_time + 1) (digits_value 10 digits.now) }
{
    let mut value = 0;
    for b in digits {
        value = (value * 10 + (*b - b'0') as u64).min(1_000_000_000_000_001);
    }
    value
}

// The token of a word.
fn word_token(word: &[u8]) -> Token
    ensures { result ≡ word_token word.now }
{
    match word {
        b"ts" => Token::Read(Field::Ts),
        b"part" => Token::Read(Field::Part),
        b"v0" => Token::Read(Field::V0),
        b"v1" => Token::Read(Field::V1),
        b"v2" => Token::Read(Field::V2),
        b"v3" => Token::Read(Field::V3),
        b"or" => Token::Sign(Operator::Or),
        b"and" => Token::Sign(Operator::And),
        b"not" => Token::Not,
        b"min" => Token::Sign(Operator::Least),
        b"max" => Token::Sign(Operator::Greatest),
        b"abs" => Token::Absolute,
        b"if" => Token::If,
        _ => Token::Unknown,
    }
}

// The sign that begins with this byte, where `next` is the byte behind it, and how many bytes it has.
fn sign_of(first: u8, next: u8) -> (Token, usize)
    ensures { result ≡ sign_of first next }
{
    match (first, next) {
        (b'!', b'=') => (Token::Sign(Operator::Unequal), 2),
        (b'<', b'=') => (Token::Sign(Operator::AtMost), 2),
        (b'>', b'=') => (Token::Sign(Operator::AtLeast), 2),
        _ => (sign_token(first), 1),
    }
}

// The sign of one byte.
fn sign_token(byte: u8) -> Token
    ensures { result ≡ sign_token byte }
{
    match byte {
        b'+' => Token::Sign(Operator::Add),
        b'-' => Token::Sign(Operator::Subtract),
        b'*' => Token::Sign(Operator::Multiply),
        b'/' => Token::Sign(Operator::Divide),
        b'%' => Token::Sign(Operator::Remainder),
        b'(' => Token::Open,
        b')' => Token::Close,
        b',' => Token::Comma,
        b'=' => Token::Sign(Operator::Equal),
        b'<' => Token::Sign(Operator::Less),
        b'>' => Token::Sign(Operator::Greater),
        _ => Token::Stray,
    }
}
