// Numbers as words: digits alone, leading zeros among them.
ghost use Rattle.std.specs.Prelude.{◌≡◌, ◌≤◌, ◌<◌, ◌^◌, IfSome};
ghost use Rattle.std.specs.List.{list_all};
ghost use Rattle.std.specs.Char.{is_ascii_digit};
ghost use Rattle.jet_cli.specs.Digits.{digits_word, is_digits};

/// The number of one digit to `most`.
pub(crate) fn number_of(word: &str, most: usize) -> Option<u64>
    requires { most ≤ 16 }
    ensures number { result ≡ digits_word most word.now }
    ensures small { IfSome result (λ n. n < 10 ^ 16) }
{
    if is_digits(word.as_bytes(), most) {
        word.parse().ok()
    } else {
        None
    }
}

fn is_digits(word: &[u8], most: usize) -> bool
    ensures { result ≡ is_digits most word.now }
{
    !word.is_empty() && word.len() <= most && has_digits_alone(word)
}

fn has_digits_alone(word: &[u8]) -> bool
    ensures { result ≡ list_all is_ascii_digit word.now }
{
    word.iter().all(|b| b.is_ascii_digit())
}
