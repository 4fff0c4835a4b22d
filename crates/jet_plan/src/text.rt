// Names of files.
ghost use Rattle.std.specs.Prelude.{◌≡◌, IfOk, option_map, IfSome};
ghost use Rattle.jet_plan.specs.Texts.{text_at, IsText};

use jet_items::NoMemory;
use std::alloc::Global;
use std::marker::Model;

/// A text of 1 to 255 bytes of UTF-8, as the name of a file is. Contracts see the list of its bytes.
#[derive(Drop)]
pub struct Text {
    text: String,
}

impl Model for Text {
    ghost use Rattle.std.specs.Prelude.{List, ℕ, string_bytes};
    ghost use Rattle.jet_plan.specs.Texts.{IsText};

    ghost Value = { List ℕ };

    ghost view = { λ t. string_bytes t.text };

    ghost invariant = { λ t. IsText (string_bytes t.text) };
}

impl Text {
    /// The text of these bytes, or none where they are none, too many, or no UTF-8.
    pub fn read(alloc: Global, bytes: &[u8]) -> Result<Option<Text>, NoMemory>
        ensures { IfOk result (λ text. text ≡ text_at bytes.now) }
    {
        match as_text(bytes) {
            Some(text) => Ok(Some(Text {
                text: String::from_str(alloc, text)?,
            })),
            None => Ok(None),
        }
    }

    /// The bytes.
    pub fn bytes(&self) -> &[u8]
        ensures bytes { result.now ≡ self.now }
        ensures text { IsText self.now }
    {
        self.text.as_bytes()
    }
}

// The bytes as text, where they are one.
#[tactic(auto, using(crate::proofs::TextLemmas::utf8_test, crate::proofs::TextLemmas::no_utf8_test))]
fn as_text(bytes: &[u8]) -> Option<&str>
    ensures value { option_map (λ s. s.now) result ≡ text_at bytes.now }
    ensures text { IfSome result (λ s. IsText s.now) }
{
    if bytes.is_empty() || bytes.len() > 255 {
        return None;
    }
    std::str::from_utf8(bytes).ok()
}
