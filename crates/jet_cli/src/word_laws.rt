// A law of which words are a command.
ghost use Rattle.std.specs.Prelude.{◌≡◌, ◌↔◌, ℕ, List, Some};
ghost use Rattle.jet_cli.specs.JobWords.{JobCommand};
ghost use Rattle.jet_cli.specs.Spelling.{IsSpelled};
ghost use Rattle.jet_cli.specs.Words.{job_of};

/// The words behind `run`, `plan` and `check` are a command exactly where they spell one: its operand and its options in any
/// order, each option in either form, and behind a word `--` operands alone.
pub fn words_spell_commands()
    ensures { (words : List (List ℕ)) (c : JobCommand) → (job_of words ≡ Some c) ↔ IsSpelled words c }
{}
