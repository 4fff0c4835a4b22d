// The command words. Which words are a command is this project's own; all others are answered Usage.
ghost use Rattle.std.specs.Prelude.{◌≡◌, true, Some, IfSome, map, option_map, string_bytes};
ghost use Rattle.jet_plan.specs.Texts.{text_at};
ghost use Rattle.jet_cli.specs.Words.{command_of, is_file_name, window_of};
ghost use Rattle.jet_cli.specs.WordsView.{command_in, window_in, AreSmall, IsSmall};

use crate::digits::number_of;
use crate::job_words::{JobWords, job_words};

/// What stands behind the word `window`: size, slide and lag in the file's unit of time, and the file's name.
#[derive(Clone, Copy, Debug, PartialEq, Eq)]
pub struct WindowWords<'a> {
    pub size: u64,
    pub slide: u64,
    pub lag: u64,
    pub file: &'a [u8],
}

/// The commands.
#[derive(Clone, Copy, Debug, PartialEq, Eq)]
pub enum Command<'a> {
    /// Counts the events of one file in windows.
    Window(WindowWords<'a>),
    /// Runs a job.
    Run(JobWords<'a>),
    /// Prints the plan of a job.
    Plan(JobWords<'a>),
    /// Checks a job and the lines of its files.
    Check(JobWords<'a>),
}

/// The command of these words, where they are one.
pub fn read_words(words: &[String]) -> Option<Command<'_>>
    ensures command { option_map command_in result ≡ command_of (map string_bytes words.now) }
    ensures small { IfSome result IsSmall }
{
    let (command, words) = words.split_first()?;
    match command.as_str() {
        "window" => Some(Command::Window(window_words(words)?)),
        "run" => Some(Command::Run(job_words(words)?)),
        "plan" => Some(Command::Plan(job_words(words)?)),
        "check" => Some(Command::Check(job_words(words)?)),
        _ => None,
    }
}

fn window_words(words: &[String]) -> Option<WindowWords<'_>>
    ensures command { option_map window_in result ≡ window_of (map string_bytes words.now) }
    ensures small { IfSome result AreSmall }
{
    let [size, slide, lag, file] = words else {
        return None;
    };
    let size = number_of(size, 16)?;
    let slide = number_of(slide, 16)?;
    let lag = number_of(lag, 16)?;
    if lag <= 1_000_000_000_000_000 && is_file_name(file) {
        Some(WindowWords {
            size,
            slide,
            lag,
            file: file.as_bytes(),
        })
    } else {
        None
    }
}

fn is_file_name(name: &str) -> bool
    ensures test { result ≡ is_file_name name.now }
    ensures text { result ≡ true → text_at name.now ≡ Some name.now }
{
    let name = name.as_bytes();
    !name.is_empty() && name.len() <= 255 && name[0] != b'-'
}
