//! The numbers of a run's options.
ghost use Rattle.std.specs.Prelude.{◌≡◌, ◌↔◌, IsTrue, IfOk, IfErr, IfSome, map};
ghost use Rattle.std.specs.Option.{option_copied};
ghost use Rattle.command_words.specs.declared.fault.WordsFault.TheVariants.{Words};
ghost use Rattle.closing_options.specs.declared.RunOptions.{RunOptions as Numbers};
ghost use Rattle.command_words.specs.ClapNumbers.{IsDigits};
ghost use Rattle.command_words.specs.Command.{AreNumbers};
ghost use Rattle.command_words.specs.CutWords.{given_said};

use crate::clap_numbers::ask_numbers;
use crate::cut_words::Given;
use crate::fault::WordsFault;
use crate::run_options::find_option;
use closing_options::RunOptions;
use std::alloc::Global;

/// Whether a word is one digit or more.
fn is_digits(word: &str) -> bool
    ensures { IsTrue result ↔ IsDigits word.now }
{
    !word.is_empty() && word.as_bytes().iter().all(|b| b'0' <= *b && *b <= b'9')
}

/// Whether a value is of digits alone, where there is one.
fn is_number(value: Option<&str>) -> bool
    ensures { IsTrue result ↔ IfSome (option_copied value.entry) IsDigits }
{
    match value {
        None => true,
        Some(word) => is_digits(word),
    }
}

/// The numbers that the options of a run give.
pub(crate) fn read_numbers(alloc: Global, options: &[Given<'_>]) -> Result<RunOptions, WordsFault>
    ensures numbers { IfOk result (AreNumbers (map given_said options.now)) }
    ensures words { IfErr result (λ e. e ≡ Words → (numbers : Numbers) → AreNumbers (map given_said options.now) numbers → ⊥) }
{
    let workers = find_option("workers", options);
    let part_edges = find_option("part-edges", options);
    let budget = find_option("budget", options);
    if !is_number(workers) || !is_number(part_edges) || !is_number(budget) {
        return Err(WordsFault::Words);
    }
    ask_numbers(alloc, workers, part_edges, budget)
}
