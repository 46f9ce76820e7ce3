//! The numbers of a run, whose defaults and ranges `clap` knows.
ghost use Rattle.std.specs.Prelude.{◌≡◌, ◌≢◌, ◌++◌, ℕ, List, [], Some, IfOk, OnOk, IfErr, IfSome, false, codes, map, string_bytes};
ghost use Rattle.std.specs.Option.{option_copied};
ghost use Rattle.clap.specs.Walk.{rows_of, rule_of};
ghost use Rattle.clap.specs.Simple.{app_of, matches_of};
ghost use Rattle.clap.specs.Faults.{fault_of};
ghost use Rattle.clap.specs.Matches.{found_of};
ghost use Rattle.clap.specs.Values.{kind_of};
ghost use Rattle.command_words.specs.declared.fault.WordsFault.TheVariants.{Words};
ghost use Rattle.closing_options.specs.declared.RunOptions.{RunOptions as Numbers};
ghost use Rattle.command_words.specs.Command.{IsNumber, GiveNumbers};
ghost use Rattle.command_words.specs.ClapNumbers.{asked, number_rule, numbers_app, option_words, HasTexts, IsDigits};

use crate::fault::WordsFault;
use clap::builder::ValueParser;
use clap::error::ErrorKind;
use clap::{Arg, ArgMatches, Command, Error};
use closing_options::RunOptions;
use std::alloc::{AllocError, Global};

/// The greatest number of an option other than `--workers`.
const MOST: u64 = 4_294_967_295;

/// An option whose value is a number from 1 to most.
fn number_arg<'a>(alloc: Global, name: &'a str, default: &'a str, most: u64) -> Arg<'a>
    ensures rule { rule_of result ≡ number_rule name.entry.now default.entry.now most }
    ensures local { result.global ≡ false }
{
    Arg::new(alloc, name)
        .long(name)
        .value_parser(ValueParser::Unsigned(1, most))
        .default_value(default)
}

/// The command with the three options.
fn numbers_command<'a>(alloc: Global) -> Result<Command<'a>, AllocError>
    ensures { IfOk result (λ c. app_of c ≡ numbers_app) }
{
    let workers = number_arg(alloc, "workers", "4", 64);
    let part_edges = number_arg(alloc, "part-edges", "1000000", MOST);
    let budget = number_arg(alloc, "budget", "16000000", MOST);
    Command::new(alloc, "run")
        .arg(workers)?
        .arg(part_edges)?
        .arg(budget)
}

/// Adds `--name=value`, where the option is given.
fn push_option(
    alloc: Global,
    words: &mut Vec<String>,
    name: &str,
    value: Option<&str>,
) -> Result<(), AllocError>
    ensures { OnOk result (map string_bytes words.new.items ≡ map string_bytes words.old.items ++ option_words name.now (option_copied value.entry)) }
{
    let Some(value) = value else {
        return Ok(());
    };
    let mut word = String::from_str(alloc, "--")?;
    word.push_str(name)?;
    word.push_str("=")?;
    word.push_str(value)?;
    words.push(word)?;
    Ok(())
}

/// The words that clap gets, which begin with the command's name.
fn asked_words(
    alloc: Global,
    workers: Option<&str>,
    part_edges: Option<&str>,
    budget: Option<&str>,
) -> Result<Vec<String>, AllocError>
    ensures { IfOk result (λ words. map string_bytes words.items
        ≡ asked (option_copied workers.entry) (option_copied part_edges.entry) (option_copied budget.entry)) }
{
    let mut words = Vec::new(alloc);
    words.push(String::from_str(alloc, "run")?)?;
    push_option(alloc, &mut words, "workers", workers)?;
    push_option(alloc, &mut words, "part-edges", part_edges)?;
    push_option(alloc, &mut words, "budget", budget)?;
    Ok(words)
}

/// Why clap gave no matches.
fn fault_for(error: &Error) -> WordsFault
    ensures { result ≡ Words → kind_of error.now ≢ ErrorKind.OutOfMemory }
{
    if error.kind() == ErrorKind::OutOfMemory {
        WordsFault::NoMemory
    } else {
        WordsFault::Words
    }
}

/// What clap finds in words that it is asked. None of its texts is printed.
fn ask<'a>(alloc: Global, words: &'a [String]) -> Result<ArgMatches<'a>, WordsFault>
    ensures rows { IfOk result (λ m. rows_of (found_of m) ≡ matches_of numbers_app (map string_bytes words.entry.now)) }
    ensures none { IfOk result (λ _. fault_of numbers_app (map string_bytes words.entry.now) ≡ []) }
    ensures words { IfErr result (λ e. e ≡ Words → fault_of numbers_app (map string_bytes words.entry.now) ≢ []) }
{
    let command = numbers_command(alloc)?;
    match command.try_get_matches_from(words) {
        Ok(matches) => Ok(matches),
        Err(error) => Err(fault_for(&error)),
    }
}

/// The numbers that clap found.
fn numbers_in(matches: &ArgMatches<'_>) -> Option<RunOptions>
    ensures { (workers part_edges budget : List ℕ) (n : Numbers) → HasTexts (found_of matches.now) workers part_edges budget
        → IsNumber 1 64 workers n.workers → IsNumber 1 4294967295 part_edges n.part_edges → IsNumber 1 4294967295 budget n.budget
        → result ≡ Some n }
{
    let workers = matches.get_one::<u32>("workers")?;
    let part_edges = matches.get_one::<u64>("part-edges")?;
    let budget = matches.get_one::<u64>("budget")?;
    Some(RunOptions {
        workers,
        part_edges,
        budget,
    })
}

/// The numbers that these values give, each of digits alone, or their defaults.
pub(crate) fn ask_numbers(
    alloc: Global,
    workers: Option<&str>,
    part_edges: Option<&str>,
    budget: Option<&str>,
) -> Result<RunOptions, WordsFault>
    requires workers { IfSome (option_copied workers) IsDigits }
    requires part_edges { IfSome (option_copied part_edges) IsDigits }
    requires budget { IfSome (option_copied budget) IsDigits }
    ensures numbers { IfOk result (GiveNumbers (option_copied workers.entry) (option_copied part_edges.entry) (option_copied budget.entry)) }
    ensures words { IfErr result (λ e. e ≡ Words → (n : Numbers)
        → GiveNumbers (option_copied workers.entry) (option_copied part_edges.entry) (option_copied budget.entry) n
        → ⊥) }
{
    let words = asked_words(alloc, workers, part_edges, budget)?;
    let matches = ask(alloc, words.as_slice())?;
    numbers_in(&matches).ok_or(WordsFault::Words)
}
