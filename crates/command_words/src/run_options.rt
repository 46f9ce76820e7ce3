//! The options of a run.
ghost use Rattle.std.specs.Prelude.{◌≡◌, ◌≢◌, ◌↔◌, IsTrue, All, AllPairs, Contains, map, option_map};
ghost use Rattle.command_words.specs.Command.{AreOptions, run_options, value_of};
ghost use Rattle.command_words.specs.CutWords.{given_said};

use crate::cut_words::Given;

/// The names of a run's options.
const RUN_OPTIONS: [&str; 4] = ["workers", "part-edges", "budget", "show"];

/// Whether a name is one of an option of a run.
fn is_run_option(name: &str) -> bool
    ensures { IsTrue result ↔ Contains run_options name.now }
{
    RUN_OPTIONS.iter().any(|known| *known == name)
}

/// Whether no option has this name.
fn is_new(name: &str, options: &[Given<'_>]) -> bool
    ensures { IsTrue result ↔ All (λ o. name.now ≢ o.name.now) options.now }
{
    options.iter().all(|option| option.name != name)
}

/// Whether no option is given twice.
fn is_once(options: &[Given<'_>]) -> bool
    ensures { IsTrue result ↔ AllPairs (λ o p. o.name.now ≢ p.name.now) options.now }
{
    for i in 0..options.len() {
        if !is_new(options[i].name, &options[i + 1..]) {
            return false;
        }
    }
    true
}

/// Whether each option is one of a run.
fn are_known(options: &[Given<'_>]) -> bool
    ensures { IsTrue result ↔ All (λ o. Contains run_options o.name.now) options.now }
{
    for option in options {
        if !is_run_option(option.name) {
            return false;
        }
    }
    true
}

/// Whether these are options of a run, each given once.
pub(crate) fn are_run_options(options: &[Given<'_>]) -> bool
    ensures { IsTrue result ↔ AreOptions run_options (map given_said options.now) }
{
    are_known(options) && is_once(options)
}

/// The value of the option with this name, where it is given.
pub(crate) fn find_option<'a>(name: &str, options: &[Given<'a>]) -> Option<&'a str>
    ensures { option_map (λ v. v.now) result ≡ value_of name.now (map given_said options.now) }
{
    for option in options {
        if option.name == name {
            return Some(option.value);
        }
    }
    None
}
