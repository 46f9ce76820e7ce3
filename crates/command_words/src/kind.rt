//! What a word of a command line is.
ghost use Rattle.std.specs.Prelude.{◌≡◌, option_map};
ghost use Rattle.command_words.specs.Words.{is_dashed as begins_with_dash};
ghost use Rattle.command_words.specs.CutWords.{kind_of, kind_said};

/// What a word is.
#[derive(Clone, Copy)]
pub(crate) enum WordKind<'a> {
    /// It doesn't begin with '-'.
    Plain,
    /// `--`
    Rest,
    /// `--name=value`
    Joined(&'a str, &'a str),
    /// `--name`
    Alone(&'a str),
}

/// Whether a word begins with '-'.
pub(crate) fn is_dashed(word: &str) -> bool
    ensures { result ≡ begins_with_dash word.now }
{
    matches!(word.as_bytes(), [b'-', ..])
}

/// What a word is, and none where it begins with one '-'.
pub(crate) fn word_kind(word: &str) -> Option<WordKind<'_>>
    ensures { option_map kind_said result ≡ kind_of word.now }
{
    if !is_dashed(word) {
        return Some(WordKind::Plain);
    }
    let text = word.strip_prefix("--")?;
    if text.is_empty() {
        return Some(WordKind::Rest);
    }
    match text.split_once('=') {
        Some((name, value)) => Some(WordKind::Joined(name, value)),
        None => Some(WordKind::Alone(text)),
    }
}
