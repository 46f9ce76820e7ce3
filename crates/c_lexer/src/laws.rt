//! What holds of the tokens of any text.
ghost use Rattle.std.specs.Prelude.{◌≡◌, ℕ, List, Ok, All};
ghost use Rattle.c_lexer.specs.declared.token.Token.{Token as AToken};
ghost use Rattle.c_lexer.specs.Tokens.{tokens_of, StandsIn};

/// Each token of a text has bytes of the text, and those of a name are a name.
pub fn tokens_stand_in_their_text()
    ensures { (text : List ℕ) (tokens : List AToken) → tokens_of text ≡ Ok tokens → All (StandsIn text) tokens }
{}
