//! How much of a file is needed to read a manifest.
ghost use Rattle.std.specs.Prelude.{ℕ, List};
ghost use Rattle.manifest_codec.specs.Prefix.{Settles};

/// What bytes say is settled, a manifest or the first field that breaks its rule, once they don't
/// end within a field: bytes behind them change nothing.
///
/// So a reader of a long file may stop there.
pub fn more_bytes_change_nothing()
    ensures { (bytes behind : List ℕ) → Settles bytes behind }
{}
