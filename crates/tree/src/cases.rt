//! The worked cases.

ghost use Rattle.std.specs.Prelude.{◌≡◌};
ghost use Rattle.tree.specs.Cases.{expected, results, table};

/// Does nothing: its contract is the table of worked cases, computed from the definitions.
pub fn cases_stand()
    ensures { results table ≡ expected }
{}
