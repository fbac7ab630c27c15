//! Laws of the definitions. There is no code. Each law is the contract of a function.
ghost use Rattle.std.specs.Prelude.{◌≡◌};
ghost use Rattle.tg_rows.specs.declared.rows.TheConstants.{SHORT};

/// From how many cells on a row is long, as a number. A row of more than four cells has an index.
pub fn short_rows_have_four_cells()
    ensures { SHORT ≡ 4 }
{}
