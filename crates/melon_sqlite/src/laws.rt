//! Laws of the definitions that the keeper's contracts cite.

ghost use Rattle.std.specs.Prelude.{◌≡◌, Ok};
ghost use Rattle.sqlite.specs.Compile.{table_defined_by};
ghost use Rattle.melon_sqlite.specs.Tables.{kept_rows, kept_values, rows_text, values_text};

/// The two tables are those that the two texts define.
pub fn texts_define_the_tables()
    ensures rows { table_defined_by rows_text ≡ Ok kept_rows }
    ensures values { table_defined_by values_text ≡ Ok kept_values }
{}
