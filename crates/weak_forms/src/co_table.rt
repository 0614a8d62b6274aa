//! Tables that are read by their marks.

ghost use Rattle.std.specs.Prelude.{◌≡◌, ◌<◌};
ghost use Rattle.lash_model.specs.Tables.{fracs};

use packed_cells::Cells;
use std::marker::Model;
use step_tables::Table;

/// A table with fraction states that is read by its marks: the fraction states of colour no. It accepts a lasso if marked states are met
/// only finitely often.
#[derive(Drop)]
pub struct CoTable<C: Cells> {
    table: Table<C>,
}

impl<C: Cells> Model for CoTable<C> {
    ghost use Rattle.std.specs.Prelude.{◌<◌};
    ghost use Rattle.lash_model.specs.Tables.{fracs};
    ghost use Rattle.step_tables.specs.Kept.{Kept};

    ghost Value = { Kept };

    ghost view = { λ c. c.table };

    ghost invariant = { λ c. 0 < fracs c.table.table };
}

impl<C: Cells> CoTable<C> {
    /// A table that has fraction states, read by its marks.
    pub fn new(table: Table<C>) -> Self
        requires { 0 < fracs table.table }
        ensures { result ≡ table }
    {
        CoTable { table }
    }

    /// The table, given away.
    pub(crate) fn into_table(self) -> Table<C>
        ensures value { result ≡ self }
        ensures fractions { 0 < fracs result.table }
    {
        self.table
    }
}
