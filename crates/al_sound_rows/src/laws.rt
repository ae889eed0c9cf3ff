// A law on the rows of functions.

ghost use Rattle.al_sound_rows.specs.Rows.{RowsAreUnits};

/// Each row of the functions of a text was typed from the body of a definition or from a branch of a par in another row's statement, and the numbers by
/// which functions and branches are named are those of these rows.
pub fn rows_are_units()
    ensures { RowsAreUnits }
{}
