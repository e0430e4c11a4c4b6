ghost use Rattle.fields.specs.Painting.{PaintedHolds};
ghost use Rattle.fields.specs.Steps.{StepUp, ValueBelowCeiling, RowValuesFit};
ghost use Rattle.fields.specs.Passes.{PassGoes};
ghost use Rattle.fields.specs.Orders.{RowsKeepRight, RowsFinish};
ghost use Rattle.fields.specs.Least.{LeastIsLeast, ValueIsLeast};
ghost use Rattle.fields.specs.Agreement.{PointIsNearest, RecordsAgree, FinishedFieldsAgree, MarkReachesAll};

/// Painted records are right, at level 0.
pub fn painted_holds()
    ensures { PaintedHolds }
{}

/// A worked row whose cells stood at the level below its axis brings them to the next level, and every record stays right.
pub fn step_up()
    ensures { StepUp }
{}

/// Row after row, a pass over an axis brings all cells to the next level.
pub fn pass_goes()
    ensures { PassGoes }
{}

/// A right record's value is at most the ceiling of its level.
pub fn value_below_ceiling()
    ensures { ValueBelowCeiling }
{}

/// In a right field no value of a row is above what a point can carry to the row's axis.
pub fn row_values_fit()
    ensures { RowValuesFit }
{}

/// Rows worked in whatever order, each from the level below its axis, leave every record right.
pub fn rows_keep_right()
    ensures { RowsKeepRight }
{}

/// From painted cells, whatever the order of the rows, the field is finished where all cells have come to level 3.
pub fn rows_finish()
    ensures { RowsFinish }
{}

/// A right record's point is a nearest marked cell of its slab, at the record's value.
pub fn point_is_nearest()
    ensures { PointIsNearest }
{}

/// The least distance of a cell is that of a marked cell, no marked cell is nearer, and it is none only where no cell is marked.
pub fn least_is_least()
    ensures { LeastIsLeast }
{}

/// At level 3 a right record's value is the least distance to a marked cell, and it has a point exactly where there is a mark.
pub fn value_is_least()
    ensures { ValueIsLeast }
{}

/// Two right records of a cell at the same level have the same value, and both have a point or neither has.
pub fn records_agree()
    ensures { RecordsAgree }
{}

/// Two finished fields of the same rule, sizes and marks have the same value at every cell, however their rows were worked.
pub fn fields_agree()
    ensures { FinishedFieldsAgree }
{}

/// Where one cell is marked, every cell of a finished field has a point.
pub fn mark_reaches_all()
    ensures { MarkReachesAll }
{}
