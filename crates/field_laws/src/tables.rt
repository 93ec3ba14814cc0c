//! What is read of objects and of lines is what their tables tell.
ghost use Rattle.std.specs.Prelude.{ℕ, List};
ghost use Rattle.serde_json.specs.Data.{Data};
ghost use Rattle.field_laws.specs.Laws.{ChangedAsTold, StatedAsTold, DeletedAsTold, MembersAsTold};
ghost use Rattle.field_laws.specs.Laws.{FramesAsTold};
ghost use Rattle.field_laws.specs.FieldTypes.{Rows};
ghost use Rattle.field_laws.specs.RowLaws.{RowsAreTold};
ghost use Rattle.field_laws.specs.Lines.{OthersArePassedBy, IsReadByValue, LinesAsTold};

/// Of the rows of any table each has its value, or the first that is at fault is named.
pub fn rows_are_told()
    ensures { (rows : Rows) (d : Data) → RowsAreTold rows d }
{}

/// An object of each kind that is there is read as its table tells, or refused at the first row
/// that it tells to be at fault.
pub fn changed_objects_are_told()
    ensures { ChangedAsTold }
{}

/// So is one that is stated, whatever its version.
pub fn stated_objects_are_told()
    ensures { StatedAsTold }
{}

/// Of one that is gone the rows of its key and its version alone are read.
pub fn deleted_objects_are_told()
    ensures { DeletedAsTold }
{}

/// A line of members is read as its table tells.
pub fn members_are_told()
    ensures { MembersAsTold }
{}

/// A line of a frame is read as its table tells, its interface before its bytes.
pub fn frames_are_told()
    ensures { FramesAsTold }
{}

/// A line with an object of a kind that is read, of members or of a frame is read as the table
/// tells.
pub fn lines_are_told()
    ensures { (line : Data) → LinesAsTold line }
{}

/// Which lines are no events, which are ignored, and which expire a watch, exactly.
pub fn others_are_passed_by()
    ensures { (line : Data) → OthersArePassedBy line }
{}

/// A line is read by the value that its bytes are the text of; it is no JSON exactly where it is
/// the text of none.
pub fn lines_are_read_by_value()
    ensures { (line : List ℕ) → IsReadByValue line }
{}
