// What holds of all rows.
ghost use Rattle.survey.specs.Laws.{OneRow, RowsTellActing};

// An account has one row, and the rows of two accounts tell which of them can come to act as the other.
pub fn laws_stand()
    ensures one { OneRow }
    ensures acting { RowsTellActing }
{}
