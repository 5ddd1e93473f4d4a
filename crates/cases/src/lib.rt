// Worked facts about the laboratory and books that differ from it in a call or two, in one table.
#![tactic(auto)]

ghost use Rattle.cases.specs.Cases.{EachCase};

// Each claim of the table holds of its book.
pub fn cases_stand()
    ensures { EachCase }
{}
