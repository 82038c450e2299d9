//! Worked comparisons of sheets, each with its outcome.
#![tactic(auto)]

ghost use Rattle.worked.specs.Comparisons.{ComparisonsStand};

// A theorem: in each comparison of the table the old and the new sheet are alike, or are separated first at the round that the table
// names. There is nothing to run.
pub fn comparisons_stand()
    ensures { ComparisonsStand }
{}
