//! The worked cases of the documents, each derived from the definitions.
#![tactic(auto)]

ghost use Rattle.worked.specs.Cases.{WorkedCases};

/// Every worked case follows from the definitions.
pub fn worked_cases_stand()
    ensures { WorkedCases }
{}
