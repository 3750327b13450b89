// The small cases: each book or tile with its cheapest cost and its marks, some with what every run does, as theorems about the
// definitions.
#![tactic(auto)]

ghost use Rattle.std.specs.List.{AllByRecursion};
ghost use Rattle.smallcases.specs.Cases.{Holds, table};

// Every row of the table holds. The contract is the theorem, and the body does nothing.
fn small_cases()
    ensures { AllByRecursion Holds table }
{}
