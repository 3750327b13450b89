// The theory of the cheapest cut: each contract here is a theorem about every network's value, and no body does anything.
ghost use Rattle.network.specs.Theorems.{TakeKeeps, ShiftKeeps, PathLowers, PathsLower, FewPaths, FewWords, ClosedFree, CheapestClosed, ReachedSides, Extremes, ConstantApart, Finished, PathLeft, MaxFlowMinCut, OneMark, MarkedCheapest, OneReading};

fn changes_keep_the_laws()
    ensures take { TakeKeeps }
    ensures shift { ShiftKeeps }
{}

fn paths_lower_every_cost()
    ensures one { PathLowers }
    ensures many { PathsLower }
    ensures few { FewPaths }
    ensures words { FewWords }
    ensures reading { OneReading }
{}

fn closed_selections_are_cheapest()
    ensures free { ClosedFree }
    ensures cheapest { CheapestClosed }
    ensures reached { ReachedSides }
    ensures extremes { Extremes }
{}

fn a_constant_changes_no_mark()
    ensures { ConstantApart }
{}

fn paths_gain_what_a_cut_costs()
    ensures finished { Finished }
    ensures left { PathLeft }
    ensures most { MaxFlowMinCut }
    ensures mark { OneMark }
{}

fn marks_tell_cheapest_selections()
    ensures { MarkedCheapest }
{}
