// Why a network refuses a question or a change, and the number of each refusal.
ghost use Rattle.std.specs.Prelude.{◌≡◌};
ghost use Rattle.network.specs.Refusals.{question};

// The questions put to each call, in this order, each where the call has what it names.
#[derive(Clone, Copy, PartialEq, Eq, Debug)]
pub enum NetworkRefusal {
    // there is no node of this number
    NoNode,
    // there is no arc of this code
    NoArc,
    // the amount is above the residual that it would lower
    AboveResidual,
}

impl NetworkRefusal {
    // The number of the question whose answer is no; a rule of the project has a method answer it.
    pub fn question(self) -> u8
        ensures { result ≡ question self }
    {
        // each case has a number of its own, shared with no other enum; no discriminants, since an edit that gives two cases one must build
        match self {
            NetworkRefusal::NoNode => 27,
            NetworkRefusal::NoArc => 28,
            NetworkRefusal::AboveResidual => 29,
        }
    }
}
