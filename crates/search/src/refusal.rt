// Why a run is refused, and the number of each refusal.
ghost use Rattle.std.specs.Prelude.{◌≡◌};
ghost use Rattle.std.specs.Result.{result_err};
ghost use Rattle.search.specs.Refusals.{question, first_refusal};

// The questions put to a run, in this order.
#[derive(Clone, Copy, PartialEq, Eq, Debug)]
pub enum RunRefusal {
    // fewer working records than nodes
    FewRecords,
    // fewer mark bytes than nodes
    FewMarks,
}

impl RunRefusal {
    // Puts the questions where there are so many nodes, working records and mark bytes: the first whose answer is no refuses.
    pub(crate) fn check(nodes: usize, records: usize, marks: usize) -> Result<(), RunRefusal>
        ensures { result_err result ≡ first_refusal nodes records marks }
    {
        if records < nodes {
            return Err(RunRefusal::FewRecords);
        }
        if marks < nodes {
            return Err(RunRefusal::FewMarks);
        }
        Ok(())
    }

    // The number of the question whose answer is no; a rule of the project has a method answer it.
    pub fn question(self) -> u8
        ensures { result ≡ question self }
    {
        // each case has a number of its own, shared with no other enum; no discriminants, since an edit that gives two cases one must build
        match self {
            RunRefusal::FewRecords => 25,
            RunRefusal::FewMarks => 26,
        }
    }
}
