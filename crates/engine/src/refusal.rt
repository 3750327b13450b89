// Why an input is refused, and what each refusal tells.
ghost use Rattle.std.specs.Prelude.{◌≡◌};
ghost use Rattle.engine.specs.Refusals.{told, lent_told};
ghost use Rattle.engine.specs.declared.refusal.PlanRefusal.TheVariants.{Load};

use filing::LoadRefusal;
use search::RunRefusal;
use sheet::Told;
use tile::LayRefusal;

#[derive(Clone, Copy, PartialEq, Eq, Debug)]
pub enum PlanRefusal {
    // there are more bytes than `plan` takes
    TooLong,
    // the sheet is not loaded
    Load(LoadRefusal),
}

impl From<LoadRefusal> for PlanRefusal {
    ghost from_gives = { λ refusal plan. plan ≡ Load refusal };

    fn from(refusal: LoadRefusal) -> Self {
        Self::Load(refusal)
    }
}

impl PlanRefusal {
    // The number of the refusal, and the record that it is about by its number and first byte: a rule of the project has a method
    // answer these.
    pub fn told(self) -> Told
        ensures { result ≡ told self }
    {
        match self {
            PlanRefusal::TooLong => Told {
                number: 30,
                record: 0,
                byte: 0,
            },
            PlanRefusal::Load(refusal) => refusal.told(),
        }
    }
}

// Why nothing is written to bytes that a caller lends.
#[derive(Clone, Copy, PartialEq, Eq, Debug)]
pub enum LentRefusal {
    // the sheet is not loaded
    Load(LoadRefusal),
    // the costs are not laid
    Lay(LayRefusal),
    // the bytes are too few for the marks
    Run(RunRefusal),
}

impl LentRefusal {
    // The number of the refusal, and the record of a sheet that it is about by its number and first byte: a rule of the project has a
    // method answer these.
    pub fn told(self) -> Told
        ensures { result ≡ lent_told self }
    {
        let number = match self {
            LentRefusal::Load(refusal) => return refusal.told(),
            LentRefusal::Lay(refusal) => refusal.question(),
            LentRefusal::Run(refusal) => refusal.question(),
        };
        Told {
            number,
            record: 0,
            byte: 0,
        }
    }
}
