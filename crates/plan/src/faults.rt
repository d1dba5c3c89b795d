// Why best costs are not told.
ghost use Rattle.std.specs.Prelude.{◌≡◌};
ghost use Rattle.plan.specs.Rounds.{best_refusal};
ghost use Rattle.plan.specs.declared.faults.BestFault.TheVariants.{Model};

use model::{ModelFault, Refusal, Values};

// Why best costs are not told.
#[derive(Clone, Copy, PartialEq, Eq, Debug)]
pub enum BestFault {
    // something is wrong with the model
    Model(ModelFault),
    // the list has fewer entries than the model has states
    Short,
}

impl BestFault {
    // The number of the refusal and the values that it returns.
    // A method, as that of each fault: one of them, want of memory, has none.
    pub fn refusal(self) -> Refusal
        ensures { result ≡ best_refusal self }
    {
        match self {
            BestFault::Model(fault) => fault.refusal(),
            BestFault::Short => Refusal::new(18, Values::One(0)),
        }
    }
}

// A clause says which variant a `?` makes, and a derived `From` has no contract.
impl From<ModelFault> for BestFault {
    ghost from_gives = { λ fault result. result ≡ Model fault };

    fn from(fault: ModelFault) -> BestFault {
        Self::Model(fault)
    }
}
