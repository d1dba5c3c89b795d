// Why no sheet is written.
ghost use Rattle.std.specs.Prelude.{◌≡◌, Some};
ghost use Rattle.writer.specs.Refusals.{write_refusal, write_words};
ghost use Rattle.writer.specs.declared.faults.WriteFault.TheVariants.{Model, Sheet};

use model::{ModelFault, Refusal};
use sheet::SheetFault;
use std::error::Error;
use std::fmt;

// Why no sheet is written.
#[derive(Clone, Copy, PartialEq, Eq, Debug)]
pub enum WriteFault {
    // something is wrong with the model
    Model(ModelFault),
    // the bytes are too few, or the sheet would be too long
    Sheet(SheetFault),
}

impl WriteFault {
    // The number of the refusal and the values that it returns.
    // No `From`: `fault.refusal()` reads alike for every fault, one of which has none.
    pub fn refusal(self) -> Refusal
        ensures { result ≡ write_refusal self }
    {
        match self {
            WriteFault::Model(fault) => fault.refusal(),
            WriteFault::Sheet(fault) => fault.refusal(),
        }
    }

    // The cause in words, which say what each value of the refusal is.
    pub fn words(self) -> &'static str
        ensures { result.now ≡ write_words self }
    {
        match self {
            WriteFault::Model(fault) => fault.words(),
            WriteFault::Sheet(fault) => fault.words(),
        }
    }
}

// A fault prints its cause in words.
impl fmt::Display for WriteFault {
    ghost output = { λ f. Some (write_words f) };

    fn fmt<W: fmt::Write>(&self, f: &mut fmt::Formatter<W>) -> fmt::Result {
        f.write_str(self.words())
    }
}

impl Error for WriteFault {}

// A clause says which variant a `?` makes, and a derived `From` has no contract.
impl From<ModelFault> for WriteFault {
    ghost from_gives = { λ f r. r ≡ Model f };

    fn from(fault: ModelFault) -> WriteFault {
        WriteFault::Model(fault)
    }
}

impl From<SheetFault> for WriteFault {
    ghost from_gives = { λ f r. r ≡ Sheet f };

    fn from(fault: SheetFault) -> WriteFault {
        WriteFault::Sheet(fault)
    }
}
