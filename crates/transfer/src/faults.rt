// Why nothing is carried over.
ghost use Rattle.std.specs.Prelude.{◌≡◌, Some};
ghost use Rattle.transfer.specs.Refusals.{transfer_refusal, transfer_words};
ghost use Rattle.transfer.specs.declared.faults.TransferFault.TheVariants.{Sheet, Write, Memory};

use model::Refusal;
use sheet::SheetFault;
use std::alloc::AllocError;
use std::error::Error;
use std::fmt;
use writer::WriteFault;

// Why nothing is carried over.
#[derive(Clone, Copy, PartialEq, Eq, Debug)]
pub enum TransferFault {
    // the sheet was refused
    Sheet(SheetFault),
    // the model was refused
    Write(WriteFault),
    // there is no memory
    Memory,
}

impl TransferFault {
    // The number of the refusal and the values that it returns; none where there is no memory.
    pub fn refusal(self) -> Option<Refusal>
        ensures { result ≡ transfer_refusal self }
    {
        match self {
            TransferFault::Sheet(fault) => Some(fault.refusal()),
            TransferFault::Write(fault) => Some(fault.refusal()),
            TransferFault::Memory => None,
        }
    }

    // The cause in words.
    pub fn words(self) -> &'static str
        ensures { result.now ≡ transfer_words self }
    {
        match self {
            TransferFault::Sheet(fault) => fault.words(),
            TransferFault::Write(fault) => fault.words(),
            TransferFault::Memory => "out of memory",
        }
    }
}

// A fault prints its cause in words.
impl fmt::Display for TransferFault {
    ghost output = { λ f. Some (transfer_words f) };

    fn fmt<W: fmt::Write>(&self, f: &mut fmt::Formatter<W>) -> fmt::Result {
        f.write_str(self.words())
    }
}

impl Error for TransferFault {}

// A clause says which variant a `?` makes, and a derived `From` has no contract.
impl From<SheetFault> for TransferFault {
    ghost from_gives = { λ f r. r ≡ Sheet f };

    fn from(fault: SheetFault) -> TransferFault {
        TransferFault::Sheet(fault)
    }
}

impl From<WriteFault> for TransferFault {
    ghost from_gives = { λ f r. r ≡ Write f };

    fn from(fault: WriteFault) -> TransferFault {
        TransferFault::Write(fault)
    }
}

impl From<AllocError> for TransferFault {
    ghost from_gives = { λ _ r. r ≡ Memory };

    fn from(_error: AllocError) -> TransferFault {
        TransferFault::Memory
    }
}
