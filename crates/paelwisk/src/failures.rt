// Why a command gives no answers.
ghost use Rattle.std.specs.Prelude.{◌≡◌};
ghost use Rattle.paelwisk.specs.Failures.{is_refusal};
ghost use Rattle.paelwisk.specs.declared.failures.Failure.TheVariants.{Word, State, SetUp, Sheet, Memory};

use crate::words::BadWord;
use std::alloc::{AllocError, AllocFailed};
use std::fmt;
use transfer::TransferFault;
use valve::ValveFault;

// A state that is asked about and not there.
#[derive(Clone, Copy, PartialEq, Eq, Debug)]
pub struct NoState {
    pub state: usize,
    pub states: usize,
}

impl fmt::Display for NoState {
    fn fmt<W: fmt::Write>(&self, f: &mut fmt::Formatter<W>) -> fmt::Result {
        let NoState { state, states } = *self;
        write!(
            f,
            "state {state}: there are only {states} states, numbered from 0"
        )
    }
}

// Why a command gives no answers.
#[derive(Clone, Copy, Debug)]
pub enum Failure<'t> {
    Word(BadWord<'t>),
    State(NoState),
    SetUp(ValveFault),
    Sheet(TransferFault),
    Memory,
}

impl Failure<'_> {
    // Whether a library refused what it was given.
    pub fn is_refusal(&self) -> bool
        ensures { result ≡ is_refusal self.now }
    {
        match *self {
            Failure::SetUp(_) => true,
            Failure::Sheet(fault) => fault.refusal().is_some(),
            _ => false,
        }
    }
}

// A clause says which variant a `?` makes, and a derived `From` has no contract.
impl<'t> From<BadWord<'t>> for Failure<'t> {
    ghost from_gives = { λ w r. r ≡ Word w };

    fn from(word: BadWord<'t>) -> Failure<'t> {
        Failure::Word(word)
    }
}

impl From<ValveFault> for Failure<'_> {
    ghost from_gives = { λ f r. r ≡ SetUp f };

    fn from(fault: ValveFault) -> Self {
        Self::SetUp(fault)
    }
}

impl From<TransferFault> for Failure<'_> {
    ghost from_gives = { λ f r. r ≡ Sheet f };

    fn from(fault: TransferFault) -> Self {
        Self::Sheet(fault)
    }
}

impl From<AllocError> for Failure<'_> {
    ghost from_gives = { λ _ r. r ≡ Memory };

    fn from(_error: AllocError) -> Self {
        Self::Memory
    }
}

impl<T: Drop> From<AllocFailed<T>> for Failure<'_> {
    ghost from_gives = { λ _ r. r ≡ Memory };

    fn from(_error: AllocFailed<T>) -> Self {
        Self::Memory
    }
}

impl fmt::Display for Failure<'_> {
    fn fmt<W: fmt::Write>(&self, f: &mut fmt::Formatter<W>) -> fmt::Result {
        match *self {
            Failure::Word(word) => write!(f, "{word}"),
            Failure::State(state) => write!(f, "{state}"),
            Failure::SetUp(fault) => write!(f, "{} ({fault})", fault.refusal()),
            Failure::Sheet(fault) => match fault.refusal() {
                Some(refusal) => write!(f, "{refusal} ({fault})"),
                None => write!(f, "{fault}"),
            },
            Failure::Memory => write!(f, "out of memory"),
        }
    }
}
