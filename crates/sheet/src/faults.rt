// What can be wrong with a sheet.
ghost use Rattle.std.specs.Prelude.{◌≡◌, Some};
ghost use Rattle.sheet.specs.Refusals.{sheet_refusal, sheet_words, fault_at};

use model::{Refusal, Values};
use std::error::Error;
use std::fmt;

// What can be wrong with a field that is whole.
#[derive(Clone, Copy, PartialEq, Eq, Debug)]
pub enum Cause {
    // its tag is not due
    Tag,
    // its length is wrong for its tag
    Length,
    // one of its values is outside its limits
    Value,
}

impl Cause {
    // The fault of a sheet that has a field with this cause at a place.
    pub fn at(self, place: usize) -> SheetFault
        ensures { result ≡ fault_at place self }
    {
        match self {
            Cause::Tag => SheetFault::Tag(place),
            Cause::Length => SheetFault::Length(place),
            Cause::Value => SheetFault::Value(place),
        }
    }
}

// What can be wrong with a sheet that is read or written. A place is that of the first byte of the
// faulty field, counted from 0.
#[derive(Clone, Copy, PartialEq, Eq, Debug)]
pub enum SheetFault {
    // a list that is too short: the first such one, counted from 0 in the order of the call
    Short(usize),
    // the sheet ends where a field is due or not whole yet, or it has more than 65,536 bytes
    Ends(usize),
    // a field whose tag is not due
    Tag(usize),
    // a field whose length is wrong for its tag
    Length(usize),
    // a field with a value outside its limits
    Value(usize),
}

impl SheetFault {
    // The number of the refusal and the value that it returns.
    // No `From`: `fault.refusal()` reads alike for every fault, one of which has none.
    pub fn refusal(self) -> Refusal
        ensures { result ≡ sheet_refusal self }
    {
        match self {
            SheetFault::Short(list) => Refusal::new(18, Values::One(list)),
            SheetFault::Ends(place) => Refusal::new(23, Values::One(place)),
            SheetFault::Tag(place) => Refusal::new(24, Values::One(place)),
            SheetFault::Length(place) => Refusal::new(25, Values::One(place)),
            SheetFault::Value(place) => Refusal::new(26, Values::One(place)),
        }
    }

    // The cause in words, which say what the value of the refusal is.
    pub fn words(self) -> &'static str
        ensures { result.now ≡ sheet_words self }
    {
        match self {
            SheetFault::Short(_) => "list that is too short",
            SheetFault::Ends(_) => {
                "place where the sheet ends too soon, or has more than 65536 bytes"
            }
            SheetFault::Tag(_) => "place of a field whose tag is not due",
            SheetFault::Length(_) => "place of a field whose length is wrong for its tag",
            SheetFault::Value(_) => "place of a field with a value outside its limits",
        }
    }
}

// A fault prints its cause in words.
impl fmt::Display for SheetFault {
    ghost output = { λ f. Some (sheet_words f) };

    fn fmt<W: fmt::Write>(&self, f: &mut fmt::Formatter<W>) -> fmt::Result {
        f.write_str(self.words())
    }
}

impl Error for SheetFault {}
