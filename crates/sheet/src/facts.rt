// What is true of all sheets, each stated by the contract of a function that does nothing, so that
// the check asks for its proof.
ghost use Rattle.sheet.specs.SheetFacts.{SheetStandsForOne, SheetHasNoFault, FaultIsOne};

// A sheet stands for one model and one list of prices.
pub fn sheet_stands_for_one()
    ensures { SheetStandsForOne }
{}

// Nothing is wrong with a sheet.
pub fn sheet_has_no_fault()
    ensures { SheetHasNoFault }
{}

// No two faults hold of the same bytes.
pub fn fault_is_one()
    ensures { FaultIsOne }
{}
