// The commands about sheets: each reads a file, asks the libraries and prints what they answer.
use crate::names::RuleName;
use crate::words::BadWord;
use crate::{Ended, tell};
use cost::{Largest, Rule, Sum};
use std::fs;
use texts::{best_sheet, show_sheet};
use transfer::{TransferFault, copy_sheet};

// Prints the states and the prices of a sheet.
pub fn show(rt: &HostRuntime, path: &str) -> Result<(), Ended> {
    let sheet = read(rt, path)?;
    print(rt, show_sheet(rt.alloc(), &sheet))
}

// Prints the best cost of every state of a sheet's model, by the rule of a name.
pub fn best(rt: &HostRuntime, path: &str, rule: &str) -> Result<(), Ended> {
    let Ok(name) = rule.parse::<RuleName>() else {
        let word = BadWord {
            expected: RuleName::EXPECTED,
            came: Some(rule),
        };
        return tell(rt, word.into());
    };
    let sheet = read(rt, path)?;
    // A rule's function belongs to its type, so each arm calls an instance of its own.
    match name {
        RuleName::Largest => print(rt, best_sheet(rt.alloc(), &sheet, &Largest)),
        RuleName::Sum => print(rt, best_sheet(rt.alloc(), &sheet, &Sum)),
    }
}

// Reads a sheet and writes it again to another file.
pub fn copy(rt: &HostRuntime, path: &str, out: &str) -> Result<(), Ended> {
    let sheet = read(rt, path)?;
    let copy = match copy_sheet(rt.alloc(), &sheet) {
        Ok(copy) => copy,
        Err(fault) => return tell(rt, fault.into()),
    };
    if let Err(error) = fs::write(rt, out, &copy) {
        eprintln!(rt; "expected a file that can be written, but '{out}' came: {error}")?;
        return Err(Ended);
    }
    println!(rt; "wrote {} bytes", copy.len())?;
    Ok(())
}

// The bytes of a file.
fn read(rt: &HostRuntime, path: &str) -> Result<Vec<u8>, Ended> {
    match fs::read(rt, path) {
        Ok(bytes) => Ok(bytes),
        Err(error) => {
            eprintln!(rt; "expected a file that can be read, but '{path}' came: {error}")?;
            Err(Ended)
        }
    }
}

// Prints an answer, or why there is none.
fn print(rt: &HostRuntime, answer: Result<String, TransferFault>) -> Result<(), Ended> {
    match answer {
        Ok(text) => Ok(rt.print(text)?),
        Err(fault) => tell(rt, fault.into()),
    }
}
