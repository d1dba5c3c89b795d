// The commands there are, and how they are used.
ghost use Rattle.paelwisk.specs.Commands.{ReadsCommand, ReadsSheetCommand};

use crate::names::UnknownName;
use std::str::FromStr;

// What the program can be asked to do.
#[derive(Clone, Copy, PartialEq, Eq, Debug)]
pub enum Command {
    Valves,
}

// What the program can be asked to do with a sheet.
#[derive(Clone, Copy, PartialEq, Eq, Debug)]
pub enum SheetCommand {
    Show,
    Copy,
    Best,
}

impl Command {
    pub const USAGE: &'static str = "usage: paelwisk COMMAND WORDS
  valves           what each test does in states of a valve model, and their best costs, with the input on standard input: echo 'candidates 2 repair 5 7 test 0 1 state 3 state 2 price 0 3 best sum' | paelwisk valves
  show SHEET       the states and the prices of a sheet: paelwisk show examples/p.sheet
  copy SHEET OUT   reads a sheet and writes it again to the file OUT: paelwisk copy examples/p.sheet copy.sheet
  best SHEET RULE  the best cost of every state, RULE is largest or sum: paelwisk best examples/p.sheet largest";
}

impl FromStr for Command {
    type Err = UnknownName;

    ghost from_str_gives = { ReadsCommand };

    fn from_str(name: &str) -> Result<Command, UnknownName> {
        match name {
            "valves" => Ok(Command::Valves),
            _ => Err(UnknownName),
        }
    }
}

impl FromStr for SheetCommand {
    type Err = UnknownName;

    ghost from_str_gives = { ReadsSheetCommand };

    fn from_str(name: &str) -> Result<SheetCommand, UnknownName> {
        match name {
            "show" => Ok(SheetCommand::Show),
            "copy" => Ok(SheetCommand::Copy),
            "best" => Ok(SheetCommand::Best),
            _ => Err(UnknownName),
        }
    }
}
