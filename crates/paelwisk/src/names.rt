// The words that stand for something that can be asked for.
ghost use Rattle.std.specs.Prelude.{◌≡◌, Some};
ghost use Rattle.paelwisk.specs.Names.{rule_name, ReadsRule};

use std::fmt;
use std::str::FromStr;

// A word that stands for nothing that can be asked for.
#[derive(Clone, Copy, PartialEq, Eq, Debug)]
pub struct UnknownName;

// The rules that best costs can be counted by.
#[derive(Clone, Copy, PartialEq, Eq, Debug)]
pub enum RuleName {
    Largest,
    Sum,
}

impl RuleName {
    // What is expected where the name of a rule is read.
    pub const EXPECTED: &'static str = "the rule 'largest' or 'sum'";

    // The word that stands for the rule.
    pub fn name(self) -> &'static str
        ensures { result.now ≡ rule_name self }
    {
        match self {
            RuleName::Largest => "largest",
            RuleName::Sum => "sum",
        }
    }
}

impl fmt::Display for RuleName {
    ghost output = { λ r. Some (rule_name r) };

    fn fmt<W: fmt::Write>(&self, f: &mut fmt::Formatter<W>) -> fmt::Result {
        f.write_str(self.name())
    }
}

impl FromStr for RuleName {
    type Err = UnknownName;

    ghost from_str_gives = { ReadsRule };

    fn from_str(name: &str) -> Result<RuleName, UnknownName> {
        match name {
            "largest" => Ok(RuleName::Largest),
            "sum" => Ok(RuleName::Sum),
            _ => Err(UnknownName),
        }
    }
}
