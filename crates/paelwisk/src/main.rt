// The command-line tool: reads its input, asks the libraries, and prints what they answer.
#![tactic(auto)]

use commands::{Command, SheetCommand};
use failures::Failure;
use names::UnknownName;
use std::process::ExitCode;
use std::{env, io};

// The words that stand for something that can be asked for.
mod names;
// The commands there are.
mod commands;
// Why a command gives no answers.
mod failures;
// The words of an input, read one after another.
mod words;
// The command `valves`.
mod valves;
// The commands about sheets.
mod sheets;

// The program ends with status 1, and has said why.
#[derive(Drop)]
struct Ended;

// Where nothing can be printed there is nobody to tell.
impl From<io::Error> for Ended {
    fn from(_error: io::Error) -> Ended {
        Ended
    }
}

fn main(rt: HostRuntime) -> ExitCode {
    match run(&rt) {
        Ok(()) => ExitCode::SUCCESS,
        Err(Ended) => ExitCode::FAILURE,
    }
}

// Runs the command that the program's words ask for.
fn run(rt: &HostRuntime) -> Result<(), Ended> {
    let mut words = env::args(rt)?.skip(1);
    match (words.next(), words.next(), words.next(), words.next()) {
        (Some(name), first, second, None) => obey(rt, name.as_str(), first, second),
        _ => tell_usage(rt),
    }
}

// Runs the command of a name, if the words after it are as many as it has.
fn obey(
    rt: &HostRuntime,
    name: &str,
    first: Option<String>,
    second: Option<String>,
) -> Result<(), Ended> {
    match (name.parse::<Command>(), first, second) {
        (Ok(Command::Valves), None, None) => ask_valves(rt),
        (Err(UnknownName), Some(sheet), last) => obey_about_sheet(rt, name, sheet.as_str(), last),
        _ => tell_usage(rt),
    }
}

// Runs the command of a name about a sheet, if the words after the sheet are as many as it has.
fn obey_about_sheet(
    rt: &HostRuntime,
    name: &str,
    sheet: &str,
    last: Option<String>,
) -> Result<(), Ended> {
    match (name.parse::<SheetCommand>(), last) {
        (Ok(SheetCommand::Show), None) => sheets::show(rt, sheet),
        (Ok(SheetCommand::Copy), Some(out)) => sheets::copy(rt, sheet, out.as_str()),
        (Ok(SheetCommand::Best), Some(rule)) => sheets::best(rt, sheet, rule.as_str()),
        _ => tell_usage(rt),
    }
}

// Tells how the program is used.
fn tell_usage(rt: &HostRuntime) -> Result<(), Ended> {
    rt.eprintln(Command::USAGE)?;
    Err(Ended)
}

// Answers the questions on standard input about a valve model.
fn ask_valves(rt: &HostRuntime) -> Result<(), Ended> {
    let text = match io::read_to_string(rt.alloc(), rt.stdin()) {
        Ok(text) => text,
        Err(error) => {
            eprintln!(rt; "standard input cannot be read: {error}")?;
            return Err(Ended);
        }
    };
    match valves::run(rt.alloc(), text.as_str()) {
        Ok(lines) => Ok(rt.print(lines)?),
        Err(failure) => tell(rt, failure),
    }
}

// A refusal is an answer of the library, and goes where answers go.
fn tell(rt: &HostRuntime, failure: Failure<'_>) -> Result<(), Ended> {
    if failure.is_refusal() {
        rt.println(failure)?;
    } else {
        rt.eprintln(failure)?;
    }
    Err(Ended)
}
