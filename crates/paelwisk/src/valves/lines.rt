// The lines that answers are printed as.
ghost use Rattle.std.specs.Prelude.{◌≡◌, ◌++◌, IfOk, string_bytes, OnOk};
ghost use Rattle.std.specs.List.{flat_map};
ghost use Rattle.paelwisk.specs.Answers.{action_of};
ghost use Rattle.paelwisk.specs.Lines.{action_text, tests_text, answer_text};

use super::answers::{Answer, Finding};
use std::alloc::{AllocError, Global};
use valve::Split;

// The lines of answers, one after another.
pub fn of_answers(heap: Global, answers: &[Answer]) -> Result<String, AllocError>
    ensures { IfOk result (λ t. string_bytes t ≡ flat_map answer_text answers.now) }
{
    let mut lines = String::new(heap);
    for answer in answers {
        write_answer(&mut lines, answer)?;
    }
    Ok(lines)
}

// Adds the lines of an answer.
fn write_answer(lines: &mut String, answer: &Answer) -> Result<(), AllocError>
    ensures { OnOk result (string_bytes lines.new ≡ string_bytes lines.old ++ answer_text answer.now) }
{
    let state = answer.state;
    match &answer.finding {
        Finding::End(cost) => writeln!(lines, "state {state} end {cost}"),
        Finding::Open(splits) => {
            writeln!(lines, "state {state} open")?;
            write_tests(lines, splits)
        }
    }
}

// Adds a line for each test, numbered from 0.
fn write_tests(lines: &mut String, splits: &[Option<Split>]) -> Result<(), AllocError>
    ensures { OnOk result (string_bytes lines.new ≡ string_bytes lines.old ++ tests_text 0 splits.now) }
{
    for (test, split) in splits.iter().enumerate() {
        write_test(lines, test, *split)?;
    }
    Ok(())
}

// Adds the line of a test.
fn write_test(lines: &mut String, test: usize, split: Option<Split>) -> Result<(), AllocError>
    ensures { OnOk result (string_bytes lines.new ≡ string_bytes lines.old ++ action_text test (action_of split)) }
{
    match split {
        Some(
            Split {
                task,
                smaller,
                larger,
            },
        ) => writeln!(lines, "test {test} task {task} -> {smaller} {larger}"),
        None => writeln!(lines, "test {test} barred"),
    }
}
