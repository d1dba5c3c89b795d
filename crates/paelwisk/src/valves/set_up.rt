// A valve set-up as it is read.
ghost use Rattle.std.specs.Prelude.{◌≡◌, ◌<◌, ◌≤◌, true, length, is_some, IfOk};

use super::asks::Ask;
use crate::failures::Failure;
use crate::names::RuleName;
use crate::words::{BadWord, Words};
use cost::{Price, Task};
use std::alloc::Global;
use valve::Test;

// What is expected of the task of a price.
const TASK: &str = "the task of a price, a number up to 63";

// What is expected of a price.
const PRICE: &str = "a price, a number from 1 to 10000";

// A set-up, the states that are asked about, and what is asked after them.
#[derive(Drop)]
pub struct SetUp {
    pub repairs: Vec<u32>,
    pub tests: Vec<Test>,
    pub states: Vec<usize>,
    pub asks: Vec<Ask>,
}

// Reads a set-up, and that nothing is left after it.
pub fn read<'t>(heap: Global, mut words: Words<'_, 't>) -> Result<SetUp, Failure<'t>> {
    let repairs = read_repairs(heap, &mut words)?;
    let tests = read_tests(heap, &mut words)?;
    let states = read_states(heap, &mut words)?;
    let asks = read_asks(heap, &mut words)?;
    if !asks.is_empty() {
        words.end("the word 'price' or 'best'")?;
    } else if states.is_empty() {
        words.end("the word 'test', 'state', 'price' or 'best'")?;
    } else {
        words.end("the word 'state', 'price' or 'best'")?;
    }
    Ok(SetUp {
        repairs,
        tests,
        states,
        asks,
    })
}

// Reads how many candidates there are, and the repair cost of each.
fn read_repairs<'t>(heap: Global, words: &mut Words<'_, 't>) -> Result<Vec<u32>, Failure<'t>> {
    words.keyword("candidates", "the word 'candidates'")?;
    let count: usize = words.parse("the number of candidates")?;
    words.keyword("repair", "the word 'repair'")?;
    let mut repairs = Vec::new(heap);
    for _ in 0..count {
        let repair: u32 = words.parse(
            "the repair cost of each candidate, a number up to 4294967295",
        )?;
        repairs.push(repair)?;
    }
    Ok(repairs)
}

// Reads the tests, as many as there are.
fn read_tests<'t>(heap: Global, words: &mut Words<'_, 't>) -> Result<Vec<Test>, Failure<'t>> {
    let mut tests = Vec::new(heap);
    while words.accept("test") {
        tests.push(read_test(words)?)?;
    }
    Ok(tests)
}

// Reads the task and the set of a test.
fn read_test<'t>(words: &mut Words<'_, 't>) -> Result<Test, BadWord<'t>>
    ensures { length words.new.rest.now ≤ length words.old.rest.now }
{
    let task = words.parse("the task of a test, a number up to 255")?;
    let set = words.parse("the set of a test, a number up to 65535")?;
    Ok(Test { task, set })
}

// Reads the states that are asked about, as many as there are.
fn read_states<'t>(heap: Global, words: &mut Words<'_, 't>) -> Result<Vec<usize>, Failure<'t>> {
    let mut states = Vec::new(heap);
    while words.accept("state") {
        let state: usize = words.parse("the number of a state")?;
        states.push(state)?;
    }
    Ok(states)
}

// Reads what is asked after the states, as much as there is.
fn read_asks<'t>(heap: Global, words: &mut Words<'_, 't>) -> Result<Vec<Ask>, Failure<'t>> {
    let mut asks = Vec::new(heap);
    while let Some(ask) = read_ask(words)? {
        asks.push(ask)?;
    }
    Ok(asks)
}

// Reads a price, or the rule of best costs, if one of them is next.
fn read_ask<'t>(words: &mut Words<'_, 't>) -> Result<Option<Ask>, BadWord<'t>>
    ensures { IfOk result (λ o. is_some o ≡ true → length words.new.rest.now < length words.old.rest.now) }
{
    if words.accept("price") {
        Ok(Some(read_price(words)?))
    } else if words.accept("best") {
        Ok(Some(Ask::Best(words.parse(RuleName::EXPECTED)?)))
    } else {
        Ok(None)
    }
}

// Reads a task and its price, which have to be within their limits.
fn read_price<'t>(words: &mut Words<'_, 't>) -> Result<Ask, BadWord<'t>>
    ensures { length words.new.rest.now ≤ length words.old.rest.now }
{
    let at_task = *words;
    let task = at_task.require(Task::new(words.parse(TASK)?), TASK)?;
    let at_price = *words;
    let price = at_price.require(Price::new(words.parse(PRICE)?), PRICE)?;
    Ok(Ask::Price(task, price))
}
