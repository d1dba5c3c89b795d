// Taking the next field of a sheet.
ghost use Rattle.std.specs.Prelude.{◌≡◌, length, Some, None, MatchResult};
ghost use Rattle.sheet.specs.Blocks.{shown, tag_of, body_of};
ghost use Rattle.sheet.specs.Stages.{stage, beginning, outcomes_in, tag_due, length_right, value_right, rising, cause_of, after, all_read};

use super::Due;
use crate::bodies::{byte_at, end_cost_in, outcomes_in, pair_at, places_in};
use crate::faults::Cause;
use crate::fields::Field;

impl Due {
    // Nothing was read yet.
    pub fn start() -> Due
        ensures { stage result ≡ beginning }
    {
        Due {
            count: 0,
            task: 0,
            states: 0,
            room: 0,
            actions: 0,
            outcomes: 0,
        }
    }

    // Whether the last state was read.
    pub fn is_whole(&self) -> bool
        ensures { result ≡ all_read (stage self.now) }
    {
        0 < self.count && self.states == self.count
    }

    // What is known after one field more, or what is wrong with that field.
    pub fn accept(&self, field: Field<'_>) -> Result<Due, Cause>
        ensures { MatchResult result (λ d. (cause_of (stage self.now) (shown field.entry) ≡ None) × (stage d ≡ after (stage self.now) (shown field.entry))) (λ e. cause_of (stage self.now) (shown field.entry) ≡ Some e) }
    {
        if !self.is_due(field) {
            return Err(Cause::Tag);
        }
        if !is_right_length(field) {
            return Err(Cause::Length);
        }
        if !self.is_right_value(field) {
            return Err(Cause::Value);
        }
        Ok(self.after(field))
    }

    // Whether a field of this kind may come next.
    fn is_due(&self, field: Field<'_>) -> bool
        ensures { result ≡ tag_due (stage self.now) (tag_of (shown field.entry)) }
    {
        match field {
            Field::States(_) => self.count == 0,
            Field::Price(_) => 0 < self.count && self.states == 0,
            Field::End(_) | Field::Open(_) => self.states < self.count,
            Field::Action(_) => 0 < self.room,
        }
    }

    // Whether the values of a field are within their limits.
    fn is_right_value(&self, field: Field<'_>) -> bool
        ensures { result ≡ value_right (stage self.now) (tag_of (shown field.entry)) (body_of (shown field.entry)) }
    {
        match field {
            Field::States(body) => {
                let count = pair_at(body, 0);
                (1..=4096).contains(&count)
            }
            Field::Price(body) => {
                let task = byte_at(body, 0);
                let price = pair_at(body, 1);
                self.task <= usize::from(task) && task <= 63 && (2..=10_000).contains(&price)
            }
            Field::End(body) => end_cost_in(body) <= 1_000_000,
            Field::Open(_) => true,
            Field::Action(body) => byte_at(body, 0) <= 63 && outcomes_rise(body, self.count),
        }
    }

    // What is known after one field more, of which nothing is wrong.
    fn after(&self, field: Field<'_>) -> Due
        requires { cause_of (stage self.now) (shown field) ≡ None }
        ensures { stage result ≡ after (stage self.now) (shown field.entry) }
    {
        let mut due = *self;
        match field {
            Field::States(body) => due.count = usize::from(pair_at(body, 0)),
            Field::Price(body) => due.task = usize::from(byte_at(body, 0)) + 1,
            Field::End(_) => {
                due.states += 1;
                due.room = 0;
            }
            Field::Open(_) => {
                due.states += 1;
                due.room = 16;
            }
            Field::Action(body) => {
                due.room -= 1;
                due.actions += 1;
                due.outcomes += places_in(body);
            }
        }
        due
    }
}

// Whether the length of a field's body is one that its kind has.
fn is_right_length(field: Field<'_>) -> bool
    ensures { result ≡ length_right (tag_of (shown field.entry)) (length (body_of (shown field.entry))) }
{
    match field {
        Field::States(body) => body.len() == 2,
        Field::Price(body) => body.len() == 3,
        Field::End(body) => body.len() == 4,
        Field::Open(body) => body.is_empty(),
        Field::Action(body) => body.len() % 2 == 1 && (3..=33).contains(&body.len()),
    }
}

// Whether the outcomes in the body of an action ascend and are below the number of states.
fn outcomes_rise(body: &[u8], count: usize) -> bool
    ensures { result ≡ rising count 0 (outcomes_in body.now) }
{
    let mut lowest = 0;
    for outcome in outcomes_in(body) {
        let outcome = usize::from(u16::from_be_bytes(*outcome));
        if !(lowest..count).contains(&outcome) {
            return false;
        }
        lowest = outcome + 1;
    }
    true
}
