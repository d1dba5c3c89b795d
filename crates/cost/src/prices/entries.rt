// Making tasks and prices from plain numbers; reading and setting a list's prices.
ghost use Rattle.std.specs.Prelude.{◌≡◌, ℕ, ◌<◌, ◌≤◌, map, replicate, ◌≢◌, slice_index, slice_set};
ghost use Rattle.std.specs.Option.{SomeIff, option_map};
ghost use Rattle.cost.specs.Prices.{task_number, price_number, figures, InRange};

use super::{Price, PriceList, Task};
use crate::amount::Cost;

impl Task {
    // The task of that number; none above 63. Named as in std's NonZeroU8: a `TryFrom` would need an
    // error type that tells no more than `None`.
    pub fn new(number: u8) -> Option<Task>
        ensures { SomeIff (option_map task_number result) (number < 64) number }
    {
        if number < 64 {
            Some(Task { number })
        } else {
            None
        }
    }

    pub fn number(self) -> u8
        ensures { result ≡ self.number }
    {
        self.number
    }
}

impl Price {
    // The price of that number; none outside 1 to 10,000. Named as in std's NonZeroU16, as a task is.
    pub fn new(value: u16) -> Option<Price>
        ensures { SomeIff (option_map price_number result) ((1 ≤ value) × (value ≤ 10000)) value }
    {
        if (1..=10_000).contains(&value) {
            Some(Price { value })
        } else {
            None
        }
    }

    pub fn get(self) -> u16
        ensures { result ≡ self.value }
    {
        self.value
    }
}

// The price as a cost.
impl From<Price> for Cost {
    ghost from_gives = { λ p c. c.value ≡ p.value };

    fn from(price: Price) -> Cost {
        Cost::new(u32::from(price.get()))
    }
}

impl PriceList {
    // The list in which every price is 1.
    pub fn new() -> PriceList
        ensures { figures result ≡ replicate 64 1 }
    {
        PriceList {
            prices: [Price { value: 1 }; 64],
        }
    }

    // The price of a task; every list has 64 prices, each in range.
    pub fn price(&self, task: Task) -> Price
        ensures value { result.value ≡ slice_index (figures self.now) task.number }
        ensures in_range { InRange (figures self.now) }
    {
        self.prices[task.number as usize]
    }

    // All prices, in the order of the tasks.
    pub fn as_slice(&self) -> &[Price]
        ensures { map price_number result.now ≡ figures self.now }
    {
        &self.prices
    }

    // Sets the price of one task and leaves the others.
    pub fn set(&mut self, task: Task, price: Price)
        ensures after { figures self.new ≡ slice_set (figures self.old) task.number price.value }
        ensures that_one { slice_index (figures self.new) task.number ≡ price.value }
        ensures others { (t : ℕ) → (t ≢ task.number) → slice_index (figures self.new) t ≡ slice_index (figures self.old) t }
    {
        let place = task.number as usize;
        self.prices[place] = price;
    }
}
