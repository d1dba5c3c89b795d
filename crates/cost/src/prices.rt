// Tasks, their prices, and the list of all prices.
ghost use Rattle.std.specs.Prelude.{◌≡◌, ◌<◌, ◌≤◌, length};

mod entries;

// A kind of work that has a price. Tasks are numbered 0 to 63.
// Task and Price are no one type with const limits: memory is counted, and 64 prices take 128 bytes as
// u16, a task one byte as u8.
#[derive(Clone, Copy, PartialEq, Eq, Debug)]
pub struct Task {
    number: u8,
    ghost within: { number < 64 },
}

// What one task costs: a whole number from 1 to 10,000.
#[derive(Clone, Copy, PartialEq, Eq, Debug)]
pub struct Price {
    value: u16,
    ghost low: { 1 ≤ value },
    ghost high: { value ≤ 10000 },
}

// A price for each of the 64 tasks.
#[derive(Clone, Copy, Drop)]
pub struct PriceList {
    prices: [Price; 64],
    // Facts about a list are proved of the list alone, so its length is said here.
    ghost whole: { length prices ≡ 64 },
}
