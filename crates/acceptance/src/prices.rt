// Tasks, prices and the price list at their limits.
use cost::{Cost, Price, PriceList, Task};

// The number of the task of a number.
fn task(number: u8) -> Option<u8> {
    Task::new(number).map(|task| task.number())
}

// The number of the price of a number, and its cost.
fn price(value: u16) -> Option<(u16, u32)> {
    Price::new(value).map(|price| (price.get(), Cost::from(price).get()))
}

// The price of a task in a list.
fn listed(prices: &PriceList, number: u8) -> Option<u16> {
    Task::new(number).map(|task| prices.price(task).get())
}

#[test]
fn tasks_are_numbered_to_63(rt: HostRuntime) {
    assert_eq!(rt;
        (task(0), task(63), task(64), task(255)),
        (Some(0), Some(63), None, None)
    );
}

#[test]
fn prices_run_from_1_to_10_000(rt: HostRuntime) {
    assert_eq!(rt; (price(0), price(10_001)), (None, None));
    assert_eq!(rt;
        (price(1), price(10_000)),
        (Some((1, 1)), Some((10_000, 10_000)))
    );
}

#[test]
fn a_price_is_set_alone(rt: HostRuntime) {
    let mut prices = PriceList::new();
    if let (Some(task), Some(price)) = (Task::new(62), Price::new(500)) {
        prices.set(task, price);
    }
    for number in 0..62 {
        assert_eq!(rt; listed(&prices, number), Some(1));
    }
    assert_eq!(rt;
        (
            listed(&prices, 62),
            listed(&prices, 63),
            listed(&prices, 64),
        ),
        (Some(500), Some(1), None)
    );
}
