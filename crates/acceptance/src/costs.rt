// Capped addition and the two counting rules, on numbers worked out by hand.
use cost::{Cost, Largest, Rule, Sum};

// What a rule counts a list of costs as.
fn counted<R: Rule>(rule: &R, costs: &[u32]) -> u32 {
    let mut tally = rule.start();
    for c in costs {
        rule.take(&mut tally, Cost::new(*c));
    }
    rule.read(&tally).get()
}

fn sum_of_two(a: u32, b: u32) -> u32 {
    Cost::new(a).plus(Cost::new(b)).get()
}

#[test]
fn a_number_above_the_roof_is_the_roof(rt: HostRuntime) {
    assert_eq!(rt; Cost::new(1_000_000_000).get(), 1_000_000_000);
    assert_eq!(rt; Cost::new(1_000_000_001).get(), 1_000_000_001);
    assert_eq!(rt; Cost::new(1_000_000_002).get(), 1_000_000_001);
    assert_eq!(rt; Cost::new(u32::MAX).get(), Cost::ROOF);
}

#[test]
fn a_sum_stops_at_the_roof(rt: HostRuntime) {
    let cases = [
        (999_999_999, 1, 1_000_000_000),
        (999_999_999, 2, 1_000_000_001),
        (999_999_999, 3, 1_000_000_001),
        (1_000_000_001, 0, 1_000_000_001),
        (0, 1_000_000_001, 1_000_000_001),
        (1_000_000_001, 1_000_000_001, 1_000_000_001),
        (0, 0, 0),
        (4, 9, 13),
    ];
    for (a, b, sum) in cases {
        assert_eq!(rt; sum_of_two(a, b), sum);
    }
}

#[test]
fn largest_counts_the_largest(rt: HostRuntime) {
    assert_eq!(rt; counted(&Largest, &[4, 9, 2]), 9);
    assert_eq!(rt; counted(&Largest, &[9, 4]), 9);
    assert_eq!(rt; counted(&Largest, &[7]), 7);
    assert_eq!(rt; counted(&Largest, &[0, 0, 0]), 0);
    assert_eq!(rt; counted(&Largest, &[5, Cost::ROOF, 6]), Cost::ROOF);
    assert_eq!(rt; counted(&Largest, &[3; 16]), 3);
}

#[test]
fn sum_adds_up_to_the_roof(rt: HostRuntime) {
    assert_eq!(rt; counted(&Sum, &[4, 9, 2]), 15);
    assert_eq!(rt; counted(&Sum, &[2, 9, 4]), 15);
    assert_eq!(rt; counted(&Sum, &[7]), 7);
    assert_eq!(rt; counted(&Sum, &[999_999_999, 1]), 1_000_000_000);
    assert_eq!(rt; counted(&Sum, &[999_999_999, 1, 1]), Cost::ROOF);
    assert_eq!(rt; counted(&Sum, &[Cost::ROOF, 1, 1]), Cost::ROOF);
    assert_eq!(rt; counted(&Sum, &[1_000_000; 16]), 16_000_000);
}
