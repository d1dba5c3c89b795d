// Searches over books: worked examples, and drawn models against their best costs.
use crate::bests::{TESTS, priced, ring, told};
use crate::drawn::draw_tables;
use crate::rows;
use book::{Allowance, Book, Cap, EstimateFault, SearchFault};
use cost::{Cost, Largest, Rule, Sum};
use model::Model;
use plan::Problem;
use std::process::Abort;
use std::test::Fail;
use table::{StateRow, TableModel};
use valve::ValveModel;

// How a search ends, as far as a test compares it: no raises where the start is above the cap.
#[derive(Clone, Copy, PartialEq, Eq, Debug)]
enum Ending {
    Cost(u32),
    Above,
    Stopped(u32),
    // a limit that there is not, or a book that was not opened
    Refused,
}

// Searches a book from a start, with a cap and an allowance.
fn search<M: Model, R: Rule>(
    book: &mut Book,
    problem: &Problem<'_, M, R>,
    (start, cap, allowance): (usize, u32, u32),
) -> Ending {
    let Some(cap) = Cap::new(cap) else {
        return Ending::Refused;
    };
    let Some(allowance) = Allowance::new(allowance) else {
        return Ending::Refused;
    };
    match book.search(problem, start, cap, allowance) {
        Ok(found) => Ending::Cost(found.cost.get()),
        Err(SearchFault::Above(_)) => Ending::Above,
        Err(SearchFault::Stopped(raises)) => Ending::Stopped(raises),
    }
}

// Searches a new book.
fn search_new<M: Model, R: Rule>(problem: &Problem<'_, M, R>, limits: (usize, u32, u32)) -> Ending {
    let mut book = Book::new();
    match book.open(problem, &[]) {
        Ok(()) => search(&mut book, problem, limits),
        Err(_) => Ending::Refused,
    }
}

#[test]
fn a_ring_is_searched(rt: HostRuntime) {
    let prices = &priced(&[1, 2, 5]);
    let model = &ring();
    let largest = Problem {
        model,
        rule: &Largest,
        prices,
    };
    let sum = Problem {
        model,
        rule: &Sum,
        prices,
    };
    let cases = [
        ((0, 11, 1000), Ending::Cost(11)),
        ((0, 10, 1000), Ending::Above),
        ((1, 9, 1000), Ending::Cost(9)),
        ((2, 4, 1000), Ending::Cost(4)),
        ((2, 3, 1000), Ending::Above),
        ((3, 1_000_000_000, 1000), Ending::Above),
        ((0, 11, 1), Ending::Stopped(1)),
    ];
    for (limits, ending) in cases {
        assert_eq!(rt; search_new(&largest, limits), ending);
    }
    assert_eq!(rt; search_new(&sum, (0, 15, 1000)), Ending::Cost(15));
    assert_eq!(rt; search_new(&sum, (0, 14, 1000)), Ending::Above);
}

#[test]
fn valves_are_searched(rt: HostRuntime) -> Result<(), Fail> {
    let model = ValveModel::new(&[0; 4], &TESTS)?;
    let prices = &priced(&[3, 2, 1]);
    let limits = (15, 100, 1000);
    let largest = Problem {
        model: &model,
        rule: &Largest,
        prices,
    };
    let sum = Problem {
        model: &model,
        rule: &Sum,
        prices,
    };
    assert_eq!(rt; search_new(&largest, limits), Ending::Cost(5));
    assert_eq!(rt; search_new(&sum, limits), Ending::Cost(6));
    Ok(())
}

// A model that does not open: its first state has 257 actions, of which only the last is cheap.
#[test]
fn an_action_whose_number_cannot_be_kept_is_not_followed(rt: HostRuntime) {
    let mut actions = [rows::action(1, 1, 1); 258];
    actions[256] = rows::action(0, 0, 1);
    actions[257] = rows::action(0, 1, 1);
    let states = [rows::opened(0, 257), rows::opened(257, 1), StateRow::End(0)];
    let model = TableModel {
        states: &states,
        actions: &actions,
        outcomes: &[1, 2],
    };
    let problem = Problem {
        model: &model,
        rule: &Largest,
        prices: &priced(&[1, 5]),
    };
    let mut book = Book::new();
    assert_eq!(rt; book.open(&problem, &[]), Ok(()));
    assert_eq!(rt;
        search(&mut book, &problem, (0, 1000, 100)),
        Ending::Stopped(1)
    );
    assert_eq!(rt; (book.bound(0).get(), book.is_planned(1)), (1, false));
}

// What opening a book of the ring with estimates answers.
fn opened(estimates: &[u32]) -> Result<(), EstimateFault> {
    let problem = Problem {
        model: &ring(),
        rule: &Largest,
        prices: &priced(&[1, 2, 5]),
    };
    Book::new().open(&problem, estimates)
}

#[test]
fn estimates_keep_their_rule(rt: HostRuntime) {
    assert_eq!(rt; opened(&[]), Ok(()));
    assert_eq!(rt; opened(&[11, 9, 4, Cost::ROOF]), Ok(()));
    assert_eq!(rt; opened(&[0, 0, 4, 0]), Ok(()));
    assert_eq!(rt; opened(&[12, 9, 4, 0]), Err(EstimateFault::Estimate(0)));
    assert_eq!(rt; opened(&[11, 9, 3, 0]), Err(EstimateFault::Estimate(1)));
    assert_eq!(rt; opened(&[0, 0, 3, 0]), Err(EstimateFault::Estimate(2)));
    assert_eq!(rt; opened(&[11, 9, 4]), Err(EstimateFault::Length(3)));
    assert_eq!(rt;
        opened(&[11, 9, 4, 1_000_000_002]),
        Err(EstimateFault::Estimate(3))
    );
}

// Searches one book from every state of a model, and compares with the best costs.
fn check_searches<M: Model, R: Rule>(rt: &impl Abort, model: &M, rule: &R) -> Result<(), Fail> {
    let problem = Problem {
        model,
        rule,
        prices: &priced(&[1, 2, 5, 3]),
    };
    let mut costs = [Cost::new(0); 5];
    problem.best_costs(&mut costs)?;
    let mut book = Book::new();
    assert_eq!(rt; book.open(&problem, &[]).is_ok(), true);
    for start in 0..model.states() {
        let best = told(&costs, start);
        let ending = if best <= 200 {
            Ending::Cost(best)
        } else {
            Ending::Above
        };
        assert_eq!(rt; search(&mut book, &problem, (start, 200, 100_000)), ending);
    }
    Ok(())
}

#[test]
fn searches_of_drawn_models_tell_best_costs(rt: HostRuntime) -> Result<(), Fail> {
    for seed in 0..1_000 {
        let tables = draw_tables(seed);
        check_searches(&rt, &tables.model(), &Largest)?;
        check_searches(&rt, &tables.model(), &Sum)?;
    }
    Ok(())
}
