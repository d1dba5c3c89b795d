// What the command answers on examples.
use super::run;
use std::alloc::{AllocError, Global};
use std::test::Fail;

// An input, and the lines that it is answered by or the line that says why there are none.
const CASES: [(&str, &str); 19] = [
    (
        "candidates 4 repair 0 0 0 0 test 0 3 test 1 5 test 2 1 state 15 state 10 price 0 3 price 1 2 price 2 1 best largest best sum",
        "state 15 open\ntest 0 task 0 -> 3 12\ntest 1 task 1 -> 5 10\ntest 2 task 2 -> 1 14\nstate 10 open\ntest 0 task 0 -> 2 8\ntest 1 barred\ntest 2 barred\nbest largest state 15 5\nbest largest state 10 3\nbest sum state 15 6\nbest sum state 10 3\n",
    ),
    (
        "candidates 2 repair 5 7 test 63 1 test 0 3 state 0 state 2 state 3",
        "state 0 end 0\nstate 2 end 7\nstate 3 open\ntest 0 task 63 -> 1 2\ntest 1 barred\n",
    ),
    ("", "expected the word 'candidates', but the input ended"),
    (
        "candidates two",
        "expected the number of candidates, but 'two' came",
    ),
    (
        "candidates 2 repair 5 7 state 0 test 0 1",
        "expected the word 'state', 'price' or 'best', but 'test' came",
    ),
    (
        "candidates 2 repair 5 7 tset 0 1",
        "expected the word 'test', 'state', 'price' or 'best', but 'tset' came",
    ),
    (
        "candidates 2 repair 5 7 test 0 1 state 3 best sum price 0 3 best sum best largest",
        "state 3 open\ntest 0 task 0 -> 1 2\nbest sum state 3 13\nbest sum state 3 15\nbest largest state 3 10\n",
    ),
    (
        "candidates 2 repair 5 7 test 0 3 state 3 state 2 best largest",
        "state 3 open\ntest 0 barred\nstate 2 end 7\nbest largest state 3 roof\nbest largest state 2 7\n",
    ),
    (
        "candidates 2 repair 5 7 test 0 1 best sum state 3",
        "expected the word 'price' or 'best', but 'state' came",
    ),
    (
        "candidates 2 repair 5 7 test 0 1 price 64 1",
        "expected the task of a price, a number up to 63, but '64' came",
    ),
    (
        "candidates 2 repair 5 7 test 0 1 price 0 0",
        "expected a price, a number from 1 to 10000, but '0' came",
    ),
    (
        "candidates 2 repair 5 7 test 0 1 price 0 10001",
        "expected a price, a number from 1 to 10000, but '10001' came",
    ),
    (
        "candidates 2 repair 5 7 test 0 1 best most",
        "expected the rule 'largest' or 'sum', but 'most' came",
    ),
    (
        "candidates 2 repair 5 7 test 256 1",
        "expected the task of a test, a number up to 255, but '256' came",
    ),
    (
        "candidates 2 repair 5 7 test 0 1 state 4",
        "state 4: there are only 4 states, numbered from 0",
    ),
    (
        "candidates 1 repair 5 test 0 1",
        "refused 27 1 (number of candidates not from 2 to 12)",
    ),
    (
        "candidates 2 repair 5 7",
        "refused 27 0 (number of tests not from 1 to 16)",
    ),
    (
        "candidates 2 repair 5 7 test 0 1 test 0 4",
        "refused 27 1 (test with a task over 63, or with a candidate in its set that is not there)",
    ),
    (
        "candidates 2 repair 1000001 7 test 0 1",
        "refused 27 0 (candidate with a repair cost over 1000000)",
    ),
];

fn said(heap: Global, text: &str) -> Result<String, AllocError> {
    match run(heap, text) {
        Ok(lines) => Ok(lines),
        Err(failure) => failure.to_string(heap),
    }
}

#[test]
fn says_what_is_expected(rt: HostRuntime) -> Result<(), Fail> {
    for (text, line) in CASES {
        assert_eq!(rt; said(rt.alloc(), text)?.as_str(), line);
    }
    Ok(())
}
