//! Decimal numbers.

use mc_base::read_decimal;
use std::process::Abort;

/// A text, and where it is a number whether it is negative, and its billionths.
type Case = (&'static [u8], Option<(bool, u64)>);

fn number(text: &[u8]) -> Option<(bool, u64)> {
    let found = read_decimal(text)?;
    Some((found.negative, found.billionths))
}

fn each_is_read(rt: &impl Abort, cases: &[Case]) {
    for (text, wanted) in cases {
        assert!(rt; number(text) == *wanted);
    }
}

const TEXTS: [Case; 17] = [
    (b"12.5", Some((false, 12_500_000_000))),
    (b".5", Some((false, 500_000_000))),
    (b"-0", Some((true, 0))),
    (b"+2", Some((false, 2_000_000_000))),
    (b"-1.0000000019", Some((true, 1_000_000_001))),
    (b"007.250", Some((false, 7_250_000_000))),
    (b"99999999999", Some((false, 999_999_999_000_000_000))),
    (b"1000000000.25", Some((false, 999_999_999_250_000_000))),
    (b"", None),
    (b"1.", None),
    (b"1e3", None),
    (b"+", None),
    (b".", None),
    (b"-.", None),
    (b"--1", None),
    (b"1.2.3", None),
    (b" 1", None),
];

#[test]
fn decimals_are_read_and_other_texts_are_not(rt: HostRuntime) {
    each_is_read(&rt, &TEXTS)
}
