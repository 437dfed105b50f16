//! Places in a flow.

use mc_base::Token;
use std::cmp::Ordering;

#[test]
fn places_are_ordered_number_by_number(rt: HostRuntime) {
    let item = Token::start(rt.alloc(), 2);
    let inner = Token::within(2, &Token::start(rt.alloc(), 5));
    assert_eq!(rt; item.cmp(&inner), Ordering::Less);
}
