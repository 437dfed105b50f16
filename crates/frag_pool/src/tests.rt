//! Regions of fragments.

use crate::{Mark, Pool};
use mc_base::{FragId, Node};

#[test]
fn a_promoted_fragment_is_kept(rt: HostRuntime) {
    let mut pool = Pool::new(rt.alloc());
    let Ok(atom) = pool.add(Node::Atom { item: 3, y: 5 }) else {
        panic!(rt; "no memory for a trial node");
    };
    assert_eq!(rt; atom, FragId::Trial(0));
    assert_eq!(rt; pool.promote(atom), Ok(FragId::Kept(0)));
    pool.release(&Mark { trial: 0 });
    let Ok(kept) = pool.keep(Node::Atom { item: 4, y: 6 }) else {
        panic!(rt; "no memory for a kept node");
    };
    assert_eq!(rt; kept, FragId::Kept(1));
    assert_eq!(rt; pool.mark(), Mark { trial: 0 });
}
