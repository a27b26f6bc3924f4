// A node that takes part in nothing: what a node promises does not contradict itself.
ghost use Rattle.std.specs.Prelude.{◌≡◌, false, nat_le};
ghost use Rattle.node_core.specs.Steps.{taken_fits, is_step_of};
ghost use Rattle.node_core.specs.Outside.{IsOutside, has_no_step, no_step_fits, is_no_server, never_can};

use crate::{Buffered, NodeCore, NodeError};
use plain_types::{Done, Message, Step};
use std::test::Fail;

// It has no step, and stands behind the store.
#[derive(Drop)]
struct Still;

impl NodeCore for Still {
    ghost row = { λ old step taken done new. ⊥ };

    ghost stands = { λ node number clients. IsOutside number clients };

    ghost can = { λ node step. false };

    ghost fits = { λ node step taken. false };

    ghost held = { λ node. record { ever = 0; now = 0 } };

    ghost faults = { λ node. 0 };

    ghost met = { λ node. 0 };

    ghost ended = { λ node. ⊥ };

    ghost takes = { λ node number clients at step mine from. has_no_step number clients at step mine };

    ghost own = { λ node number clients at step can. never_can can (is_step_of clients number step) };

    ghost restarts = { λ node clients at k small. is_no_server clients at (nat_le k 0) };

    ghost fitting = { λ node number clients at step mine taken. no_step_fits number clients at step mine (taken_fits clients step taken) };

    ghost sends = { λ old new number clients at step taken done row. absurd row };

    fn enabled(&self, _step: &Step) -> bool {
        false
    }

    fn act(&mut self, _step: &Step, _taken: Option<Message>) -> Result<Done, NodeError> {
        Err(NodeError::NotEnabled)
    }

    fn buffered(&self) -> Buffered {
        Buffered { ever: 0, now: 0 }
    }
}

#[test]
fn a_still_node_makes_no_step(rt: HostRuntime) -> Result<(), Fail> {
    let mut node = Still;
    assert!(rt; !node.enabled(&Step::Tend));
    let refused = node.act(&Step::Tend, None);
    assert!(rt; matches!(refused, Err(NodeError::NotEnabled)));
    assert_eq!(rt; node.buffered().ever, 0);
    Ok(())
}
