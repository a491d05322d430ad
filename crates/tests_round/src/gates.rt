// A gate's passes, taken by turns.
ghost use Rattle.std.specs.Prelude.{◌≡◌};
ghost use Rattle.switch_gate.specs.Passes.{parts_of, IsPassOf};

use std::sync::Wait;
use std::test::Fail;
use switch_gate::{Gate, Numbered, Pass};

/// A count with a mark that no session changes.
#[derive(Drop)]
struct Tally {
    mark: u64,
    count: u64,
}

impl Numbered for Tally {
    type Lineage = u64;

    ghost number = { λ t. t.count };

    ghost lineage = { λ t. t.mark };

    fn number(&self) -> u64 {
        self.count
    }
}

// A session that counts up by one, and what it found.
fn count_up<R: Wait>(rt: &R, gate: &Gate<Tally>, pass: Pass<Tally>) -> (u64, Pass<Tally>)
    requires { IsPassOf gate.now pass }
    ensures gate { IsPassOf gate.now result.1 }
    ensures parts { parts_of result.1 ≡ parts_of pass }
{
    let mut held = gate.take(rt, pass);
    let tally = held.value_mut();
    let found = tally.count;
    tally.count = found.saturating_add(1);
    (found, gate.give(held))
}

#[test]
fn a_split_pass_sees_what_the_first_one_counted(rt: HostRuntime) -> Result<(), Fail> {
    let Ok((gate, pass)) = Gate::new(rt.alloc(), Tally { mark: 7, count: 0 }, 2) else {
        panic!(rt; "no memory")
    };
    let (first, pass) = count_up(&rt, &gate, pass);
    let Ok((pass, other)) = gate.split(pass, 1) else {
        panic!(rt; "no memory")
    };
    let (second, other) = count_up(&rt, &gate, other);
    assert_eq!(rt; (first, second), (0, 1));
    let pass = gate.join(pass, other);
    let Ok(tally) = gate.close(pass) else {
        panic!(rt; "no memory")
    };
    assert_eq!(rt; (tally.mark, tally.count), (7, 2));
    Ok(())
}
