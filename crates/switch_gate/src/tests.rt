//! What no clause says: that the calls come back, in one thread and in three at once.
ghost use Rattle.std.specs.Prelude.{◌≡◌, ◌+◌};
ghost use Rattle.std.specs.Thread.{IsSync};
ghost use Rattle.switch_gate.specs.Passes.{parts_of, IsPassOf};

use crate::{Gate, Numbered, Pass};
use std::sync::Wait;
use std::test::Fail;
use std::thread::{Threads, join};

const EACH: u64 = 1000;

/// A count, whose number it is.
#[derive(Drop)]
struct Counter {
    count: u64,
}

impl Numbered for Counter {
    type Lineage = ();

    ghost number = { λ c. c.count };

    ghost lineage = { λ _. tt };

    fn number(&self) -> u64 {
        self.count
    }
}

// Counts up by one in a session.
fn count_up<R: Wait>(rt: &R, gate: &Gate<Counter>, pass: Pass<Counter>) -> Pass<Counter>
    requires { IsPassOf gate.now pass }
    ensures { IsPassOf gate.now result × (parts_of result ≡ parts_of pass) }
{
    let mut held = gate.take(rt, pass);
    let counter = held.value_mut();
    counter.count = counter.count.saturating_add(1);
    gate.give(held)
}

// Counts up by `EACH`, one in a session.
fn count_each<R: Wait>(rt: &R, gate: &Gate<Counter>, mut pass: Pass<Counter>) -> Pass<Counter>
    requires { IsPassOf gate.now pass }
    ensures { IsPassOf gate.now result × (parts_of result ≡ parts_of pass) }
{
    for _ in 0..EACH {
        pass = count_up(rt, gate, pass);
    }
    pass
}

fn count_in_two<R: Threads + Wait + Sync>(
    rt: &R,
    gate: &Gate<Counter>,
    first: Pass<Counter>,
    second: Pass<Counter>,
) -> Pass<Counter>
    requires { IsPassOf gate.now first × IsPassOf gate.now second }
    ensures { IsPassOf gate.now result × (parts_of result ≡ parts_of first + parts_of second) }
{
    let (first, second) = join(
        rt,
        move || -> Pass<Counter>
            requires { IsPassOf gate.now first }
            ensures { IsPassOf gate.entry.now result × (parts_of result ≡ parts_of first) }
        { count_each(rt, gate, first) },
        move || -> Pass<Counter>
            requires { IsPassOf gate.now second }
            ensures { IsPassOf gate.entry.now result × (parts_of result ≡ parts_of second) }
        { count_each(rt, gate, second) },
    );
    gate.join(first, second)
}

fn count_in_three<R: Threads + Wait + Sync>(
    rt: &R,
    gate: &Gate<Counter>,
    pass: Pass<Counter>,
) -> Pass<Counter>
    requires { IsPassOf gate.now pass × (parts_of pass ≡ 3) }
    ensures { IsPassOf gate.now result × (parts_of result ≡ 3) }
{
    let Ok((first, pass)) = gate.split(pass, 2) else {
        unreachable!()
    };
    let Ok((second, third)) = gate.split(pass, 1) else {
        unreachable!()
    };
    let (first, others) = join(
        rt,
        move || -> Pass<Counter>
            requires { IsPassOf gate.now first }
            ensures { IsPassOf gate.entry.now result × (parts_of result ≡ parts_of first) }
        { count_each(rt, gate, first) },
        move || -> Pass<Counter>
            requires { IsSync R.row × IsPassOf gate.now second × IsPassOf gate.now third }
            ensures { IsPassOf gate.entry.now result × (parts_of result ≡ parts_of second + parts_of third) }
        { count_in_two(rt, gate, second, third) },
    );
    gate.join(first, others)
}

#[test]
fn counts_to_three_thousand_in_three_threads(rt: HostRuntime) -> Result<(), Fail> {
    let Ok((gate, pass)) = Gate::new(rt.alloc(), Counter { count: 0 }, 3) else {
        panic!(rt; "no memory")
    };
    let pass = count_in_three(&rt, &gate, pass);
    let Ok(counter) = gate.close(pass) else {
        panic!(rt; "no memory")
    };
    assert_eq!(rt; counter.count, 3 * EACH);
    Ok(())
}

#[test]
fn gives_what_was_written(rt: HostRuntime) -> Result<(), Fail> {
    let Ok((gate, pass)) = Gate::new(rt.alloc(), Counter { count: 0 }, 2) else {
        panic!(rt; "no memory")
    };
    let Ok((first, second)) = gate.split(pass, 1) else {
        panic!(rt; "no memory")
    };
    let mut held = gate.take(&rt, first);
    let count = held.value().number();
    held.value_mut().count = count.saturating_add(7);
    let first = gate.give(held);
    let second = count_up(&rt, &gate, second);
    let pass = gate.join(second, first);
    let Ok(counter) = gate.close(pass) else {
        panic!(rt; "no memory")
    };
    assert_eq!(rt; counter.count, 8);
    Ok(())
}
