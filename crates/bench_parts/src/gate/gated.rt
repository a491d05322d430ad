// The counter behind a gate.
ghost use Rattle.std.specs.Prelude.{◌<◌, IfOk};
ghost use Rattle.std.specs.List.{All};
ghost use Rattle.switch_gate.specs.Passes.{parts_of, IsPassOf};

use crate::gate::counter::{Counter, Summary};
use no_memory::Memory;
use std::alloc::Global;
use std::sync::Wait;
use std::thread;
use std::thread::Threads;
use switch_gate::{Gate, Pass};

// The sessions of one thread.
fn sessions<R: Wait>(
    rt: &R,
    gate: &Gate<Counter>,
    mut pass: Pass<Counter>,
    count: u32,
) -> Pass<Counter>
    requires { IsPassOf gate.now pass }
    ensures { IsPassOf gate.now result }
{
    for _ in 0..count {
        let mut held = gate.take(rt, pass);
        held.value_mut().step();
        pass = gate.give(held);
    }
    pass
}

// Cuts a part for each thread from the pass, which keeps the rest.
fn deal(
    alloc: Global,
    gate: &Gate<Counter>,
    mut pass: Pass<Counter>,
    threads: u8,
) -> Result<(Pass<Counter>, Vec<Pass<Counter>>), Memory>
    requires gate { IsPassOf gate.now pass }
    requires parts { threads < parts_of pass }
    ensures pass { IfOk result (λ dealt. IsPassOf gate.now dealt.0) }
    ensures passes { IfOk result (λ dealt. All (IsPassOf gate.now) dealt.1.items) }
{
    let mut passes = Vec::new(alloc);
    for _ in 0..threads {
        let Ok((rest, one)) = gate.split(pass, 1) else {
            unreachable!()
        };
        passes.push(one)?;
        pass = rest;
    }
    Ok((pass, passes))
}

/// The run with this many threads, of this many sessions each.
pub(crate) fn summary<R: Threads + Wait + Sync>(
    rt: &R,
    alloc: Global,
    threads: u8,
    count: u32,
) -> Result<Summary, Memory> {
    let Ok((gate, pass)) = Gate::new(alloc, Counter::new(), u64::from(threads) + 1) else {
        return Err(Memory);
    };
    let (pass, passes) = deal(alloc, &gate, pass, threads)?;
    let shared = &gate;
    thread::map_vec(
        rt,
        passes,
        &|pass: Pass<Counter>| -> Pass<Counter>
            requires { IsPassOf shared.now pass }
        { sessions(rt, shared, pass, count) },
    )?;
    let held = gate.take(rt, pass);
    let summary = held.value().summary();
    gate.give(held);
    Ok(summary)
}
