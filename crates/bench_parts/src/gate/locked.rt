// The counter behind a mutex of `std`.

use crate::gate::counter::{Counter, Summary};
use no_memory::Memory;
use std::alloc::Global;
use std::sync::{Mutex, Wait};
use std::thread;
use std::thread::Threads;

// The sessions of one thread.
fn sessions<R: Wait>(rt: &R, counter: &Mutex<Counter>, count: u32) {
    for _ in 0..count {
        counter.lock(rt).step();
    }
}

/// The run with this many threads, of this many sessions each.
pub(crate) fn summary<R: Threads + Wait + Sync>(
    rt: &R,
    alloc: Global,
    threads: u8,
    count: u32,
) -> Result<Summary, Memory> {
    let counter = Mutex::new(Counter::new());
    let shared = &counter;
    thread::map_indices(rt, alloc, threads.into(), &|_| sessions(rt, shared, count))?;
    Ok(counter.into_inner().summary())
}
