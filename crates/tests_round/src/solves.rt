// Solves whose tickets are priced by seats.
ghost use Rattle.std.specs.Prelude.{◌≤◌, IfOk};
ghost use Rattle.lp_run.specs.Listing.{StartFits};

use crate::orders::seventy;
use crew::{Closed, Probe, Silent, Spot, solve, solve_alone};
use exact_frac::Full127;
use instance_model::Instance;
use std::alloc::Global;
use std::sync::Arc;
use std::sync::atomic::{AtomicBool, AtomicU64, Ordering};
use std::test::Fail;
use std::thread::Threads;

/// How many moves a run may have.
const BUDGET: u64 = 1_000;

/// How often a held thread looks whether it may go on.
const TURNS: u32 = 100_000_000;

/// Holds the first claim of chunk 0 until chunk 1 was offered.
#[derive(Drop)]
struct Holding {
    claimed: AtomicBool,
    offered: AtomicBool,
    seen: AtomicBool,
}

impl Holding {
    fn new() -> Holding {
        Holding {
            claimed: AtomicBool::new(false),
            offered: AtomicBool::new(false),
            seen: AtomicBool::new(false),
        }
    }

    // Waits at the first call.
    fn hold(&self) {
        if self.claimed.swap(true, Ordering::SeqCst) {
            return;
        }
        for _ in 0..TURNS {
            if self.offered.load(Ordering::SeqCst) {
                self.seen.store(true, Ordering::SeqCst);
                return;
            }
        }
    }
}

impl Probe for Holding {
    fn at(&self, spot: Spot, _number: u64) {
        match spot {
            Spot::Claimed(0) => self.hold(),
            Spot::Offered(1) => self.offered.store(true, Ordering::SeqCst),
            _ => {}
        }
    }
}

/// Counts the choices, the claims and the offers of a solve.
#[derive(Drop)]
struct Counting {
    choices: AtomicU64,
    claims: AtomicU64,
    offers: AtomicU64,
}

impl Counting {
    fn new() -> Counting {
        Counting {
            choices: AtomicU64::new(0),
            claims: AtomicU64::new(0),
            offers: AtomicU64::new(0),
        }
    }

    // The counts so far.
    fn told(&self) -> (u64, u64, u64) {
        (
            self.choices.load(Ordering::SeqCst),
            self.claims.load(Ordering::SeqCst),
            self.offers.load(Ordering::SeqCst),
        )
    }
}

impl Probe for Counting {
    fn at(&self, spot: Spot, _number: u64) {
        let count = match spot {
            Spot::Driver => &self.choices,
            Spot::Claimed(_) => &self.claims,
            Spot::Offered(_) => &self.offers,
        };
        count.fetch_add(1, Ordering::SeqCst);
    }
}

// Seventy columns, each alone in its row.
fn instance(alloc: Global) -> Result<Arc<Instance>, Fail>
    ensures { IfOk result (λ inst. StartFits 127 inst.value) }
{
    let inst = Instance::of(alloc, &seventy(alloc)?, &mut Full127::new())?;
    Ok(Arc::new(alloc, inst)?)
}

// The same solved by so many workers.
fn by_seats<R: Threads + Sync, P: Probe>(
    rt: &R,
    alloc: Global,
    workers: u32,
    probe: &P,
) -> Result<Closed, Fail>
    requires { 1 ≤ workers }
{
    let inst = instance(alloc)?;
    Ok(solve(rt, alloc, inst, workers, BUDGET, &mut Full127::new(), probe)?)
}

// The same on one thread.
fn alone<R: Threads + Sync>(rt: &R, alloc: Global) -> Result<Closed, Fail> {
    Ok(solve_alone(rt, alloc, instance(alloc)?, BUDGET, &mut Full127::new())?)
}

#[test]
fn a_chunk_is_offered_while_an_earlier_one_is_held(rt: HostRuntime) -> Result<(), Fail> {
    let probe = Holding::new();
    let closed = by_seats(&rt, rt.alloc(), 2, &probe)?;
    assert!(rt;
        probe.seen.load(Ordering::SeqCst),
        "chunk 1 was not offered meanwhile"
    );
    assert_eq!(rt; closed.moves, 70);
    Ok(())
}

#[test]
fn three_seats_log_what_one_thread_does(rt: HostRuntime) -> Result<(), Fail> {
    let closed = by_seats(&rt, rt.alloc(), 3, &Silent)?;
    let single = alone(&rt, rt.alloc())?;
    assert_eq!(rt; closed.moves, 70);
    assert_eq!(rt; closed.log.entries(), single.log.entries());
    Ok(())
}

#[test]
fn each_claimed_chunk_is_offered(rt: HostRuntime) -> Result<(), Fail> {
    let probe = Counting::new();
    let closed = by_seats(&rt, rt.alloc(), 4, &probe)?;
    // 210 columns are 4 chunks, and each of 70 swaps and the last choice is recorded.
    assert_eq!(rt; closed.moves, 70);
    assert_eq!(rt; probe.told(), (71, 284, 284));
    Ok(())
}
