// Rounds of pricing. The columns are 10,000, of which 9,800 have ten entries each in 100 rows, and a ticket has a price for each row. The first seat prices
// its first chunk before any thread is started. Where it finds a stopper there, the other chunks need none, and the seats go on one after the other; else
// each goes on in a thread.
use crate::round::columns::{Stopper, instance};
use crate::round::rounds::{Pricing, fastest};
use bland_ratio::Choice;
use std::alloc::Global;
use std::thread::Threads;
use std::time::Clock;

mod columns;
mod rounds;

/// Who prices (`alone`, or how many seats), which of the columns is the first stopper, and how many times.
#[derive(Clone, Copy)]
pub(crate) struct Job {
    pricing: Pricing,
    stopper: Stopper,
    times: u32,
}

/// Who prices, by that word.
fn pricing_of(word: &str) -> Option<Pricing> {
    if word == "alone" {
        return Some(Pricing::Alone);
    }
    match word.parse::<u32>() {
        Ok(seats) if seats > 0 => Some(Pricing::Seats(seats)),
        _ => None,
    }
}

impl Job {
    /// What three words name, where they name all of it.
    pub(crate) fn named(who: &str, place: &str, times: &str) -> Option<Job> {
        Some(Job {
            pricing: pricing_of(who)?,
            stopper: Stopper::of(place)?,
            times: times.parse::<u32>().ok()?,
        })
    }

    /// The choice, and the nanoseconds of the fastest time.
    pub(crate) fn text<R: Threads + Clock + Sync>(
        self,
        rt: &R,
        alloc: Global,
    ) -> Option<(String, u128)> {
        let inst = instance(alloc, self.stopper)?;
        let (choice, time) = fastest(rt, alloc, inst, self.pricing, self.times)?;
        let Choice {
            number,
            stopper,
            unfit,
        } = choice;
        let text = format!(in alloc; "ticket {number}, stopper {stopper:?}, unfit {unfit}\n").ok()?;
        Some((text, time.as_nanos()))
    }
}
