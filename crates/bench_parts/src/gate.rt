// The gate of `switch_gate` beside the mutex of `std`. A session takes the lock, steps a counter with its checksum, and gives the lock back.
use crate::gate::counter::Summary;
use no_memory::Memory;
use std::alloc::Global;
use std::sync::Wait;
use std::thread::Threads;

mod counter;
mod gated;
mod locked;

/// What guards the counter.
#[derive(Clone, Copy)]
enum Lock {
    Gate,
    Mutex,
}

/// A run: its lock, how many threads use it, and how many sessions each makes.
#[derive(Clone, Copy)]
pub(crate) struct Job {
    lock: Lock,
    threads: u8,
    sessions: u32,
}

impl Job {
    /// What three words name, where they name all of it.
    pub(crate) fn named(lock: &str, threads: &str, sessions: &str) -> Option<Job> {
        let lock = match lock {
            "gate" => Lock::Gate,
            "mutex" => Lock::Mutex,
            _ => return None,
        };
        Some(Job {
            lock,
            threads: threads.parse::<u8>().ok()?,
            sessions: sessions.parse::<u32>().ok()?,
        })
    }

    fn summary<R: Threads + Wait + Sync>(self, rt: &R, alloc: Global) -> Result<Summary, Memory> {
        match self.lock {
            Lock::Gate => gated::summary(rt, alloc, self.threads, self.sessions),
            Lock::Mutex => locked::summary(rt, alloc, self.threads, self.sessions),
        }
    }

    /// The count and the checksum at the end.
    pub(crate) fn text<R: Threads + Wait + Sync>(self, rt: &R, alloc: Global) -> Option<String> {
        let Summary { count, checksum } = self.summary(rt, alloc).ok()?;
        format!(in alloc; "{count} sessions, checksum {checksum:016x}\n").ok()
    }
}
