ghost use Rattle.std.specs.Prelude.{◌≡◌, ◌<◌, ◌≤◌, ◌↔◌, [], length, drop, IfOk, IfSome, IsTrue, OnOk, OnErr};
ghost use Rattle.io_ends.specs.Bytes.{Gives};
ghost use Rattle.io_ends.specs.Count.{Rose};

use io_ends::{Failed, Source};
use std::alloc::{AllocError, Global};
use std::marker::Model;

/// How many bytes a read asks for.
const READ_SIZE: usize = 4096;

/// The bytes that were read and not yet handed out.
#[derive(Debug, Drop)]
pub(crate) struct Ahead {
    buffer: Vec<u8>,
    start: usize,
    end: usize,
}

impl Model for Ahead {
    ghost use Rattle.std.specs.Prelude.{List, ℕ, ◌≡◌, ◌-◌, ◌≤◌, slice_range, vec_len};

    ghost Value = { List ℕ };

    ghost view = { λ a. slice_range a.buffer.items a.start a.end };

    ghost invariant = { λ a. (a.start ≤ a.end) × (a.end ≤ 4096) × (vec_len a.buffer ≡ 4096) };
}

impl Ahead {
    /// No bytes yet.
    pub(crate) fn new(alloc: Global) -> Result<Ahead, AllocError>
        ensures { IfOk result (λ ahead. ahead ≡ []) }
    {
        Ok(Ahead {
            buffer: vec![in alloc; 0; READ_SIZE]?,
            start: 0,
            end: 0,
        })
    }

    /// The bytes.
    pub(crate) fn bytes(&self) -> &[u8]
        ensures { result.now ≡ self.now }
    {
        &self.buffer[self.start..self.end]
    }

    /// Hands out the first bytes.
    #[tactic(auto, using(crate::proofs::AheadLemmas::ahead))]
    pub(crate) fn skip(&mut self, count: usize)
        requires { count ≤ length self.old }
        ensures { self.new ≡ drop count self.old }
    {
        self.start += count;
    }

    /// Lets all bytes go.
    pub(crate) fn clear(&mut self)
        ensures { self.new ≡ [] }
    {
        self.start = 0;
        self.end = 0;
    }

    /// Reads the next bytes, once all are handed out, and says whether any came.
    pub(crate) fn fill<S: Source>(&mut self, source: &mut S) -> Result<bool, Failed>
        requires { self.old ≡ [] }
        ensures given { OnOk result (Gives (S.remaining source.old) (S.remaining source.new) self.new) }
        ensures few { OnOk result (length self.new ≤ 4096) }
        ensures more { IfOk result (λ more. IsTrue more ↔ (0 < length self.new)) }
        ensures end { OnOk result (self.new ≡ [] → IfSome (S.remaining source.old) (λ left. left ≡ [])) }
        ensures stays { OnOk result (S.fault_count source.new ≡ S.fault_count source.old) }

        ensures kept { OnErr result (S.remaining source.new ≡ S.remaining source.old) }
        ensures rose { OnErr result (Rose (S.fault_count source.old) (S.fault_count source.new)) }
        ensures never_falls { S.fault_count source.old ≤ S.fault_count source.new }
    {
        self.start = 0;
        self.end = 0;
        self.end = source.read(&mut self.buffer)?;
        Ok(self.end > 0)
    }
}
