ghost use Rattle.std.specs.Prelude.{◌≡◌, ℕ, ◌<◌, ◌≤◌, ◌↔◌, List, [], Option, length, take, IfOk, IfSome, OnOk, OnErr};
ghost use Rattle.io_ends.specs.Bytes.{Gives, Appends, AppendsPrefix};
ghost use Rattle.io_ends.specs.Count.{Rose};

use crate::refusals::Failed;

/// Where bytes come from.
pub trait Source {
    /// The bytes that reads will give from here on, where the source tells them.
    ghost remaining: { Self → Option (List ℕ) };

    /// How many reads failed so far.
    ghost fault_count: { Self → ℕ };

    /// Puts the next bytes at the front of `into` and returns how many, which is 0 at the end of the input.
    ///
    /// Of the rest of `into` a caller knows only that its length stays, and so of the whole of it after an error.
    ///
    /// # Errors
    ///
    /// `Failed` where the source could not read. It has then given no byte, and its count of faults rose.
    fn read(&mut self, into: &mut [u8]) -> Result<usize, Failed>
        requires { 0 < length into.old }
        ensures within { IfOk result (λ k. k ≤ length into.new) }
        ensures given { IfOk result (λ k. Gives (remaining self.old) (remaining self.new) (take k into.new)) }
        ensures end { IfOk result (λ k. IfSome (remaining self.old) (λ left. k ≡ 0 ↔ (left ≡ []))) }
        ensures stays { OnOk result (fault_count self.new ≡ fault_count self.old) }

        ensures kept { OnErr result (remaining self.new ≡ remaining self.old) }
        ensures rose { OnErr result (Rose (fault_count self.old) (fault_count self.new)) }
        ensures never_falls { fault_count self.old ≤ fault_count self.new };

    /// How many reads failed so far, up to `u64::MAX`.
    fn faults(&self) -> u64
        ensures { result ≡ fault_count self.now };
}

/// Where bytes go.
pub trait Sink {
    /// The bytes that the sink holds, where it tells them.
    ghost contents: { Self → Option (List ℕ) };

    /// How many writes failed so far.
    ghost fault_count: { Self → ℕ };

    /// Takes the first bytes of `piece`, at least one of them, and returns how many.
    ///
    /// # Errors
    ///
    /// `Failed` where the sink took nothing. It holds what it held, and its count of faults rose.
    fn write(&mut self, piece: &[u8]) -> Result<usize, Failed>
        requires { 0 < length piece.now }
        ensures some { IfOk result (λ k. 0 < k) }
        ensures within { IfOk result (λ k. k ≤ length piece.now) }
        ensures appended { IfOk result (λ k. Appends (contents self.old) (contents self.new) (take k piece.now)) }
        ensures stays { OnOk result (fault_count self.new ≡ fault_count self.old) }

        ensures kept { OnErr result (contents self.new ≡ contents self.old) }
        ensures rose { OnErr result (Rose (fault_count self.old) (fault_count self.new)) }
        ensures never_falls { fault_count self.old ≤ fault_count self.new };

    /// How many writes failed so far, up to `u64::MAX`.
    fn faults(&self) -> u64
        ensures { result ≡ fault_count self.now };
}

/// Writes a whole piece: what the sink did not take is handed on to it again.
///
/// # Errors
///
/// `Failed` at the first write that failed. The sink then holds the bytes of the piece that it had taken before, and its
/// count of faults rose.
#[tactic(auto, using(crate::proofs::BytesLemmas::handed_on))]
pub fn write_all<K: Sink>(sink: &mut K, piece: &[u8]) -> Result<(), Failed>
    ensures appended { OnOk result (Appends (K.contents sink.old) (K.contents sink.new) piece.now) }
    ensures stays { OnOk result (K.fault_count sink.new ≡ K.fault_count sink.old) }

    ensures part { OnErr result (AppendsPrefix (K.contents sink.old) (K.contents sink.new) piece.now) }
    ensures rose { OnErr result (Rose (K.fault_count sink.old) (K.fault_count sink.new)) }
    ensures never_falls { K.fault_count sink.old ≤ K.fault_count sink.new }
{
    let mut done = 0;
    while done < piece.len() {
        done += sink.write(&piece[done..])?;
    }
    Ok(())
}
