//! The log of a run.
ghost use Rattle.std.specs.Prelude.{◌≡◌, [], ◌∷◌, ◌++◌, ◌-◌, length, take, option_to_list, slice_get, OnOk, OnErr};
ghost use Rattle.lp_model.specs.Log.{is_move, moves};

use lp_model::Entry;
use no_memory::Memory;
use std::alloc::Global;
use std::marker::Model;

/// The entries of a run, in their order.
#[derive(Debug, Drop)]
pub struct Log {
    entries: Vec<Entry>,
    move_count: u64,
}

impl Model for Log {
    ghost use Rattle.std.specs.Prelude.{◌≡◌, List};
    ghost use Rattle.lp_model.specs.declared.Entry.{Entry};
    ghost use Rattle.lp_model.specs.Log.{moves};

    ghost Value = { List Entry };

    ghost view = { λ log. log.entries.items };

    ghost invariant = { λ log. log.move_count ≡ moves log.entries.items };
}

impl Log {
    /// A log without entries.
    pub fn new(alloc: Global) -> Log
        ensures { result ≡ [] }
    {
        Log {
            entries: Vec::new(alloc),
            move_count: 0,
        }
    }

    /// Puts an entry at the end.
    ///
    /// # Errors
    ///
    /// `Memory` for want of memory. The log is then as it was.
    pub fn push(&mut self, entry: Entry) -> Result<(), Memory>
        ensures ok { OnOk result (self.new ≡ self.old ++ entry ∷ []) }
        ensures err { OnErr result (self.new ≡ self.old) }
    {
        self.entries.push(entry)?;
        if is_move(entry) {
            let len = self.entries.len();
            prove!(self.move_count < len as u64);
            self.move_count += 1;
        }
        Ok(())
    }

    /// Takes the last entry off, where there is one.
    pub fn pop(&mut self) -> Option<Entry>
        ensures entry { self.old ≡ self.new ++ option_to_list result }
        ensures rest { self.new ≡ take (length self.old - 1) self.old }
    {
        let entry = self.entries.pop();
        if let Some(entry) = entry {
            if is_move(entry) {
                self.move_count -= 1;
            }
        }
        entry
    }

    /// How many entries there are.
    pub fn len(&self) -> usize
        ensures { result ≡ length self.now }
    {
        self.entries.len()
    }

    /// The entry at this index, which is `None` past the end.
    pub fn get(&self, k: usize) -> Option<Entry>
        ensures { result ≡ slice_get self.now k }
    {
        self.entries.get(k).copied()
    }

    /// All entries.
    pub fn entries(&self) -> &[Entry]
        ensures { result.now ≡ self.now }
    {
        &self.entries
    }

    /// How many of the entries are flips and swaps.
    pub fn moves(&self) -> u64
        ensures { result ≡ moves self.now }
    {
        self.move_count
    }
}

// Whether an entry is a flip or a swap.
fn is_move(entry: Entry) -> bool
    ensures { result ≡ is_move entry }
{
    match entry {
        Entry::Flip(_) | Entry::Swap(..) => true,
        Entry::Turn => false,
    }
}
