// The basis that a run ends with.
ghost use Rattle.std.specs.Prelude.{◌≡◌, IfOk};
ghost use Rattle.instance_model.specs.Basis.{basis_of};
ghost use Rattle.lp_run.specs.Instance.{IsWellFormed};
ghost use Rattle.lp_run.specs.Run.{IsRun};
ghost use Rattle.lp_run.specs.State.{State};
ghost use Rattle.plain_table.specs.Answers.{IsRunLog};
ghost use Rattle.lp_main.specs.Solves.{told};

use deck_model::{Basis, Log};
use instance_model::{Instance, basis_of};
use no_memory::Memory;
use std::alloc::Global;

/// The basis of the state that the run of a log comes to, where a report of this version tells one.
pub fn told_basis(
    alloc: Global,
    version: u32,
    inst: &Instance,
    log: &Log,
) -> Result<Option<Basis>, Memory>
    requires formed { IsWellFormed inst.now }
    requires run { IsRunLog inst.now log.now }
    ensures { IfOk result (λ basis. (s : State) × IsRun inst.now log.now s × (basis ≡ told version s)) }
{
    match version {
        2 => Ok(Some(last_basis(alloc, inst, log)?)),
        _ => Ok(None),
    }
}

/// The basis of the state that the run of a log comes to.
fn last_basis(alloc: Global, inst: &Instance, log: &Log) -> Result<Basis, Memory>
    requires formed { IsWellFormed inst.now }
    requires run { IsRunLog inst.now log.now }
    ensures { IfOk result (λ basis. (s : State) × IsRun inst.now log.now s × (basis ≡ basis_of s)) }
{
    let mut state = inst.start(alloc)?;
    let entries = log.entries();
    for k in 0..entries.len() {
        state.after(entries[k]);
    }
    basis_of(alloc, &state)
}
