// The rounds of a board, one after another: what it works with after each.
ghost use Rattle.std.specs.Prelude.{◌≡◌, ◌≤◌, IfSome};
ghost use Rattle.two_phase.specs.Board.{BoardStands};

use crate::{BUDGET, put_count, put_word};
use bland_ratio::choose;
use deck_model::Deck;
use exact_frac::{Arith, Narrow};
use instance_model::Instance;
use no_memory::Memory;
use std::alloc::Global;
use std::sync::Arc;
use std::thread::Threads;
use two_phase::{Board, BoardFault, Mode, Recorded, Standing};

/// How many rounds are made at most.
const MOST_ROUNDS: u32 = 1_000;

/// The word of what a board works with.
fn mode_word(mode: Mode) -> &'static str {
    match mode {
        Mode::Factors => "FACTORS",
        Mode::Plain => "PLAIN",
    }
}

/// The word of how a board stands.
fn standing_word(standing: Standing) -> &'static str {
    match standing {
        Standing::Running => "RUNNING",
        Standing::Optimal => "OPTIMAL",
        Standing::Infeasible => "INFEASIBLE",
        Standing::Unbounded => "UNBOUNDED",
        Standing::Spent => "SPENT",
    }
}

/// Appends the line of a board: the width, its number, its updates, its epoch, its mode and its standing.
fn put_board<A: Arith>(text: &mut Vec<u8>, width: u32, board: &Board<A>) -> Result<(), Memory> {
    let digits = width.to_string(*text.allocator())?;
    text.extend_from_slice(digits.as_bytes())?;
    put_count(text, board.number())?;
    put_count(text, board.updates().into())?;
    put_count(text, board.epoch())?;
    put_word(text, mode_word(board.mode()))?;
    put_word(text, standing_word(board.standing()))?;
    text.push(b'\n')?;
    Ok(())
}

/// The board at the start of a deck's run, where the start fits and memory is left.
fn begin<A: Arith>(alloc: Global, deck: &Deck, arith: &mut A) -> Option<Board<A>>
    ensures board { IfSome result (λ board. BoardStands (A.width board.arith) board × (A.width board.arith ≡ A.width arith.new)) }
    ensures width { A.width arith.new ≡ A.width arith.old }
{
    let inst = Instance::of(alloc, deck, arith).ok()?;
    let inst = Arc::new(alloc, inst).ok()?;
    match Board::new(alloc, inst, BUDGET, arith.fresh()) {
        Ok(board) => Some(board),
        Err(_) => None,
    }
}

/// A round at the board's state.
fn round<R: Threads + Sync, A: Arith>(
    rt: &R,
    alloc: Global,
    board: &mut Board<A>,
    arith: &mut A,
) -> Result<Recorded, BoardFault>
    requires stands { BoardStands (A.width board.old.arith) board.old }
    requires width { A.width board.old.arith ≡ A.width arith.old }
    ensures stands { BoardStands (A.width board.old.arith) board.new }
    ensures board_width { A.width board.new.arith ≡ A.width board.old.arith }
    ensures width { A.width arith.new ≡ A.width arith.old }
{
    let ticket = board.ticket(rt, alloc)?;
    let choice = choose(board.instance(), &ticket, arith);
    let recorded = board.record(rt, alloc, choice)?;
    Ok(recorded)
}

/// Makes rounds until the run does not go on, with a line after each.
fn follow<R: Threads + Sync, A: Arith>(
    rt: &R,
    alloc: Global,
    width: u32,
    board: &mut Board<A>,
    arith: &mut A,
    text: &mut Vec<u8>,
) -> Option<()>
    requires stands { BoardStands (A.width board.old.arith) board.old }
    requires width { A.width board.old.arith ≡ A.width arith.old }
{
    for _ in 0..MOST_ROUNDS {
        round(rt, alloc, board, arith).ok()?;
        put_board(text, width, board).ok()?;
        if board.standing() != Standing::Running {
            return Some(());
        }
    }
    None
}

/// The lines of the rounds of a deck's run at a width, where no call on the board is refused.
pub(crate) fn rounds<R: Threads + Sync>(
    rt: &R,
    alloc: Global,
    deck: &Deck,
    width: u32,
) -> Option<Vec<u8>>
    requires some { 1 ≤ width }
    requires few { width ≤ 127 }
{
    let mut text = Vec::new(alloc);
    let mut arith = Narrow::new(width);
    let mut board = begin(alloc, deck, &mut arith)?;
    follow(rt, alloc, width, &mut board, &mut arith, &mut text)?;
    Some(text)
}
