ghost use Rattle.std.specs.Prelude.{◌≡◌, ◌≤◌, ◌++◌, ◌||◌, take, length, vec_len, nat_lt, IfOk, IfErr, IfSome, IfNone, OnOk};
ghost use Rattle.mps_cards.specs.Inner.Pieces.{Gathers, GathersNone, IsGatherFault, IsPieceFault, TakesPiece};
ghost use Rattle.mps_cards.specs.NextLine.{TakesAsNeeded};

use crate::ahead::Ahead;
use crate::faults::ReadFault;
use crate::lines::{Line, LineBytes};
use crate::places::first_place;
use io_ends::Source;
use std::alloc::{AllocError, Global};

/// What a caller wants of the next line: its number, how many of its bytes are kept, and how many bytes may stand from the
/// mark through it.
#[derive(Clone, Copy, Debug)]
pub(crate) struct Asked {
    pub(crate) number: u64,
    pub(crate) keep: usize,
    pub(crate) most: u64,
}

/// A line that was read to its end, and how many bytes stand from the mark through it.
#[derive(Debug, Drop)]
pub(crate) struct Gathered {
    pub(crate) line: Line,
    pub(crate) through: u64,
}

/// The beginning of a line: the bytes that are kept, whether it has more, and how many bytes stand from the mark through it.
#[derive(Debug, Drop)]
struct Growing {
    bytes: Vec<u8>,
    longer: bool,
    through: u64,
}

impl Growing {
    /// Keeps what may be kept of the next bytes.
    fn keep(&mut self, piece: &[u8], keep: usize) -> Result<(), AllocError>
        requires { vec_len self.old.bytes ≤ keep }
        ensures bytes { OnOk result (self.new.bytes.items ≡ take keep (self.old.bytes.items ++ piece.now)) }
        ensures longer { OnOk result (self.new.longer ≡
            (self.old.longer || nat_lt keep (length (self.old.bytes.items ++ piece.now)))) }
        ensures few { OnOk result (vec_len self.new.bytes ≤ keep) }
        ensures through { self.new.through ≡ self.old.through }
    {
        let free = keep - self.bytes.len();
        self.bytes
            .extend_from_slice(&piece[..piece.len().min(free)])?;
        self.longer = self.longer || free < piece.len();
        Ok(())
    }

    /// Takes the bytes that were read ahead through the line's end, or else all of them, and says whether the line ended.
    fn take_from(&mut self, ahead: &mut Ahead, asked: Asked) -> Result<bool, ReadFault>
        requires few { vec_len self.old.bytes ≤ asked.keep }
        requires within { self.old.through ≤ asked.most }
        ensures ok { IfOk result (TakesPiece self.old self.new ahead.old ahead.new asked) }
        ensures few { OnOk result (vec_len self.new.bytes ≤ asked.keep) }
        ensures fault { IfErr result (IsPieceFault self.old ahead.old asked) }
    {
        let bytes = ahead.bytes();
        let end = first_place(bytes, b'\n');
        let ended = end < bytes.len();
        let size = end + usize::from(ended);
        if asked.most - self.through < size as u64 {
            return Err(ReadFault::TooMany(asked.number));
        }
        self.keep(&bytes[..end], asked.keep)?;
        self.through += size as u64;
        ahead.skip(size);
        Ok(ended)
    }

    /// The line, all of whose bytes were taken.
    fn finished(self, number: u64) -> Gathered
        ensures { result ≡ record {
          line = record { number = number; bytes = self.bytes.items; longer = self.longer };
          through = self.through;
        } }
    {
        let Growing {
            bytes,
            longer,
            through,
        } = self;
        Gathered {
            line: Line {
                number,
                bytes: LineBytes::of(bytes),
                longer,
            },
            through,
        }
    }
}

/// Reads on through the next line's end. There is no line at the end of the input.
///
/// After a fault the kept bytes are such as the read that failed left them.
#[tactic(auto)]
pub(crate) fn gather<S: Source>(
    alloc: Global,
    ahead: &mut Ahead,
    source: &mut S,
    since: u64,
    asked: Asked,
) -> Result<Option<Gathered>, ReadFault>
    requires { since ≤ asked.most }
    ensures line { IfOk result (λ found. IfSome found
        (Gathers ahead.old ahead.new (S.remaining source.old) (S.remaining source.new) since asked)) }
    ensures end { IfOk result (λ found. IfNone found
        (GathersNone ahead.old ahead.new (S.remaining source.old) (S.remaining source.new))) }
    ensures stays { OnOk result (S.fault_count source.new ≡ S.fault_count source.old) }

    ensures fault { IfErr result (IsGatherFault ahead.old (S.remaining source.old) (S.remaining source.new)
        (S.fault_count source.old) (S.fault_count source.new) since asked) }
    ensures needed { TakesAsNeeded ahead.old since asked.most (S.remaining source.old) (S.remaining source.new) }
    ensures never_falls { S.fault_count source.old ≤ S.fault_count source.new }
{
    let mut line = Growing {
        bytes: Vec::new(alloc),
        longer: false,
        through: since,
    };
    'pieces: loop {
        if line.take_from(ahead, asked)? {
            return Ok(Some(line.finished(asked.number)));
        }
        if !ahead.fill(source)? {
            if line.through == since {
                return Ok(None);
            }
            return Ok(Some(line.finished(asked.number)));
        }
    }
}
