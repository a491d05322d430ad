// The lines of values that do not fit.
ghost use Rattle.std.specs.Prelude.{◌≡◌, IfOk};
ghost use Rattle.std.specs.String.{string_bytes};
ghost use Rattle.lp_main.specs.Overflow.{index_word, overflow_line, range_unfit_line, range_word, value_word};

use crate::fault_line::whole_line;
use deck_model::Name;
use lp_model::{Kind, Place};
use ranging::RangePlace;
use std::alloc::{AllocError, Global};

/// The word of a kind of value.
fn kind_word(kind: Kind) -> &'static str
    ensures { result.now ≡ value_word kind }
{
    match kind {
        Kind::Start => "start",
        Kind::Entry => "entry",
        Kind::Value => "value",
        Kind::Cost => "cost",
        Kind::Ratio => "ratio",
        Kind::Total => "total",
    }
}

/// A row or a column, or a dash where the place has none.
fn index_word(alloc: Global, index: Option<u32>) -> Result<String, AllocError>
    ensures { IfOk result (λ word. string_bytes word ≡ index_word index) }
{
    match index {
        None => String::from_str(alloc, "-"),
        Some(index) => index.to_string(alloc),
    }
}

/// The line of a value that does not fit, with its place.
pub fn overflow_line(alloc: Global, place: Place) -> Result<Vec<u8>, AllocError>
    ensures { IfOk result (λ line. line.items ≡ overflow_line place) }
{
    let number = place.number.to_string(alloc)?;
    let row = index_word(alloc, place.row)?;
    let column = index_word(alloc, place.column)?;
    let mut line = String::from_str(alloc, "lp: overflow at number ")?;
    line.push_str(number.as_str())?;
    line.push_str(", ")?;
    line.push_str(kind_word(place.kind))?;
    line.push_str(", row ")?;
    line.push_str(row.as_str())?;
    line.push_str(", column ")?;
    line.push_str(column.as_str())?;
    whole_line(alloc, line.as_str())
}

/// The word of a range, with the blank before its name.
fn range_word(place: RangePlace) -> &'static [u8]
    ensures { result.now ≡ range_word place }
{
    match place {
        RangePlace::Cost(_) => b"COST ",
        RangePlace::Right(_) => b"RIGHT ",
    }
}

/// The line of a value of the ranges that does not fit, with the name of its column or row.
pub fn range_unfit_line(
    alloc: Global,
    place: RangePlace,
    name: &Name,
) -> Result<Vec<u8>, AllocError>
    ensures { IfOk result (λ line. line.items ≡ range_unfit_line place name.now) }
{
    let mut line = Vec::from_slice(alloc, b"lp: range overflow at ")?;
    line.extend_from_slice(range_word(place))?;
    line.extend_from_slice(name.bytes())?;
    line.push(b'\n')?;
    Ok(line)
}
