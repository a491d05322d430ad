// The one error of the crate.
use thiserror::Error;

/// The exact value does not fit the width of the arithmetic.
#[derive(Clone, Copy, PartialEq, Eq, Debug, Error)]
#[error("the exact value does not fit the width")]
pub struct Unfit;
