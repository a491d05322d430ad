//! Exact fractions as values of the specification, with their laws and two solvers.
//!
//! The crate has no code that runs. The crates above see their values through its definitions: a fraction
//! of the code is a `ℚ`, a vector of them a list of `ℚ`, a matrix a function of row and column.
//!
//! **`specs/` is what a reader of a promise believes**, in some 300 lines:
//!
//! - `Gcd`: the greatest common divisor, and lowest terms. `Rational`: the fractions `ℚ`, pairs in lowest terms,
//!   with their operations and order. `Width`: how many bits a fraction takes.
//! - `Sum`: finite sums, and vectors. `Sparse`: sparse lists of fractions. `Matrix`: products, regular matrices and
//!   inverses.
//! - `Worked`: calculations, which list the values that they work. `Lines`: a sparse column taken out of a number and
//!   out of a vector, as calculations. `Stored`: how a fraction is stored, as its two parts.
//! - `Inner` is no part of it: it proves that what `ratio` makes is in lowest terms, and a fraction the ratio of its parts,
//!   which definitions need.
//!
//! **`proofs/` has the laws**: `Ratio`, the facts that carry all others, with `Gcd` and `Integer` beneath them;
//! `FieldLaws`, `OrderLaws`, `ProductOrder` and `WidthLaws` of fractions; `SumLaws`, `VectorLaws`, `SparseLaws` and
//! `MatrixLaws` of many. `Ring` and `RationalRing` prove identities of commutative rings, and `Linear` linear facts on
//! fractions; `docs/SOLVERS.md` says how to use both.
#![tactic(auto)]
