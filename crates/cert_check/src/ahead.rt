//! Activities of all rows at once.
ghost use Rattle.std.specs.Prelude.{◌≡◌, ◌<◌, ◌≤◌, length, replicate, IfOk, OnOk};
ghost use Rattle.exact_frac.specs.Count.{unfit_after};
ghost use Rattle.lp_model.specs.Deck.{IsDeck};
ghost use Rattle.rational.specs.Rational.{zero_ℚ};
ghost use Rattle.cert_check.specs.Inner.Groups.{IsAhead};

use deck_model::Deck;
use exact_frac::{Arith, Frac, Unfit};
use sparse_steps::subtract;
use std::alloc::{AllocError, Global};

/// The activities of all rows at `v`, an item for each column, worked in one pass over the columns; or an empty list where
/// one of their values does not fit. The sum of a row takes its products by rising columns, as the row's own walk does.
/// The count of unfit results stays.
#[tactic(auto, using(exact_frac::specs::Constants::constants))]
pub(crate) fn activities<A: Arith>(
    alloc: Global,
    deck: &Deck,
    v: &[Frac],
    arith: &mut A,
) -> Result<Vec<Frac>, AllocError>
    requires { length v.now ≡ length deck.now.columns }
    ensures ahead { IfOk result (λ sums. IsAhead (A.width arith.old) deck.now v.now sums.items) }
    ensures width { A.width arith.new ≡ A.width arith.old }
    ensures unfit { A.unfit_count arith.new ≡ A.unfit_count arith.old }
    ensures deck { IsDeck deck.now }
{
    let mut sums = vec![in alloc; Frac::ZERO; deck.rows()]?;
    let mut own = arith.fresh();
    match scatter(deck, v, &mut sums, &mut own) {
        Ok(()) => {
            arith.absorb(own);
            Ok(sums)
        }
        Err(_) => Ok(Vec::new(alloc)),
    }
}

// Adds the products of each column to the sums of its rows, which begin at 0.
fn scatter<A: Arith>(deck: &Deck, v: &[Frac], sums: &mut [Frac], arith: &mut A) -> Result<(), Unfit>
    requires given { length v.now ≡ length deck.now.columns }
    requires zeros { sums.old ≡ replicate (length deck.now.rows) zero_ℚ }
    ensures ahead { OnOk result (IsAhead (A.width arith.old) deck.now v.now sums.new) }
    ensures width { A.width arith.new ≡ A.width arith.old }
    ensures unfit { A.unfit_count arith.new ≡ unfit_after (A.unfit_count arith.old) result }
{
    for j in 0..deck.columns() {
        let item = v[j].negated();
        subtract(deck.rows(), item, sums, deck.column(j), arith)?;
    }
    Ok(())
}
