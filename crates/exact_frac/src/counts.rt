// The two counts of an arithmetic.
ghost use Rattle.std.specs.Prelude.{◌≡◌};
ghost use Rattle.exact_frac.specs.Count.{raised, unfit_after};

use crate::fraction::Frac;
use crate::unfit::Unfit;

/// How many results were unfit, and how many products and quotients were worked. Each count stands
/// still at its largest value.
#[derive(Drop)]
pub struct Counts {
    pub unfit: u64,
    pub work: u64,
}

impl Counts {
    /// Both counts at 0.
    pub const NONE: Counts = Counts { unfit: 0, work: 0 };

    /// Counts an answer where it is unfit, and hands it on.
    pub fn settle(&mut self, answer: Result<Frac, Unfit>) -> Result<Frac, Unfit>
        ensures same { result ≡ answer }
        ensures count { self.new ≡ record self.old { unfit = unfit_after self.old.unfit answer } }
    {
        if answer.is_err() {
            self.unfit = self.unfit.saturating_add(1);
        }
        answer
    }

    /// Counts one product or quotient.
    pub fn count_work(&mut self)
        ensures { self.new ≡ record self.old { work = raised self.old.work 1 } }
    {
        self.work = self.work.saturating_add(1);
    }

    /// Adds the counts of another arithmetic.
    pub fn absorb(&mut self, other: Counts)
        ensures { self.new ≡ record { unfit = raised self.old.unfit other.unfit; work = raised self.old.work other.work } }
    {
        self.unfit = self.unfit.saturating_add(other.unfit);
        self.work = self.work.saturating_add(other.work);
    }
}
