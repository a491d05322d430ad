// The list type `Fracs`.
ghost use Rattle.std.specs.Prelude.{◌≡◌, ◌<◌, ◌↔◌, IsTrue, [], length, slice_get, Some, vec_items};

use crate::fraction::Frac;
use std::marker::Model;

/// A list of fractions, made from a `Vec` and given back as one without taking memory.
#[derive(Debug, Drop)]
pub struct Fracs {
    list: Vec<Frac>,
}

impl Model for Fracs {
    ghost use Rattle.std.specs.Prelude.{List};
    ghost use Rattle.rational.specs.Rational.{ℚ};
    ghost use Rattle.rational.specs.Stored.{code_ℚ};
    ghost use Rattle.std.specs.Coded.{coded_list};

    ghost Value = { List ℚ };

    ghost coded = { coded_list code_ℚ };

    ghost view = { λ f. f.list.items };
}

impl Fracs {
    /// The list of these items.
    pub fn of(list: Vec<Frac>) -> Fracs
        ensures { result ≡ list.items }
    {
        Fracs { list }
    }

    /// How many items there are.
    pub fn len(&self) -> usize
        ensures { result ≡ length self.now }
    {
        self.list.len()
    }

    /// Whether there is no item.
    pub fn is_empty(&self) -> bool
        ensures { IsTrue result ↔ (self.now ≡ []) }
    {
        self.list.is_empty()
    }

    /// The item at that index.
    pub fn get(&self, i: usize) -> Frac
        requires { i < length self.now }
        ensures { slice_get self.now i ≡ Some result }
    {
        self.list[i]
    }

    /// All items, in order.
    pub fn as_slice(&self) -> &[Frac]
        ensures { result.now ≡ self.now }
    {
        self.list.as_slice()
    }

    /// The items as a `Vec`.
    pub fn into_vec(self) -> Vec<Frac>
        ensures { result.items ≡ self }
    {
        let Fracs { list } = self;
        list
    }
}
