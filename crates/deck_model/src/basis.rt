//! The basis that a run ends with.
ghost use Rattle.std.specs.Prelude.{◌≡◌, ◌<◌, length, get_or};

use std::marker::Model;

/// A list of numbers of columns, made from a `Vec` and given back as one without taking memory.
#[derive(Debug, Drop)]
pub struct Numbers {
    list: Vec<u32>,
}

impl Model for Numbers {
    ghost use Rattle.std.specs.Prelude.{List, ℕ};

    ghost Value = { List ℕ };

    ghost view = { λ n. n.list.items };
}

impl Numbers {
    /// The list of these numbers.
    pub fn of(list: Vec<u32>) -> Numbers
        ensures { result ≡ list.items }
    {
        Numbers { list }
    }

    /// How many numbers there are.
    pub fn len(&self) -> usize
        ensures { result ≡ length self.now }
    {
        self.list.len()
    }

    /// The number at that index.
    pub fn get(&self, i: usize) -> u32
        requires { i < length self.now }
        ensures { result ≡ get_or self.now i 0 }
    {
        self.list[i]
    }

    /// All numbers, in order.
    pub fn as_slice(&self) -> &[u32]
        ensures { result.now ≡ self.now }
    {
        &self.list
    }

    /// The numbers as a `Vec`.
    pub fn into_vec(self) -> Vec<u32>
        ensures { result.items ≡ self }
    {
        let Numbers { list } = self;
        list
    }
}

/// A basis: the basic columns by position, and the nonbasic columns that stand at their upper ends.
#[derive(Debug, Drop)]
pub struct Basis {
    pub basic: Numbers,
    pub upper: Numbers,
}

impl Model for Basis {
    ghost use Rattle.lp_model.specs.Basis.{Basis as Told};

    ghost Value = { Told };

    ghost view = { λ b. record { basic = b.basic; upper = b.upper } };
}
