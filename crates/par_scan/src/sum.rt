//! Sums of numbers.
ghost use Rattle.std.specs.Prelude.{ℕ};

use crate::acts::Acts;
use std::alloc::AllocError;

/// A number, which acts on numbers by adding itself. Sums fit while they don't overflow.
#[derive(Clone, Copy, Debug, PartialEq, Eq)]
pub struct Sum(pub u64);

impl Acts for Sum {
    ghost use Rattle.par_scan.specs.Sum.{add_sum, no_border, sum_weight, sum_weighs};

    ghost Point = { ℕ };

    ghost act = { add_sum };

    ghost begin = { no_border };

    ghost end = { no_border };

    ghost weight = { sum_weight };

    ghost weighs = { sum_weighs };

    fn fits(&self, later: &Self) -> bool {
        self.0.checked_add(later.0).is_some()
    }

    fn unit(&self) -> Result<Self, AllocError> {
        let _read = self.0;
        Ok(Sum(0))
    }

    fn join(&self, later: &Self) -> Result<Self, AllocError> {
        Ok(Sum(self.0 + later.0))
    }

    fn dup(&self) -> Result<Self, AllocError> {
        Ok(*self)
    }
}
