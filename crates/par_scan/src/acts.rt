//! What a scan joins.
ghost use Rattle.std.specs.Prelude.{◌≡◌, ℕ, List, [], ◌∷◌, IfOk, IsTrue, ◌↔◌};
ghost use Rattle.std.specs.List.{sum_by};
ghost use Rattle.par_scan.specs.Chain.{ActsAsAll, ActsLike, IsChain, IsJoined, IsUnitOf};

use std::alloc::AllocError;

/// An element acts on points, stands between two borders, and has a weight. Two elements fit where the later one begins
/// at the border at which the earlier one ends and both together weigh less than 2^64. Joined they act as the later one
/// followed by the earlier one.
pub trait Acts: Send + Sync + Drop + Sized {
    // What the elements act on.
    ghost Point: { Type 0 };

    // What an element makes of a point.
    ghost act: { Self → Point → Point };

    // The border at which an element begins, and the one at which it ends.
    ghost begin: { Self → ℕ };

    ghost end: { Self → ℕ };

    // What is added up along a chain, and stays below 2 ^ 64.
    ghost weight: { Self → ℕ };

    // An element that acts as others do, one after another, weighs as much as all of them.
    ghost weighs: { (items : List Self) (joined : Self) → ActsAsAll act items joined
        → weight joined ≡ sum_by weight items };

    /// Whether the later element may be joined to this one.
    fn fits(&self, later: &Self) -> bool
        ensures { IsTrue result ↔ IsChain begin end weight (self.now ∷ later.now ∷ []) };

    /// An element that changes no point and fits before this one.
    fn unit(&self) -> Result<Self, AllocError>
        ensures unit { IfOk result (IsUnitOf act begin end self.now) }
        ensures fits { IfOk result (λ unit. IsChain begin end weight (unit ∷ self.now ∷ [])) };

    /// The two elements as one.
    fn join(&self, later: &Self) -> Result<Self, AllocError>
        requires { IsChain begin end weight (self.now ∷ later.now ∷ []) }
        ensures { IfOk result (IsJoined act begin end (self.now ∷ later.now ∷ [])) };

    /// As `join`, of two elements that are given away. It may use their memory.
    fn append(self, later: Self) -> Result<Self, AllocError>
        requires { IsChain begin end weight (self ∷ later ∷ []) }
        ensures { IfOk result (IsJoined act begin end (self ∷ later ∷ [])) }
    {
        self.join(&later)
    }

    /// An element that acts as this one.
    fn dup(&self) -> Result<Self, AllocError>
        ensures { IfOk result (ActsLike act begin end self.now) };
}
