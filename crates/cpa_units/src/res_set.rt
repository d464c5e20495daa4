//! Sets of resources, as a system has at most 128 of them.

ghost use Rattle.std.specs.Prelude.{◌≡◌, ℕ, ◌<◌, ◌≤◌, ◌||◌, ◌==◌, ◌↔◌, IsTrue, MatchOption, nat_lt, false};
ghost use Rattle.cpa_units.specs.Sets.{holds, HaveCommon, IsNextMember};

use crate::places::ResId;
use std::marker::Model;

/// A set of places below 128, a bit for each. Contracts see the list of its truth values.
#[derive(Clone, Copy, Debug)]
pub struct ResSet {
    bits: u128,
}

impl Model for ResSet {
    ghost use Rattle.std.specs.Prelude.{List, Bool, ◌<◌, ◌^◌};
    ghost use Rattle.std.proofs.Common.{ap};
    ghost use Rattle.cpa_units.specs.Sets.{truths, number_of, number_of-truths};

    ghost Value = { List Bool };

    ghost view = { λ s. truths 128 s.bits };

    ghost invariant = { λ s. s.bits < 2 ^ 128 };

    ghost inverse = { λ members. record { bits = number_of members } };

    ghost inverse_ok = { λ a h. ap (λ b. record { bits = b }) (number_of-truths 128 a.bits h) };
}

impl ResSet {
    /// The empty set.
    pub fn none() -> ResSet
        ensures { (r : ℕ) → holds result r ≡ false }
    {
        ResSet { bits: 0 }
    }

    /// The places below `count`.
    pub fn first(count: u32) -> ResSet
        requires { count ≤ 128 }
        ensures { (r : ℕ) → holds result r ≡ nat_lt r count }
    {
        if count < 128 {
            ResSet {
                bits: (1 << count) - 1,
            }
        } else {
            ResSet { bits: u128::MAX }
        }
    }

    /// The set with a member more, whose place is below 128.
    pub fn with(self, res: ResId) -> ResSet
        requires { res.0 < 128 }
        ensures { (r : ℕ) → holds result r ≡ (r == res.0 || holds self r) }
    {
        ResSet {
            bits: self.bits | 1 << res.0,
        }
    }

    /// Whether a place, below 128, is a member.
    pub fn has(self, res: ResId) -> bool
        requires { res.0 < 128 }
        ensures { result ≡ holds self res.0 }
    {
        self.bits >> res.0 & 1 == 1
    }

    /// The members of one set or the other.
    pub fn union(self, other: ResSet) -> ResSet
        ensures { (r : ℕ) → holds result r ≡ (holds self r || holds other r) }
    {
        ResSet {
            bits: self.bits | other.bits,
        }
    }

    /// The least member whose place is at least `from`; none where there is none.
    pub fn next(self, from: u32) -> Option<ResId>
        requires { from ≤ 128 }
        ensures { MatchOption result ((r : ℕ) → from ≤ r → holds self r ≡ false) (λ res. IsNextMember self from res.0) }
    {
        let bits = self.bits;
        if from == 128 {
            return None;
        }
        let rest = bits >> from;
        if rest == 0 {
            None
        } else {
            Some(ResId(from + rest.trailing_zeros()))
        }
    }

    /// Whether both sets have some member in common.
    pub fn meets(self, other: ResSet) -> bool
        ensures { IsTrue result ↔ HaveCommon self other }
    {
        self.bits & other.bits != 0
    }
}
