//! Lists of degrees, one for each component.
ghost use Rattle.std.specs.Prelude.{◌≡◌, ◌↔◌, ℕ, ℤ, pos, ◌+ℤ◌, ◌-ℤ◌, ◌≤ℤ◌, neg_ℤ, ◌<◌, List, length, IsSome, IfSome};
ghost use Rattle.std.specs.List.{All};
ghost use Rattle.gradings.specs.Degrees.{IsSmallDegree};
ghost use Rattle.hat_division.specs.DegreeLists.{IsDegreeList, is_higher as is_higher_of, same_degrees as same_degrees_of, raised_at, lowered_at};

use std::marker::Model;

/// The greatest number of components that a list of degrees has room for.
pub const MAX_COMPONENTS: usize = 5;

/// One to `MAX_COMPONENTS` whole numbers.
///
/// Contracts see it as the list of these numbers.
#[derive(Clone, Copy, Debug)]
pub struct DegreeList {
    degrees: [i32; MAX_COMPONENTS],
    count: u8,
}

impl Model for DegreeList {
    ghost use Rattle.std.specs.Prelude.{ℤ, List, length, take};
    ghost use Rattle.std.proofs.Common.{length-take-le, sym};
    ghost use Rattle.hat_division.specs.Inner.StoredDegrees.{IsStored, padded};

    ghost Value = { List ℤ };

    ghost view = { λ d. take d.count d.degrees };

    ghost invariant = { λ d. IsStored d.count d.degrees };

    ghost inverse = { λ ds. record { degrees = padded ds; count = length ds } };

    ghost inverse_ok = { λ d stored i. record {
      degrees = sym stored.zeros i;
      count = length-take-le d.count d.degrees stored.within i;
    } };
}

impl DegreeList {
    /// The list of these numbers, if they are 1 to `MAX_COMPONENTS`.
    pub fn of(degrees: &[i32]) -> Option<DegreeList>
        ensures accepted { IsSome result ↔ IsDegreeList degrees.now }
        ensures degrees { IfSome result (λ d. d ≡ degrees.now) }
    {
        if degrees.len() < 1 || degrees.len() > MAX_COMPONENTS {
            return None;
        }
        let mut stored = [0; MAX_COMPONENTS];
        stored[..degrees.len()].copy_from_slice(degrees);
        Some(DegreeList {
            degrees: stored,
            count: degrees.len() as u8,
        })
    }

    /// The numbers, from the first component on.
    #[inline]
    pub fn degrees(&self) -> &[i32]
        ensures degrees { result.now ≡ self.now }
        ensures list { IsDegreeList self.now }
    {
        &self.degrees[..self.count as usize]
    }

    /// The list with the number of component `i`, counted from 0, two higher.
    pub(crate) fn raised_at(&self, i: usize) -> DegreeList
        requires place { i < length self.now }
        requires small { All IsSmallDegree self.now }
        ensures { result ≡ raised_at i self.now }
    {
        let count = self.degrees().len();
        let mut degrees = self.degrees;
        degrees[i] += 2;
        DegreeList::of(&degrees[..count]).unwrap()
    }

    /// The list with the number of component `i`, counted from 0, two lower.
    pub(crate) fn lowered_at(&self, i: usize) -> DegreeList
        requires place { i < length self.now }
        requires small { All IsSmallDegree self.now }
        ensures { result ≡ lowered_at i self.now }
    {
        let count = self.degrees().len();
        let mut degrees = self.degrees;
        degrees[i] -= 2;
        DegreeList::of(&degrees[..count]).unwrap()
    }
}

// Whether `p` stands before `q` in the order of lists, greater numbers first.
pub(crate) fn is_higher(p: &[i32], q: &[i32]) -> bool
    ensures { result ≡ is_higher_of p.now q.now }
{
    for i in 0..p.len() {
        if i == q.len() {
            return true;
        }
        if q[i] < p[i] {
            return true;
        }
        if p[i] < q[i] {
            return false;
        }
    }
    false
}

// Whether the lists are the same.
pub(crate) fn same_degrees(p: &[i32], q: &[i32]) -> bool
    ensures { result ≡ same_degrees_of p.now q.now }
{
    p == q
}
