//! Sets of codes in ascending order.
ghost use Rattle.std.specs.Prelude.{◌≡◌, ◌+◌, ◌<◌, List, ℕ, length, IfOk};
ghost use Rattle.std.specs.List.Sorted.{IsStrictlyIncreasing};
ghost use Rattle.f2_algebra.specs.Chain.{nothing, of_codes, holds as is_in, codes as codes_of, single as single_of, ◌⊕◌, pairs_oddly};

use grid_ports::NoMemory;
use std::alloc::Global;
use std::marker::Model;

/// A finite set of codes, seen as a chain over the field of two elements: the sum of its codes.
#[derive(Drop, Debug)]
pub struct CodeSet {
    list: Vec<u32>,
}

/// A finite set of states, by their indices.
pub type Chain = CodeSet;

/// A finite set of states that pairs with chains.
pub type Cochain = CodeSet;

impl Model for CodeSet {
    ghost use Rattle.std.specs.FinSet as finite_set;
    ghost use Rattle.std.specs.Coded.{coded_ℕ};
    ghost use Rattle.std.specs.List.Sorted.{IsStrictlyIncreasing};
    ghost use Rattle.f2_algebra.specs.Chain.{Chain as Codes, of_codes};

    ghost Value = { Codes };

    ghost coded = { finite_set.code coded_ℕ };

    ghost view = { λ s. of_codes s.list.items };

    ghost invariant = { λ s. IsStrictlyIncreasing s.list.items };
}

impl CodeSet {
    // The set of the codes of a list.
    pub(crate) fn of_ascending(list: Vec<u32>) -> CodeSet
        requires { IsStrictlyIncreasing list.items }
        ensures { result ≡ of_codes list.items }
    {
        CodeSet { list }
    }

    /// The empty set. It takes no memory.
    pub fn empty(alloc: Global) -> CodeSet
        ensures { result ≡ nothing }
    {
        CodeSet {
            list: Vec::new(alloc),
        }
    }

    /// The set of one code.
    ///
    /// # Errors
    ///
    /// `NoMemory` if the allocator refuses.
    pub fn single(alloc: Global, code: u32) -> Result<CodeSet, NoMemory>
        ensures { IfOk result (λ z. z ≡ single_of code) }
    {
        let mut list = Vec::new(alloc);
        list.push(code)?;
        Ok(CodeSet { list })
    }

    /// The codes, in ascending order.
    pub fn codes(&self) -> &[u32]
        ensures { result.now ≡ codes_of self.now }
    {
        self.list.as_slice()
    }

    /// Whether `code` is in the set.
    pub fn holds(&self, code: u32) -> bool
        ensures { result ≡ is_in self.now code }
    {
        self.list.binary_search(&code).is_ok()
    }

    /// Whether the set, taken as a chain, pairs oddly with `f`, taken as a cochain: whether they share an
    /// odd number of codes.
    pub fn pair(&self, f: &CodeSet) -> bool
        ensures { result ≡ pairs_oddly self.now f.now }
    {
        let mut odd = false;
        for code in self.codes() {
            odd ^= f.holds(*code);
        }
        odd
    }

    /// The sum of two sets: the codes that are in exactly one of them.
    ///
    /// # Errors
    ///
    /// `NoMemory` if the allocator refuses.
    pub fn add(&self, other: &CodeSet) -> Result<CodeSet, NoMemory>
        ensures { IfOk result (λ z. z ≡ self.now ⊕ other.now) }
    {
        let alloc = *self.list.allocator();
        let list = merged(alloc, self.codes(), other.codes())?;
        Ok(CodeSet { list })
    }
}

// The numbers that exactly one of two ascending lists has, in ascending order.
fn merged(alloc: Global, a: &[u32], b: &[u32]) -> Result<Vec<u32>, NoMemory>
    requires a_ascending { IsStrictlyIncreasing a.now }
    requires b_ascending { IsStrictlyIncreasing b.now }
    ensures ascending { IfOk result (λ v. IsStrictlyIncreasing v.items) }
    ensures sum { IfOk result (λ v. of_codes v.items ≡ of_codes a.now ⊕ of_codes b.now) }
{
    let mut list = Vec::new(alloc);
    let mut i = 0;
    let mut j = 0;
    while i < a.len() && j < b.len() {
        if a[i] < b[j] {
            list.push(a[i])?;
            i += 1;
        } else if b[j] < a[i] {
            list.push(b[j])?;
            j += 1;
        } else {
            i += 1;
            j += 1;
        }
    }
    list.extend_from_slice(&a[i..])?;
    list.extend_from_slice(&b[j..])?;
    Ok(list)
}
