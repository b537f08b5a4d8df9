//! Sets of codes in the making.
ghost use Rattle.std.specs.Prelude.{◌≡◌, IfOk, OnOk, OnErr};
ghost use Rattle.f2_algebra.specs.Chain.{nothing, holds as is_in, single as single_of, ◌⊕◌};

use crate::code_sets::CodeSet;
use grid_ports::NoMemory;
use indexmap::IndexSet;
use std::alloc::Global;
use std::marker::Model;

/// A set of codes in the making, seen as the chain of the codes that were toggled an odd number of times.
#[derive(Drop)]
pub struct Builder {
    set: IndexSet<u32>,
}

impl Model for Builder {
    ghost use Rattle.std.specs.FinSet as finite_set;
    ghost use Rattle.std.specs.Coded.{coded_ℕ};
    ghost use Rattle.f2_algebra.specs.Chain.{Chain as Codes, of_codes};

    ghost Value = { Codes };

    ghost coded = { finite_set.code coded_ℕ };

    ghost view = { λ b. of_codes b.set.keys };
}

impl Builder {
    /// A builder in which nothing has been toggled. It takes no memory.
    pub fn new(alloc: Global) -> Builder
        ensures { result ≡ nothing }
    {
        Builder {
            set: IndexSet::new(alloc),
        }
    }

    /// Puts `code` in if it is not there, and takes it out if it is.
    ///
    /// # Errors
    ///
    /// `NoMemory` if the allocator refuses; the builder is then unchanged.
    pub fn toggle(&mut self, code: u32) -> Result<(), NoMemory>
        ensures toggled { OnOk result (self.new ≡ self.old ⊕ single_of code) }
        ensures unchanged { OnErr result (self.new ≡ self.old) }
    {
        if !self.set.swap_remove(&code) {
            self.set.insert(code)?;
        }
        Ok(())
    }

    /// Whether `code` was toggled an odd number of times.
    pub fn holds(&self, code: u32) -> bool
        ensures { result ≡ is_in self.now code }
    {
        self.set.contains(&code)
    }

    /// The set of the codes that were toggled an odd number of times.
    ///
    /// # Errors
    ///
    /// `NoMemory` if the allocator refuses; the builder is then gone.
    pub fn finish(self) -> Result<CodeSet, NoMemory>
        ensures { IfOk result (λ z. z ≡ self) }
    {
        let alloc = *self.set.allocator();
        let mut list = Vec::from_slice(alloc, self.set.as_slice())?;
        list.sort_unstable();
        Ok(CodeSet::of_ascending(list))
    }
}
