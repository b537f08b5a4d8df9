//! Certificates.
ghost use Rattle.std.specs.Prelude.{◌≡◌, IfOk};
ghost use Rattle.homology_cert.specs.Inner.Cells.{new_cell, with_cycle, with_step};
ghost use Rattle.homology_cert.specs.CertificateCodes.{certificate_of};
ghost use Rattle.homology_cert.specs.Certificates.{IsCertificate as IsStatesCertificate};
ghost use Rattle.homology_cert.specs.Inner.CodeCertificates.{IsCertificate};

use f2_chain::{Chain, Cochain};
use gradings::Bidegree;
use grid_ports::NoMemory;
use std::alloc::Global;
use std::marker::Model;
use torus_geom::Grid;

/// A cycle, and a cocycle that pairs oddly with it.
#[derive(Drop, Debug)]
pub struct CyclePair {
    pub(crate) cycle: Chain,
    pub(crate) cocycle: Cochain,
}

impl Model for CyclePair {
    ghost use Rattle.f2_algebra.specs.Certificate.{CyclePair as Pair};
    ghost use Rattle.homology_cert.specs.CertificateCodes.{cycle_pair_code};

    ghost Value = { Pair };

    ghost coded = { cycle_pair_code };

    ghost view = { λ p. record { cycle = p.cycle; cocycle = p.cocycle } };
}

/// A chain, and a cochain that pairs oddly with its border.
#[derive(Drop, Debug)]
pub struct StepPair {
    pub(crate) step: Chain,
    pub(crate) probe: Cochain,
}

impl Model for StepPair {
    ghost use Rattle.f2_algebra.specs.Certificate.{StepPair as Pair};
    ghost use Rattle.homology_cert.specs.CertificateCodes.{step_pair_code};

    ghost Value = { Pair };

    ghost coded = { step_pair_code };

    ghost view = { λ p. record { step = p.step; probe = p.probe } };
}

/// The pairs of one bidegree.
#[derive(Drop, Debug)]
pub struct CertCell {
    pub(crate) degree: Bidegree,
    pub(crate) cycles: Vec<CyclePair>,
    pub(crate) steps: Vec<StepPair>,
}

impl Model for CertCell {
    ghost use Rattle.homology_cert.specs.CertificateCodes.{Cell, cell_code};

    ghost Value = { Cell };

    ghost coded = { cell_code };

    ghost view = { λ c. record { at = (c.degree.m, c.degree.a); cycles = c.cycles.items; steps = c.steps.items } };
}

/// A certificate of the table of a grid of size at most six.
#[derive(Drop, Debug)]
pub struct Cert {
    grid: Grid,
    cells: Vec<CertCell>,
}

impl Model for Cert {
    ghost use Rattle.homology_cert.specs.CertificateCodes.{Certificate, certificate_code};

    ghost Value = { Certificate };

    ghost coded = { certificate_code };

    ghost view = { λ c. record { grid = c.grid; cells = c.cells.items } };

    ghost use Rattle.homology_cert.specs.Inner.CodeCertificates.{IsCertificate};

    ghost invariant = { λ c. IsCertificate (record { grid = c.grid; cells = c.cells.items }) };
}

impl CertCell {
    // A cell with no pairs.
    pub(crate) fn new(alloc: Global, degree: Bidegree) -> CertCell
        ensures { result ≡ new_cell (degree.m, degree.a) }
    {
        CertCell {
            degree,
            cycles: Vec::new(alloc),
            steps: Vec::new(alloc),
        }
    }

    // The cell with one more cycle pair.
    pub(crate) fn with_cycle(self, cycle: Chain, cocycle: Cochain) -> Result<CertCell, NoMemory>
        ensures { IfOk result (λ c. c ≡ with_cycle self cycle cocycle) }
    {
        let CertCell {
            degree,
            mut cycles,
            steps,
        } = self;
        cycles.push(CyclePair { cycle, cocycle })?;
        Ok(CertCell {
            degree,
            cycles,
            steps,
        })
    }

    // The cell with one more step pair.
    pub(crate) fn with_step(self, step: Chain, probe: Cochain) -> Result<CertCell, NoMemory>
        ensures { IfOk result (λ c. c ≡ with_step self step probe) }
    {
        let CertCell {
            degree,
            cycles,
            mut steps,
        } = self;
        steps.push(StepPair { step, probe })?;
        Ok(CertCell {
            degree,
            cycles,
            steps,
        })
    }

    // The bidegree.
    pub(crate) fn degree(&self) -> &Bidegree
        ensures { (result.now.m, result.now.a) ≡ self.now.at }
    {
        &self.degree
    }

    // The cycle pairs, in order.
    pub(crate) fn cycles(&self) -> &[CyclePair]
        ensures { result.now ≡ self.now.cycles }
    {
        &self.cycles
    }

    // The step pairs, in order.
    pub(crate) fn steps(&self) -> &[StepPair]
        ensures { result.now ≡ self.now.steps }
    {
        &self.steps
    }
}

impl Cert {
    // The certificate of these cells.
    pub(crate) fn of(grid: Grid, cells: Vec<CertCell>) -> Cert
        requires { IsCertificate (record { grid = grid; cells = cells.items }) }
        ensures { result ≡ record { grid = grid; cells = cells.items } }
    {
        Cert { grid, cells }
    }

    /// The grid.
    pub fn grid(&self) -> &Grid
        ensures grid { result.now ≡ self.now.grid }
        ensures certificate { IsStatesCertificate (certificate_of self.now) }
    {
        &self.grid
    }

    /// The cells, in order.
    pub(crate) fn cells(&self) -> &[CertCell]
        ensures cells { result.now ≡ self.now.cells }
        ensures certificate { IsCertificate self.now }
    {
        &self.cells
    }
}
