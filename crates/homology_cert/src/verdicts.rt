//! What the check of a certificate says.

/// A test of a certificate.
///
/// `Count` is asked of a cell; `Degree`, `Cycle`, `Cocycle` and `Pairing` of a cycle pair; `Degree` and `Probe`
/// of a step pair; `Missing` after all entries.
#[derive(Clone, Copy, PartialEq, Eq, Debug)]
pub enum CertTest {
    Count,
    Degree,
    Cycle,
    Cocycle,
    Pairing,
    Probe,
    Missing,
}

/// Whether a certificate passes all its tests, and else the first that fails: the number of its entry, from 1,
/// and the test.
#[derive(Clone, Copy, PartialEq, Eq, Debug)]
pub enum CertVerdict {
    Yes,
    No { entry: u32, test: CertTest },
}
