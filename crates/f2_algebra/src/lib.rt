//! The algebra of complexes over the field of two elements: definitions and laws, with no code.
//!
//! Read specs/Chain.antt and specs/Complex.antt first: chains are finite sets of codes, complexes give
//! each code a degree and targets. The other files of specs/ say what cancelling an arrow is, what a
//! log of cancelled arrows gives, and what shows a rank or a verdict. proofs/ has the laws, for the
//! contracts of the crates above; proofs/Chains/Tables.antt proves Boolean identities.
//!
//! Example: for the chain z of the codes 3 and 7 and the chain w of the codes 7 and 9, the sum `z ⊕ w` is the
//! chain of the codes 3 and 9.
#![tactic(auto)]
