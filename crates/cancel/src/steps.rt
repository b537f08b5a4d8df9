//! One entry of a log.
ghost use Rattle.std.specs.Prelude.{◌≡◌, ◌≢◌, ℕ, not, eqb, OnOk, IfOk};
ghost use Rattle.std.specs.List.{AllPairs};
ghost use Rattle.f2_algebra.specs.Chain.{holds as is_in, of_codes, ◌⊕◌, where_code, pairs_oddly};
ghost use Rattle.f2_algebra.specs.Cancel.{rest_of_one, lift_of_one, pull_of_one};
ghost use Rattle.cancel.specs.Logs.{entry_of, HasEachOnce};

use crate::logs::LogEntry;
use f2_chain::Builder;
use grid_ports::NoMemory;

// Goes on to the rest of the chain after the entry, and says whether the chain held the target.
pub(crate) fn rest_over(entry: &LogEntry, chain: &mut Builder) -> Result<bool, NoMemory>
    requires { HasEachOnce entry.now }
    ensures rest { OnOk result (chain.new ≡ rest_of_one (entry_of entry.now) chain.old) }
    ensures held { IfOk result (λ mark. mark ≡ is_in chain.old entry.now.y) }
{
    let held = chain.holds(entry.y);
    remove(entry.x, chain)?;
    remove(entry.y, chain)?;
    if held {
        toggle_all(entry.targets, chain)?;
    }
    Ok(held)
}

// Goes back to the lift of the chain before the entry.
pub(crate) fn lift_over(entry: &LogEntry, chain: &mut Builder) -> Result<(), NoMemory>
    requires { HasEachOnce entry.now }
    ensures { OnOk result (chain.new ≡ lift_of_one (entry_of entry.now) chain.old) }
{
    if shares_oddly(entry.sources, chain) {
        chain.toggle(entry.x)?;
    }
    Ok(())
}

// Goes back to the pull of the cochain before the entry.
pub(crate) fn pull_over(entry: &LogEntry, cochain: &mut Builder) -> Result<(), NoMemory>
    requires { HasEachOnce entry.now }
    ensures { OnOk result (cochain.new ≡ pull_of_one (entry_of entry.now) cochain.old) }
{
    let odd = shares_oddly(entry.targets, cochain);
    remove(entry.x, cochain)?;
    remove(entry.y, cochain)?;
    if odd {
        cochain.toggle(entry.y)?;
    }
    Ok(())
}

// Whether the chain holds an odd number of these codes.
fn shares_oddly(codes: &[u32], chain: &Builder) -> bool
    requires { AllPairs (λ b c. b ≢ c) codes.now }
    ensures { result ≡ pairs_oddly chain.now (of_codes codes.now) }
{
    let mut odd = false;
    for code in codes {
        odd ^= chain.holds(*code);
    }
    odd
}

// Toggles each of these codes.
pub(crate) fn toggle_all(codes: &[u32], chain: &mut Builder) -> Result<(), NoMemory>
    requires { AllPairs (λ b c. b ≢ c) codes.now }
    ensures { OnOk result (chain.new ≡ chain.old ⊕ of_codes codes.now) }
{
    for code in codes {
        chain.toggle(*code)?;
    }
    Ok(())
}

// Takes the code out, if it is there.
fn remove(code: u32, chain: &mut Builder) -> Result<(), NoMemory>
    ensures { OnOk result (chain.new ≡ where_code (λ s. not (eqb s code)) chain.old) }
{
    if chain.holds(code) {
        chain.toggle(code)?;
    }
    Ok(())
}
