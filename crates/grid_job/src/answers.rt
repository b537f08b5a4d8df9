//! The answer to the words of a call.
ghost use Rattle.std.specs.Prelude.{◌≡◌, ◌≢◌, ◌⊎◌, ℕ, ◌+◌, ◌-◌, ◌^◌, ◌<◌, ◌↔◌, List, [], ◌∷◌, map, codes, string_bytes, IfSome};
ghost use Rattle.std.specs.Io.KnownBytes.{Appends};
ghost use Rattle.grid_ports.specs.Bytes.{TakesAtMost, AppendsPrefix};
ghost use Rattle.grid_job.specs.Made.{IsMade};
ghost use Rattle.grid_job.specs.Words.{word_at, IsMake};
ghost use Rattle.grid_job.specs.Outcome.{IsForm, IsRefusal, IsOutcome, IsEnd, HasEnded, HasBegun, most_read};

use crate::certificates::cert;
use crate::checks::check;
use crate::comparisons::compare;
use crate::made::make;
use crate::modes::{Mode, mode_of};
use crate::runs::run;
use crate::statuses::Status;
use crate::words::make_numbers;
use grid_ports::{Sink, Source};
use std::alloc::Global;

/// Does what the words ask for. It is the body of the top call, without the laws.
pub(crate) fn answer_words<S: Source, K: Sink>(
    alloc: Global,
    words: &[String],
    src: &mut S,
    out: &mut K,
) -> Status
    requires source_count { S.faults src.old < 2 ^ 64 - 1 }
    requires sink_count { K.faults out.old < 2 ^ 64 - 1 }
    ensures ended { IsEnd result → IfSome (S.left src.old) (λ text. HasEnded
        (map string_bytes words.now) text result
        (S.left src.new) (K.written out.old) (K.written out.new)) }
    ensures begun { (mode : Mode) → IsForm (map string_bytes words.now) mode
        → (result ≡ Status.WriteFault) ⊎ (result ≡ Status.NoMemory)
        → IfSome (S.left src.old) (λ text. HasBegun (map string_bytes words.now) text
        (K.written out.old) (K.written out.new)) }
    ensures answer { (mode : Mode) → IsForm (map string_bytes words.now) mode
        → S.faults src.new ≡ S.faults src.old → K.faults out.new ≡ K.faults out.old
        → IfSome (S.left src.old) (λ text. (status : Status) (answer : List ℕ)
        → IsOutcome mode text status answer → (result ≡ status) ⊎ (result ≡ Status.NoMemory)) }
    ensures usage { result ≡ Status.Usage
        → (mode : Mode) → ¬ IsForm (map string_bytes words.now) mode }
    ensures always_usage { ((mode : Mode) → ¬ IsForm (map string_bytes words.now) mode)
        → word_at (map string_bytes words.now) 0 ≢ codes "make" → result ≡ Status.Usage }
    ensures no_form { ((mode : Mode) → ¬ IsForm (map string_bytes words.now) mode)
        → ((result ≡ Status.Usage) ⊎ (result ≡ Status.NoMemory))
        × (src.new ≡ src.old) × (out.new ≡ out.old) }
    ensures read_fault { result ≡ Status.ReadFault
        → (S.faults src.new ≡ S.faults src.old + 1) × (out.new ≡ out.old) }
    ensures no_read_fault { result ≢ Status.ReadFault → S.faults src.new ≡ S.faults src.old }
    ensures write_fault { result ≡ Status.WriteFault
        → K.faults out.new ≡ K.faults out.old + 1 }
    ensures no_write_fault { result ≢ Status.WriteFault → K.faults out.new ≡ K.faults out.old }
    ensures no { result ≡ Status.No → map string_bytes words.now ≡ codes "check" ∷ [] }
    ensures refused { result ≡ Status.Refused → (map string_bytes words.now ≡ codes "run" ∷ [])
        ⊎ ((map string_bytes words.now ≡ codes "cert" ∷ [])
        ⊎ ((map string_bytes words.now ≡ codes "check" ∷ [])
        ⊎ (map string_bytes words.now ≡ codes "compare" ∷ []))) }
    ensures make_reads_nothing { (size seed : ℕ) → IsMake (map string_bytes words.now) size seed
        → src.new ≡ src.old }
    ensures make_ended { (size seed : ℕ) → IsMake (map string_bytes words.now) size seed → IsEnd result
        → (result ≡ Status.Done) × ((answer : List ℕ) × IsMade size seed answer
        × Appends (K.written out.old) (K.written out.new) answer) }
    ensures make_begun { (size seed : ℕ) → IsMake (map string_bytes words.now) size seed
        → (result ≡ Status.WriteFault) ⊎ (result ≡ Status.NoMemory)
        → (answer : List ℕ) × IsMade size seed answer
        × AppendsPrefix (K.written out.old) (K.written out.new) answer }
    ensures make_answer { (size seed : ℕ) → IsMake (map string_bytes words.now) size seed
        → K.faults out.new ≡ K.faults out.old → (result ≡ Status.Done) ⊎ (result ≡ Status.NoMemory) }
    ensures taken { (mode : Mode) → IsForm (map string_bytes words.now) mode
        → TakesAtMost (most_read mode) (S.left src.old) (S.left src.new) }
    ensures memory_keeps_sink { result ≡ Status.NoMemory
        → map string_bytes words.now ≢ codes "run" ∷ [] → out.new ≡ out.old }
    ensures memory_writes_no_refusal { result ≡ Status.NoMemory
        → IfSome (S.left src.old) (λ text. (answer : List ℕ) → IsRefusal text answer
        → out.new ≡ out.old) }
{
    let Ok(made) = make_numbers(alloc, words) else {
        return Status::NoMemory;
    };
    match mode_of(words, made) {
        Some(Mode::Run) => run(alloc, src, out),
        Some(Mode::Cert) => cert(alloc, src, out),
        Some(Mode::Check) => check(alloc, src, out),
        Some(Mode::Compare) => compare(alloc, src, out),
        Some(Mode::Make { size, seed }) => make(alloc, size, seed, out),
        None => Status::Usage,
    }
}
