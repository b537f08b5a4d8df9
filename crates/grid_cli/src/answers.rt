//! The call of the program, and the line that tells its usage.
ghost use Rattle.std.specs.Prelude.{◌≡◌, ◌≢◌, ◌⊎◌, ℕ, ◌+◌, ◌-◌, ◌^◌, ◌<◌, ◌↔◌, List, [], ◌∷◌, map, codes, string_bytes, IfSome};
ghost use Rattle.std.specs.Io.KnownBytes.{Appends};
ghost use Rattle.grid_ports.specs.Bytes.{TakesAtMost, AppendsPrefix};
ghost use Rattle.grid_job.specs.Made.{IsMade};
ghost use Rattle.grid_job.specs.Words.{word_at, IsMake};
ghost use Rattle.grid_job.specs.Outcome.{IsForm, IsRefusal, IsOutcome, IsEnd, HasEnded, HasBegun, most_read};
ghost use Rattle.grid_cli.specs.Usage.{usage_line};

use grid_job::{Mode, Status, gridhom};
use grid_ports::{Sink, Source, write_all};
use std::alloc::Global;

/// The line that tells which words the program knows.
const USAGE: &str = "usage: gridhom run | cert | check | make --size N --seed K | compare\n";

/// Does what the words ask for, and answers how the call ended. If they ask for nothing, `errors` is told the
/// usage.
///
/// All that `gridhom` promises of its call is promised here.
pub(crate) fn answer<S: Source, K: Sink, E: Sink>(
    alloc: Global,
    words: &[String],
    src: &mut S,
    out: &mut K,
    errors: &mut E,
) -> Status
    requires source_count { S.faults src.old < 2 ^ 64 - 1 }
    requires sink_count { K.faults out.old < 2 ^ 64 - 1 }
    requires errors_count { E.faults errors.old < 2 ^ 64 - 1 }

    // A call that went to its end has written the answer of one of its outcomes: a run has read all of the text, and
    // written a report of a document, and of any other text the line that refuses it. So it is with `cert` and a
    // certificate of the grid, and with `check` and the line of the verdict of a certificate.
    ensures ended { IsEnd result → IfSome (S.left src.old) (λ text. HasEnded
        (map string_bytes words.now) text result
        (S.left src.new) (K.written out.old) (K.written out.new)) }

    // If a write failed or memory ran out, a prefix of such an answer was written.
    ensures begun { (mode : Mode) → IsForm (map string_bytes words.now) mode
        → (result ≡ Status.WriteFault) ⊎ (result ≡ Status.NoMemory)
        → IfSome (S.left src.old) (λ text. HasBegun (map string_bytes words.now) text
        (K.written out.old) (K.written out.new)) }

    // If no call fails, the answer is the status of the outcomes, memory aside.
    ensures answer { (mode : Mode) → IsForm (map string_bytes words.now) mode
        → S.faults src.new ≡ S.faults src.old → K.faults out.new ≡ K.faults out.old
        → IfSome (S.left src.old) (λ text. (status : Status) (answer : List ℕ)
        → IsOutcome mode text status answer → (result ≡ status) ⊎ (result ≡ Status.NoMemory)) }

    // Words that ask for nothing are the only cause of Usage, and they have no other answer, but that memory may run
    // out on words that begin with `make`. Then nothing is read or written.
    ensures usage { result ≡ Status.Usage
        → (mode : Mode) → ¬ IsForm (map string_bytes words.now) mode }
    ensures always_usage { ((mode : Mode) → ¬ IsForm (map string_bytes words.now) mode)
        → word_at (map string_bytes words.now) 0 ≢ codes "make" → result ≡ Status.Usage }
    ensures no_form { ((mode : Mode) → ¬ IsForm (map string_bytes words.now) mode)
        → ((result ≡ Status.Usage) ⊎ (result ≡ Status.NoMemory))
        × (src.new ≡ src.old) × (out.new ≡ out.old) }

    // One read that failed in this call is the only cause of ReadFault, and no other answer hides one;
    // nothing is written then. So it is with writes.
    ensures read_fault { result ≡ Status.ReadFault
        → (S.faults src.new ≡ S.faults src.old + 1) × (out.new ≡ out.old) }
    ensures no_read_fault { result ≢ Status.ReadFault → S.faults src.new ≡ S.faults src.old }
    ensures write_fault { result ≡ Status.WriteFault
        → K.faults out.new ≡ K.faults out.old + 1 }
    ensures no_write_fault { result ≢ Status.WriteFault → K.faults out.new ≡ K.faults out.old }

    // `check` alone finds that a certificate fails.
    ensures no { result ≡ Status.No → map string_bytes words.now ≡ codes "check" ∷ [] }

    // A text is refused where one is read.
    ensures refused { result ≡ Status.Refused → (map string_bytes words.now ≡ codes "run" ∷ [])
        ⊎ ((map string_bytes words.now ≡ codes "cert" ∷ [])
        ⊎ ((map string_bytes words.now ≡ codes "check" ∷ [])
        ⊎ (map string_bytes words.now ≡ codes "compare" ∷ []))) }

    // A call of `make` reads nothing, whatever its end. A call that is done has written a made script with its
    // summary, whatever the source is.
    ensures make_reads_nothing { (size seed : ℕ) → IsMake (map string_bytes words.now) size seed
        → src.new ≡ src.old }
    ensures make_ended { (size seed : ℕ) → IsMake (map string_bytes words.now) size seed → IsEnd result
        → (result ≡ Status.Done) × ((answer : List ℕ) × IsMade size seed answer
        × Appends (K.written out.old) (K.written out.new) answer) }
    ensures make_begun { (size seed : ℕ) → IsMake (map string_bytes words.now) size seed
        → (result ≡ Status.WriteFault) ⊎ (result ≡ Status.NoMemory)
        → (answer : List ℕ) × IsMade size seed answer
        × AppendsPrefix (K.written out.old) (K.written out.new) answer }
    ensures make_answer { (size seed : ℕ) → IsMake (map string_bytes words.now) size seed
        → K.faults out.new ≡ K.faults out.old → (result ≡ Status.Done) ⊎ (result ≡ Status.NoMemory) }

    // Whatever its end, a call takes no more of the source than its mode reads.
    ensures taken { (mode : Mode) → IsForm (map string_bytes words.now) mode
        → TakesAtMost (most_read mode) (S.left src.old) (S.left src.new) }

    // If memory ran out, a part of a report is all that may be written.
    ensures memory_keeps_sink { result ≡ Status.NoMemory
        → map string_bytes words.now ≢ codes "run" ∷ [] → out.new ≡ out.old }
    ensures memory_writes_no_refusal { result ≡ Status.NoMemory
        → IfSome (S.left src.old) (λ text. (answer : List ℕ) → IsRefusal text answer
        → out.new ≡ out.old) }

    // The usage is told exactly then, if the sink does not fail.
    ensures line { result ≡ Status.Usage → E.faults errors.new ≡ E.faults errors.old
        → Appends (E.written errors.old) (E.written errors.new) usage_line }
    ensures part_of_line { result ≡ Status.Usage
        → AppendsPrefix (E.written errors.old) (E.written errors.new) usage_line }
    ensures no_line { result ≢ Status.Usage → errors.new ≡ errors.old }
{
    let status = gridhom(alloc, words, src, out);
    if status == Status::Usage {
        // The status tells it too.
        let _ = write_all(errors, USAGE.as_bytes());
    }
    status
}
