//! The top call.
ghost use Rattle.std.specs.Prelude.{◌≡◌, ◌≢◌, ◌⊎◌, ℕ, ◌+◌, ◌-◌, ◌^◌, ◌<◌, ◌↔◌, List, [], ◌∷◌, map, codes, string_bytes, IfSome};
ghost use Rattle.std.specs.Io.KnownBytes.{Appends};
ghost use Rattle.grid_ports.specs.Bytes.{TakesAtMost, AppendsPrefix};
ghost use Rattle.grid_text.specs.Document.{IsDocument};
ghost use Rattle.grid_text.specs.Faults.{IsFirstFault};
ghost use Rattle.grid_text.specs.Script.{GridScript};
ghost use Rattle.torus_geom.specs.Homology.{IsHomologyTable};
ghost use Rattle.homology_cert.specs.Certificates.{Certificate, IsCertificate};
ghost use Rattle.homology_cert.specs.CertificateTests.{certified_rows};
ghost use Rattle.homology_cert.specs.CertificateText.{certificate_text};
ghost use Rattle.grid_job.specs.Checked.{yes_line};
ghost use Rattle.grid_job.specs.Made.{IsMade};
ghost use Rattle.grid_job.specs.Report.{IsReport};
ghost use Rattle.grid_job.specs.Words.{word_at, IsMake};
ghost use Rattle.grid_job.specs.Outcome.{IsForm, IsRefusal, IsOutcome, IsEnd, HasEnded, HasBegun, most_read};

use crate::answers::answer_words;
use crate::modes::Mode;
use crate::statuses::Status;
use grid_ports::{Sink, Source};
use grid_text::TextFault;
use std::alloc::Global;

/// Does what the words ask for: `run` alone reads a document from `src` and writes a report of it to `out`;
/// `cert` alone reads a document and writes a certificate of the grid in force at its end, which has a size of at
/// most six; `check` alone reads a certificate and writes whether it passes; `compare` alone reads two documents,
/// parted by a line `next`, and writes which of the facts on the grids in force at their ends agree; `make --size N
/// --seed K` reads nothing, and writes the script of this size and seed with a summary of its grid.
///
/// The words are those after the program's name. The options of `make` stand in either order, each in one word
/// with `=` or in two, and are read by `clap`, which asks for memory. All is read before anything is written. A text
/// that is no document is refused by one line, which tells its first fault and the line that has it; to `check`, one
/// that is no certificate is, by its first bad line. A chain that the document names is followed through the turns, the
/// commutations and the symmetries of the grid; no chain is followed across a stabilisation or the mirror image. The
/// ranks that a report or a certificate tells are those of the homology of the fully blocked grid complex over F2
/// (Ozsváth, Stipsicz and Szabó, "Grid Homology for Knots and Links", chapter 4), or, for `coranks`, of its cohomology.
///
/// What is said of bytes holds for a source and a sink that tell theirs.
pub fn gridhom<S: Source, K: Sink>(
    alloc: Global,
    words: &[String],
    src: &mut S,
    out: &mut K,
) -> Status
    requires source_count { S.faults src.old < 2 ^ 64 - 1 }
    requires sink_count { K.faults out.old < 2 ^ 64 - 1 }

    // A call that went to its end has written the answer of one of its outcomes: a run has read all of the text, and
    // written a report of a document, and of any other text the line that refuses it. So it is with `cert` and a
    // certificate of the grid, and with `check` and the line of the verdict of a certificate.
    ensures ended { IsEnd result → IfSome (S.left src.old) (λ text. HasEnded
        (map string_bytes words.now) text result
        (S.left src.new) (K.written out.old) (K.written out.new)) }

    // If a write failed or memory ran out, a prefix of such an answer was written.
    ensures begun { (mode : Mode) → IsForm (map string_bytes words.now) mode
        → (result ≡ Status.WriteFault) ⊎ (result ≡ Status.NoMemory)
        → IfSome (S.left src.old) (λ text. HasBegun (map string_bytes words.now) text
        (K.written out.old) (K.written out.new)) }

    // If no call fails, the answer is the status of the outcomes, memory aside.
    ensures answer { (mode : Mode) → IsForm (map string_bytes words.now) mode
        → S.faults src.new ≡ S.faults src.old → K.faults out.new ≡ K.faults out.old
        → IfSome (S.left src.old) (λ text. (status : Status) (answer : List ℕ)
        → IsOutcome mode text status answer → (result ≡ status) ⊎ (result ≡ Status.NoMemory)) }

    // Words that ask for nothing are the only cause of Usage, and they have no other answer, but that memory may run
    // out on words that begin with `make`. Then nothing is read or written.
    ensures usage { result ≡ Status.Usage
        → (mode : Mode) → ¬ IsForm (map string_bytes words.now) mode }
    ensures always_usage { ((mode : Mode) → ¬ IsForm (map string_bytes words.now) mode)
        → word_at (map string_bytes words.now) 0 ≢ codes "make" → result ≡ Status.Usage }
    ensures no_form { ((mode : Mode) → ¬ IsForm (map string_bytes words.now) mode)
        → ((result ≡ Status.Usage) ⊎ (result ≡ Status.NoMemory))
        × (src.new ≡ src.old) × (out.new ≡ out.old) }

    // One read that failed in this call is the only cause of ReadFault, and no other answer hides one;
    // nothing is written then. So it is with writes.
    ensures read_fault { result ≡ Status.ReadFault
        → (S.faults src.new ≡ S.faults src.old + 1) × (out.new ≡ out.old) }
    ensures no_read_fault { result ≢ Status.ReadFault → S.faults src.new ≡ S.faults src.old }
    ensures write_fault { result ≡ Status.WriteFault
        → K.faults out.new ≡ K.faults out.old + 1 }
    ensures no_write_fault { result ≢ Status.WriteFault → K.faults out.new ≡ K.faults out.old }

    // `check` alone finds that a certificate fails.
    ensures no { result ≡ Status.No → map string_bytes words.now ≡ codes "check" ∷ [] }

    // A text is refused where one is read.
    ensures refused { result ≡ Status.Refused → (map string_bytes words.now ≡ codes "run" ∷ [])
        ⊎ ((map string_bytes words.now ≡ codes "cert" ∷ [])
        ⊎ ((map string_bytes words.now ≡ codes "check" ∷ [])
        ⊎ (map string_bytes words.now ≡ codes "compare" ∷ []))) }

    // A call of `make` reads nothing, whatever its end. A call that is done has written a made script with its
    // summary, whatever the source is.
    ensures make_reads_nothing { (size seed : ℕ) → IsMake (map string_bytes words.now) size seed
        → src.new ≡ src.old }
    ensures make_ended { (size seed : ℕ) → IsMake (map string_bytes words.now) size seed → IsEnd result
        → (result ≡ Status.Done) × ((answer : List ℕ) × IsMade size seed answer
        × Appends (K.written out.old) (K.written out.new) answer) }
    ensures make_begun { (size seed : ℕ) → IsMake (map string_bytes words.now) size seed
        → (result ≡ Status.WriteFault) ⊎ (result ≡ Status.NoMemory)
        → (answer : List ℕ) × IsMade size seed answer
        × AppendsPrefix (K.written out.old) (K.written out.new) answer }
    ensures make_answer { (size seed : ℕ) → IsMake (map string_bytes words.now) size seed
        → K.faults out.new ≡ K.faults out.old → (result ≡ Status.Done) ⊎ (result ≡ Status.NoMemory) }

    // Whatever its end, a call takes no more of the source than its mode reads.
    ensures taken { (mode : Mode) → IsForm (map string_bytes words.now) mode
        → TakesAtMost (most_read mode) (S.left src.old) (S.left src.new) }

    // If memory ran out, a part of a report is all that may be written.
    ensures memory_keeps_sink { result ≡ Status.NoMemory
        → map string_bytes words.now ≢ codes "run" ∷ [] → out.new ≡ out.old }
    ensures memory_writes_no_refusal { result ≡ Status.NoMemory
        → IfSome (S.left src.old) (λ text. (answer : List ℕ) → IsRefusal text answer
        → out.new ≡ out.old) }

    // Every text has an outcome in each mode that words ask for, and all of them have one status.
    ensures some_outcome { (asked : List (List ℕ)) (mode : Mode) (text : List ℕ) → IsForm asked mode
        → (status : Status) × (answer : List ℕ) × IsOutcome mode text status answer }
    ensures one_status { (mode : Mode) (text : List ℕ) (s t : Status) (a b : List ℕ)
        → IsOutcome mode text s a → IsOutcome mode text t b → s ≡ t }

    // What `cert` has written is a certificate that passes, and `check` says so.
    ensures certificates_pass { (text answer : List ℕ) → IsOutcome Mode.Cert text Status.Done answer
        → IsOutcome Mode.Check answer Status.Done yes_line }

    // A yes of `check` implies the table of the grid of the certificate, whoever made it.
    ensures yes_tells_the_table { (text answer : List ℕ) → IsOutcome Mode.Check text Status.Done answer
        → (c : Certificate) × IsCertificate c × (text ≡ certificate_text c)
        × IsHomologyTable c.grid (certified_rows c.cells) }

    // A text is a document of one script alone, and then it has no first fault, of which there is one.
    ensures one_script { (text : List ℕ) (s t : GridScript) → IsDocument text s → IsDocument text t
        → s ≡ t }
    ensures no_document { (text : List ℕ) (f : TextFault) (line : ℕ) (s : GridScript)
        → IsFirstFault text f line → IsDocument text s → ⊥ }
    ensures one_fault { (text : List ℕ) (f g : TextFault) (line number : ℕ)
        → IsFirstFault text f line → IsFirstFault text g number → (f ≡ g) × (line ≡ number) }
{
    answer_words(alloc, words, src, out)
}
