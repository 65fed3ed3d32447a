//! Whole runs: a recorder is made, and each call of a list is performed on it.
ghost use Rattle.std.specs.Prelude.{◌≡◌, ℕ, ◌<◌, Bool, true, false, ◌&&◌, List, length, take, MatchResult, IfOk};
ghost use Rattle.std.specs.List.{AllByRecursion};
ghost use Rattle.line.specs.Reply.{Bytes};
ghost use Rattle.recorder.specs.Seen.{seen};
ghost use Rattle.model.specs.Fits.{Narrow, all_fit, fits, lendable, runnable};
ghost use Rattle.model.specs.Flagging.{Flags};
ghost use Rattle.model.specs.Laws.{BinsAddUp};
ghost use Rattle.model.specs.Model.{fresh};
ghost use Rattle.model.specs.Runs.{ends};
ghost use Rattle.model.specs.Steps.{outcomes, run_after};
ghost use Rattle.model.specs.Theorem.{Ran};

use crate::calls::{Call, Outcome};
use crate::performing::perform;
use line::{Line, WIRE_BYTES};
use memory::{JournalEntry, can_serve};
use recorder::{Recorder, SERIAL_BYTES};

/// Whether memories of these lengths can be lent: the recorder's own, or the fronts of spare ones.
fn can_lend(spare_log: usize, spare_journal: usize, log: usize, journal: usize) -> bool
    ensures { result ≡ lendable spare_log spare_journal log journal }
{
    can_serve(log, journal) || (log <= spare_log && journal <= spare_journal)
}

/// Whether a call can be performed with spare memories of these lengths.
fn can_perform(spare_log: usize, spare_journal: usize, call: Call) -> bool
    ensures fits { result ≡ fits spare_log spare_journal call }
    ensures narrow { Narrow call }
{
    match call {
        Call::Lent {
            log,
            journal,
            action: _,
        } => can_lend(spare_log, spare_journal, log, journal),
        Call::Gap => true,
        Call::Collect { room } => room <= WIRE_BYTES,
    }
}

/// Whether each of the calls can be performed with spare memories of these lengths.
fn can_perform_all(spare_log: usize, spare_journal: usize, calls: &[Call]) -> bool
    ensures fit { result ≡ all_fit spare_log spare_journal calls.now }
    ensures narrow { result ≡ true → AllByRecursion Narrow calls.now }
{
    calls
        .iter()
        .all(|call| can_perform(spare_log, spare_journal, *call))
}

/// Performs each of the calls on a recorder, and notes what came of each.
fn perform_all<L: Line>(
    recorder: &mut Recorder<L>,
    log: &mut [u8],
    journal: &mut [JournalEntry],
    spare_log: &mut [u8],
    spare_journal: &mut [JournalEntry],
    calls: &[Call],
    notes: &mut [Outcome],
)
    requires places { length notes.old ≡ length calls.now }
    requires fit { all_fit (length spare_log.old) (length spare_journal.old) calls.now ≡ true }
    ensures notes { notes.new ≡ outcomes L.wire (seen L.meaning recorder.old log.old journal.old) calls.now }
    ensures after { seen L.meaning recorder.new log.new journal.new ≡ run_after L.wire (seen L.meaning recorder.old log.old journal.old) calls.now }
    ensures bytes { (i : ℕ) → i < length calls.now → Bytes (run_after L.wire (seen L.meaning recorder.old log.old journal.old) (take i calls.now)).line.bytes }
    ensures spare_log { spare_log.new ≡ spare_log.old }
    ensures spare_journal { spare_journal.new ≡ spare_journal.old }
{
    for (i, call) in calls.iter().enumerate() {
        notes[i] = perform(recorder, log, journal, spare_log, spare_journal, *call);
    }
}

/// Makes a recorder with this serial number over the line, and performs each of the calls on it. `notes` takes what came of each call.
///
/// A call that is lent memories of wrong lengths is given the fronts of the spare ones, which nothing changes. Where the spare memories are too short for
/// a call, a collection has more room than 80 bytes, there is not one note for each call, or the recorder's own memories cannot serve, nothing
/// is done and the line is handed back.
pub fn run<L: Line>(
    calls: &[Call],
    line: L,
    serial: [u8; SERIAL_BYTES],
    log: &mut [u8],
    journal: &mut [JournalEntry],
    spare_log: &mut [u8],
    spare_journal: &mut [JournalEntry],
    notes: &mut [Outcome],
) -> Result<Recorder<L>, L>
    ensures ran { MatchResult result (λ k. (runnable calls.now (length notes.old) (length spare_log.old) (length spare_journal.old) (length log.old) (length journal.old) ≡ true) × Ran L.meaning L.wire L.accepted serial calls.now k log.new journal.new notes.new) (λ l. (runnable calls.now (length notes.old) (length spare_log.old) (length spare_journal.old) (length log.old) (length journal.old) ≡ false) × (l ≡ line) × (log.new ≡ log.old) × (journal.new ≡ journal.old) × (notes.new ≡ notes.old)) }
    ensures bins { IfOk result (λ _. BinsAddUp (ends L.wire (fresh serial) calls.now)) }
    ensures flags { IfOk result (λ _. Flags L.wire L.accepted serial calls.now) }
    ensures spare_log { spare_log.new ≡ spare_log.old }
    ensures spare_journal { spare_journal.new ≡ spare_journal.old }
{
    if notes.len() != calls.len()
        || !can_perform_all(spare_log.len(), spare_journal.len(), calls)
        || !can_serve(log.len(), journal.len())
    {
        return Err(line);
    }
    match Recorder::make(log, journal, line, serial) {
        Ok(mut recorder) => {
            perform_all(
                &mut recorder,
                log,
                journal,
                spare_log,
                spare_journal,
                calls,
                notes,
            );
            Ok(recorder)
        }
        Err(not_made) => Err(not_made.line),
    }
}
