//! One call of a run is performed on a real recorder.
ghost use Rattle.std.specs.Prelude.{◌≡◌, ℕ, ◌≤◌, Bool, true, false, List, length, is_ok, if◌then◌else◌};
ghost use Rattle.line.specs.Collecting.{collect_answer, over};
ghost use Rattle.memory.specs.declared.event.JournalEntry.{JournalEntry};
ghost use Rattle.recorder.specs.Seen.{seen};
ghost use Rattle.model.specs.Fits.{fits, lendable};
ghost use Rattle.memory.specs.Serving.{serves};
ghost use Rattle.model.specs.Steps.{act_answer, act_after, call_answer, call_after, call_outcome, wire_over};

use crate::calls::{Action, Answer, Call, Outcome, Success};
use line::{Line, WIRE_BYTES};
use memory::{JournalEntry, can_serve};
use recorder::Recorder;

/// Performs the action with these memories.
fn act<L: Line>(
    recorder: &mut Recorder<L>,
    log: &mut [u8],
    journal: &mut [JournalEntry],
    action: Action,
) -> Answer
    ensures answer { result ≡ act_answer (seen L.meaning recorder.old log.old journal.old) action }
    ensures after { seen L.meaning recorder.new log.new journal.new ≡ act_after (seen L.meaning recorder.old log.old journal.old) action }
    ensures kept { serves (length log.old) (length journal.old) ≡ false → (recorder.new ≡ recorder.old) × (log.new ≡ log.old) × (journal.new ≡ journal.old) }
{
    match action {
        Action::Byte(byte) => {
            recorder.byte(log, journal, byte)?;
            Ok(Success::Done)
        }
        Action::Second(codes) => {
            recorder.second(log, journal, codes)?;
            Ok(Success::Done)
        }
        Action::Press => Ok(Success::Pressed(recorder.press(log, journal)?)),
    }
}

/// Performs the action with memories of these lengths: the recorder's own, or else the fronts of spare ones.
fn act_with<L: Line>(
    recorder: &mut Recorder<L>,
    log: &mut [u8],
    journal: &mut [JournalEntry],
    spare_log: &mut [u8],
    spare_journal: &mut [JournalEntry],
    n: usize,
    k: usize,
    action: Action,
) -> Answer
    requires { lendable (length spare_log.old) (length spare_journal.old) n k ≡ true }
    ensures answer { result ≡ call_answer L.wire (seen L.meaning recorder.old log.old journal.old) (Call.Lent n k action) }
    ensures after { seen L.meaning recorder.new log.new journal.new ≡ call_after L.wire (seen L.meaning recorder.old log.old journal.old) (Call.Lent n k action) }
    ensures spare_log { spare_log.new ≡ spare_log.old }
    ensures spare_journal { spare_journal.new ≡ spare_journal.old }
{
    if can_serve(n, k) {
        return act(recorder, log, journal, action);
    }
    act(
        recorder,
        &mut spare_log[0..n],
        &mut spare_journal[0..k],
        action,
    )
}

/// The reply that waits is collected into the front of `wire`.
fn collect<L: Line>(recorder: &mut Recorder<L>, room: usize, wire: &mut [u8; WIRE_BYTES]) -> Answer
    requires { room ≤ 80 }
    ensures answer { (log : List ℕ) (journal : List JournalEntry) → result ≡ call_answer L.wire (seen L.meaning recorder.old log journal) (Call.Collect room) }
    ensures after { (log : List ℕ) (journal : List JournalEntry) → seen L.meaning recorder.new log journal ≡ call_after L.wire (seen L.meaning recorder.old log journal) (Call.Collect room) }
    ensures wire { wire.new ≡ (if is_ok (collect_answer (L.wire (L.meaning recorder.old.line).bytes) (L.meaning recorder.old.line) room) then over (L.wire (L.meaning recorder.old.line).bytes) wire.old else wire.old) }
{
    recorder.collect(&mut wire[0..room]).map(Success::Collected)
}

/// Performs one call on a recorder, and notes what came of it.
pub(crate) fn perform<L: Line>(
    recorder: &mut Recorder<L>,
    log: &mut [u8],
    journal: &mut [JournalEntry],
    spare_log: &mut [u8],
    spare_journal: &mut [JournalEntry],
    call: Call,
) -> Outcome
    requires { fits (length spare_log.old) (length spare_journal.old) call ≡ true }
    ensures outcome { result ≡ call_outcome L.wire (seen L.meaning recorder.old log.old journal.old) call }
    ensures after { seen L.meaning recorder.new log.new journal.new ≡ call_after L.wire (seen L.meaning recorder.old log.old journal.old) call }
    ensures spare_log { spare_log.new ≡ spare_log.old }
    ensures spare_journal { spare_journal.new ≡ spare_journal.old }
{
    let mut wire = [0; WIRE_BYTES];
    let answer = answer(
        recorder,
        log,
        journal,
        spare_log,
        spare_journal,
        call,
        &mut wire,
    );
    Outcome {
        answer,
        wire,
        current: recorder.current(),
        total: recorder.total(),
    }
}

/// What a call answers. A collection writes its wire bytes to the front of `wire`.
fn answer<L: Line>(
    recorder: &mut Recorder<L>,
    log: &mut [u8],
    journal: &mut [JournalEntry],
    spare_log: &mut [u8],
    spare_journal: &mut [JournalEntry],
    call: Call,
    wire: &mut [u8; WIRE_BYTES],
) -> Answer
    requires { fits (length spare_log.old) (length spare_journal.old) call ≡ true }
    ensures answer { result ≡ call_answer L.wire (seen L.meaning recorder.old log.old journal.old) call }
    ensures after { seen L.meaning recorder.new log.new journal.new ≡ call_after L.wire (seen L.meaning recorder.old log.old journal.old) call }
    ensures wire { wire.new ≡ wire_over L.wire (seen L.meaning recorder.old log.old journal.old) call wire.old }
    ensures spare_log { spare_log.new ≡ spare_log.old }
    ensures spare_journal { spare_journal.new ≡ spare_journal.old }
{
    match call {
        Call::Lent {
            log: n,
            journal: k,
            action,
        } => act_with(
            recorder,
            log,
            journal,
            spare_log,
            spare_journal,
            n,
            k,
            action,
        ),
        Call::Gap => {
            recorder.gap();
            Ok(Success::Done)
        }
        Call::Collect { room } => collect(recorder, room, wire),
    }
}
