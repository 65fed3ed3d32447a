//! A recorder on the asynchronous line, with the memories that it is lent.
use hex_text::ShortBytes;
use line::{Asynchronous, Line, WIRE_BYTES};
use memory::{Journal, JournalEntry, Log};
use mission::Codes;
use recorder::{Recorder, SERIAL_BYTES};
use refusal::Refusal;
use script::{Answer, Call};

/// The serial number of the recorder on the bench.
const SERIAL: [u8; SERIAL_BYTES] = [0; SERIAL_BYTES];

#[derive(Drop)]
pub(crate) struct Bench {
    recorder: Recorder<Asynchronous>,
    log: [u8; Log::BYTES],
    journal: [JournalEntry; Journal::ENTRIES],
}

impl Bench {
    /// A new recorder.
    pub(crate) fn new() -> Result<Bench, Refusal> {
        let mut log = [0; Log::BYTES];
        let mut journal = [JournalEntry::blank(); Journal::ENTRIES];
        let recorder = Recorder::make(&mut log, &mut journal, Asynchronous::new(), SERIAL).map_err(
            |not_made| not_made.refusal,
        )?;
        Ok(Bench {
            recorder,
            log,
            journal,
        })
    }

    /// Performs a call, and answers with a line.
    pub(crate) fn perform(&mut self, call: Call) -> ShortBytes {
        let mut wire = [0; WIRE_BYTES];
        match self.answer(call, &mut wire) {
            Ok(answer) => answer.text(),
            Err(refusal) => refused(refusal).text(),
        }
    }

    /// Performs a call. A collection writes its wire bytes to the front of `wire`.
    fn answer<'a>(
        &mut self,
        call: Call,
        wire: &'a mut [u8; WIRE_BYTES],
    ) -> Result<Answer<'a>, Refusal> {
        match call {
            Call::Byte(byte) => {
                self.recorder.byte(&mut self.log, &mut self.journal, byte)?;
                Ok(Answer::Done)
            }
            Call::Gap => {
                self.recorder.gap();
                Ok(Answer::Done)
            }
            Call::Second(codes) => {
                self.recorder
                    .second(&mut self.log, &mut self.journal, codes)?;
                Ok(Answer::Done)
            }
            Call::Press => {
                let started = self.recorder.press(&mut self.log, &mut self.journal)?;
                Ok(Answer::Pressed(started))
            }
            Call::Collect => {
                let count = self.recorder.collect(wire)?;
                Ok(Answer::Wire(&wire[0..count]))
            }
        }
    }
}

/// The answer of a call that is refused.
pub(crate) fn refused<'a>(refusal: Refusal) -> Answer<'a> {
    Answer::Refused(refusal.number())
}

#[cfg(test)]
mod tests {
    use super::*;
    use std::mem::size_of;
    use std::process::Abort;
    use std::test::Fail;

    // What the recorder with its line, the log and the journal may take together.
    const FOOTPRINT: usize = 4096;

    const CODES: Codes = Codes {
        temperature: 100,
        one: 1,
        two: 2,
        three: 3,
    };

    fn bench() -> Result<Bench, Fail> {
        Ok(Bench::new().ok().ok_or("no recorder was made")?)
    }

    // Sends bytes, each of which is accepted.
    fn send(rt: &impl Abort, bench: &mut Bench, bytes: &[u8]) {
        for byte in bytes {
            assert_eq!(rt;
                bench.perform(Call::Byte(*byte)).as_slice(),
                b"ok".as_slice()
            );
        }
    }

    fn check_refused<T: Drop>(
        rt: &impl Abort,
        answer: Result<T, Refusal>,
        number: u8,
    ) -> Result<(), Fail> {
        let refusal = answer.err().ok_or("accepted")?;
        assert_eq!(rt; refusal.number(), number);
        Ok(())
    }

    #[test]
    fn bench_fits_in_its_footprint(rt: HostRuntime) {
        assert!(rt; size_of::<Bench>() <= FOOTPRINT);
    }

    #[test]
    fn reply_outlasts_a_short_buffer(rt: HostRuntime) -> Result<(), Fail> {
        let mut bench = bench()?;
        send(&rt, &mut bench, &[0x33, 0x00, 0x1E]);
        let mut short = [0xEE; 3];
        let refusal = bench.recorder.collect(&mut short).err().ok_or("collected")?;
        assert_eq!(rt; refusal.number(), 12);
        assert_eq!(rt; refusal.place(), 4);
        assert_eq!(rt; short, [0xEE; 3]);
        assert_eq!(rt;
            bench.perform(Call::Collect).as_slice(),
            b"00 00 00 00".as_slice()
        );
        Ok(())
    }

    #[test]
    fn memories_of_a_wrong_length_are_refused(rt: HostRuntime) -> Result<(), Fail> {
        let mut bench = bench()?;
        let mut short = [0xEE; Log::BYTES - 1];
        let mut long = [JournalEntry::blank(); Journal::ENTRIES + 1];
        // A press would start a mission.
        send(&rt, &mut bench, &[0x22, 0x29, 0x40]);
        send(&rt, &mut bench, &[0x22, 0x0E, 0x10]);
        send(&rt, &mut bench, &[0x22, 0x0D, 0x01]);
        send(&rt, &mut bench, &[0x33, 0x00, 0x00]);
        let before = bench.perform(Call::Collect);
        // In the middle of a read each call is refused, with either memory.
        send(&rt, &mut bench, &[0x33, 0x00]);
        check_refused(
            &rt,
            bench.recorder.byte(&mut short, &mut bench.journal, 0x00),
            1,
        )?;
        check_refused(&rt, bench.recorder.byte(&mut bench.log, &mut long, 0x00), 1)?;
        check_refused(
            &rt,
            bench.recorder.second(&mut short, &mut bench.journal, CODES),
            1,
        )?;
        check_refused(
            &rt,
            bench.recorder.second(&mut bench.log, &mut long, CODES),
            1,
        )?;
        check_refused(&rt, bench.recorder.press(&mut short, &mut bench.journal), 1)?;
        check_refused(&rt, bench.recorder.press(&mut bench.log, &mut long), 1)?;
        assert_eq!(rt; short, [0xEE; Log::BYTES - 1]);
        // The read goes on, and shows what it showed before.
        send(&rt, &mut bench, &[0x00]);
        assert_eq!(rt; bench.perform(Call::Collect).as_slice(), before.as_slice());
        Ok(())
    }

    #[test]
    fn making_over_a_short_log_is_refused(rt: HostRuntime) -> Result<(), Fail> {
        let mut log = [0xEE; Log::BYTES - 1];
        let mut journal = [JournalEntry::blank(); Journal::ENTRIES];
        let made = Recorder::make(&mut log, &mut journal, Asynchronous::new(), SERIAL);
        let not_made = made.err().ok_or("made")?;
        assert_eq!(rt; not_made.refusal.number(), 1);
        assert_eq!(rt; log, [0xEE; Log::BYTES - 1]);
        Ok(())
    }
}
