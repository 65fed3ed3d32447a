//! What the recorder does to the registers besides writes.
ghost use Rattle.std.specs.Prelude.{◌≡◌, if◌then◌else◌};
ghost use Rattle.clock.specs.Ticking.{rolls_over};
ghost use Rattle.registers.specs.Contents.{contents_of, new_contents, with_ready};
ghost use Rattle.registers.specs.Steps.{clear_after, count_down_after, latch_after, latched, raise_after, start_after, take_enable_after, tick_after};

use super::{Registers, SERIAL_BYTES, USER_BYTES};
use crate::flags::raised;
use clock::Clock;
use mission::{Channels, Codes, Flags, Limits};

/// Control 2 with every channel off.
const ALL_OFF: u8 = 0x01;

/// The latest temperature code where temperature is off.
const NO_TEMPERATURE: u8 = 0xFF;

impl Registers {
    /// Registers as they are made, with a serial number.
    pub fn new(serial: [u8; SERIAL_BYTES]) -> Registers
        ensures { contents_of result ≡ new_contents serial }
    {
        Registers {
            clock: Clock::new(),
            limits: Limits::default(),
            rate: 0,
            control: 0,
            clear_enabled: false,
            delay: 0,
            latest: Codes::default(),
            ready: false,
            cleared: true,
            flags: Flags::default(),
            switches: ALL_OFF,
            user: [0; USER_BYTES],
            serial,
        }
    }

    /// Lets one second pass, and answers whether the seconds of the clock rolled over from 59 to 00.
    pub fn tick(&mut self) -> bool
        ensures answer { result ≡ rolls_over (contents_of self.old).moment }
        ensures after { contents_of self.new ≡ tick_after (contents_of self.old) }
    {
        self.clock.tick()
    }

    /// Takes the codes of the channels that are on as the latest.
    pub fn latch(&mut self, channels: Channels, codes: Codes)
        ensures { contents_of self.new ≡ latch_after (contents_of self.old) channels codes }
    {
        self.latest = latched(self.latest, channels, codes);
    }

    /// Sets the flags of the channels that are on and whose codes are low or high.
    pub fn raise_flags(&mut self, channels: Channels, limits: &Limits, codes: Codes)
        ensures { contents_of self.new ≡ raise_after (contents_of self.old) channels limits.now codes }
    {
        self.flags = raised(self.flags, channels, limits, codes);
    }

    /// Counts the start delay down by one, to 0 at least.
    pub fn count_delay_down(&mut self)
        ensures { contents_of self.new ≡ count_down_after (contents_of self.old) }
    {
        self.delay = self.delay.saturating_sub(1);
    }

    /// Answers whether a clear is enabled, and disables it.
    pub fn take_clear_enable(&mut self) -> bool
        ensures answer { result ≡ (contents_of self.old).clear_enabled }
        ensures after { contents_of self.new ≡ take_enable_after (contents_of self.old) }
    {
        std::mem::take(&mut self.clear_enabled)
    }

    /// Says whether data is ready.
    pub fn set_ready(&mut self, ready: bool)
        ensures { contents_of self.new ≡ with_ready (contents_of self.old) ready }
    {
        self.ready = ready;
    }

    /// Notes the start of a mission: the record is no longer cleared.
    pub fn start(&mut self)
        ensures { contents_of self.new ≡ start_after (contents_of self.old) }
    {
        self.cleared = false;
    }

    /// Notes that the record is cleared, which sets the sample rate and the start delay to 0.
    pub fn clear(&mut self)
        ensures { contents_of self.new ≡ clear_after (contents_of self.old) }
    {
        self.rate = 0;
        self.delay = 0;
        self.cleared = true;
    }
}

/// The latest codes after these of the channels that are on.
fn latched(latest: Codes, channels: Channels, codes: Codes) -> Codes
    ensures { result ≡ latched latest channels codes }
{
    Codes {
        temperature: latched_code(channels.temperature, codes.temperature, NO_TEMPERATURE),
        one: latched_code(channels.one, codes.one, latest.one),
        two: latched_code(channels.two, codes.two, latest.two),
        three: latched_code(channels.three, codes.three, latest.three),
    }
}

/// The code of a channel that is on, else what its register shows while it is off.
fn latched_code(on: bool, code: u8, off: u8) -> u8
    ensures { result ≡ (if on then code else off) }
{
    if on { code } else { off }
}
