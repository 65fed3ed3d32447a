//! A line whose wire bytes are the data bytes and then check bytes.
ghost use Rattle.std.specs.Prelude.{◌≡◌, ℕ, ◌+◌, ◌≤◌, List, length};
ghost use Rattle.line.specs.Collecting.{over};
ghost use Rattle.line.specs.Reply.{emptied};
ghost use Rattle.line.specs.Store.{stored};
ghost use Rattle.line.specs.Wires.{checked, from_checked};
ghost use Rattle.line.specs.Frames.{checked_accepted, checked_length, checked_narrow};
ghost use Rattle.line.specs.declared.line.TheConstants.{REPLY_BYTES as reply_bytes, WIRE_BYTES as wire_bytes};

use crate::line::{Line, REPLY_BYTES};
use crate::store::Store;
use refusal::{Refusal, Shortage};
use std::marker::PhantomData;

/// What a frame is: the data bytes of a reply, and then `N` check bytes.
pub trait Framing<const N: usize> {
    /// The check bytes of these data bytes.
    ghost checks: { List ℕ → List ℕ };

    /// The check bytes of these data bytes.
    fn checks(bytes: &[u8]) -> [u8; N]
        ensures { result ≡ checks bytes.now };

    /// There are `N` of them.
    ghost whole: { (xs : List ℕ) → length (checks xs) ≡ N };

    /// They are so few that a reply of 32 data bytes has at most `WIRE_BYTES` wire bytes.
    ghost few: { reply_bytes + N ≤ wire_bytes };
}

/// A line that carries its replies in such frames.
#[derive(Drop)]
pub struct Framed<F: Framing<N>, const N: usize> {
    store: Store,
    framing: PhantomData<F>,
}

impl<F: Framing<N>, const N: usize> Framed<F, N> {
    /// A line that holds nothing yet.
    pub fn new() -> Self
        ensures { stored result.store ≡ emptied }
    {
        Framed {
            store: Store::new(),
            framing: PhantomData,
        }
    }
}

/// Writes `from` over the front of `buffer`.
fn write_front(buffer: &mut [u8], from: &[u8])
    requires { length from.now ≤ length buffer.old }
    ensures { buffer.new ≡ over from.now buffer.old }
{
    let n = from.len();
    buffer[0..n].copy_from_slice(from);
}

impl<F: Framing<N>, const N: usize> Line for Framed<F, N> {
    ghost meaning = { λ line. stored line.store };

    ghost wire = { checked F.checks };

    ghost accepted = { from_checked N F.checks };

    ghost width = { λ n. n + N };

    ghost sound = { λ line. line.store.sound };

    ghost carried = { λ xs bytes some few. checked_accepted N F.checks F.whole xs some few };

    ghost wide = { λ xs. checked_length N F.checks F.whole xs };

    ghost narrow = { λ n few. checked_narrow N n F.few few };

    fn open(&mut self) {
        self.store.clear();
    }

    fn put(&mut self, byte: u8) -> Result<(), Refusal> {
        self.store.push(byte)
    }

    fn close(&mut self) {
        self.store.finish();
    }

    fn waits(&self) -> bool {
        self.store.waits()
    }

    fn wire_len(count: u8) -> usize {
        usize::from(count) + N
    }

    fn collect(&mut self, buffer: &mut [u8]) -> Result<usize, Refusal> {
        if !self.store.waits() {
            return Err(Refusal::NothingWaits);
        }
        let data = self.store.front();
        let n = data.len();
        let wanted = n + N;
        if buffer.len() < wanted {
            let of = Shortage::Line;
            return Err(Refusal::TooShort { of, wanted });
        }
        write_front(buffer, data);
        write_front(&mut buffer[n..], &F::checks(data));
        self.store.clear();
        Ok(wanted)
    }

    fn check(sent: &[u8], buffer: &mut [u8]) -> Result<usize, Refusal> {
        if buffer.len() < REPLY_BYTES {
            let of = Shortage::Line;
            let wanted = REPLY_BYTES;
            return Err(Refusal::TooShort { of, wanted });
        }
        if sent.len() <= N || sent.len() > REPLY_BYTES + N {
            return Err(Refusal::BadWire);
        }
        let (data, checks) = sent.split_at(sent.len() - N);
        if checks != F::checks(data).as_slice() {
            return Err(Refusal::BadWire);
        }
        write_front(buffer, data);
        Ok(data.len())
    }
}
