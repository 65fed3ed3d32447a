//! What a store does.
ghost use Rattle.std.specs.Prelude.{◌≡◌};
ghost use Rattle.line.specs.Reply.{emptied, put_answer, put_after, close_after};
ghost use Rattle.line.specs.Store.{stored};

use super::Store;
use arrayvec::ArrayVec;
use refusal::Refusal;

impl Store {
    /// An empty store.
    pub(crate) fn new() -> Store
        ensures { stored result ≡ emptied }
    {
        Store {
            bytes: ArrayVec::new(),
            waiting: false,
        }
    }

    pub(crate) fn clear(&mut self)
        ensures { stored self.new ≡ emptied }
    {
        self.waiting = false;
        self.bytes.clear();
    }

    pub(crate) fn push(&mut self, byte: u8) -> Result<(), Refusal>
        ensures answer { result ≡ put_answer (stored self.old) }
        ensures after { stored self.new ≡ put_after (stored self.old) byte }
    {
        if self.waiting || self.bytes.is_full() {
            return Err(Refusal::LineFull);
        }
        self.bytes.push(byte);
        Ok(())
    }

    pub(crate) fn finish(&mut self)
        ensures { stored self.new ≡ close_after (stored self.old) }
    {
        if !self.bytes.is_empty() {
            self.waiting = true;
        }
    }

    pub(crate) fn waits(&self) -> bool
        ensures { result ≡ (stored self.now).waits }
    {
        self.waiting
    }

    /// The data bytes.
    pub(crate) fn front(&self) -> &[u8]
        ensures { result.now ≡ (stored self.now).bytes }
    {
        self.bytes.as_slice()
    }
}
