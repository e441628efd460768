//! Text on its way to a sink, kept until there is enough of it for one write.

ghost use Rattle.std.specs.Prelude.{◌≡◌, ◌<◌, [], Some, length, OnOk, OnErr};
ghost use Rattle.fb_ports.specs.Causes.{Appends, AppendsPrefix, HasCause};
ghost use Rattle.fb_ports.specs.Outboxes.{Moves};
ghost use Rattle.fb_ports.specs.declared.outbox.TheConstants.{ENOUGH};

use crate::{Failed, Sink, put_all};
use std::alloc::Global;
use std::marker::Model;

/// From this many bytes on, the text is written.
const ENOUGH: usize = 1 << 16;

/// Why a text was not written.
#[derive(Clone, Copy, Debug, PartialEq, Eq)]
pub enum RowsFault {
    WriteFault,
    NoMemory,
}

/// Text that is still to be written. It is itself a sink, which fails only for want of memory.
#[derive(Drop)]
pub struct Outbox {
    text: Vec<u8>,
    faults: u64,
}

impl Model for Outbox {
    ghost use Rattle.fb_ports.specs.Outboxes.{Pending};

    ghost Value = { Pending };

    ghost view = { λ o. record { text = o.text.items; faults = o.faults } };
}

impl Sink for Outbox {
    ghost taken = { λ o. Some o.text };

    ghost faults = { λ o. o.faults };

    fn put(&mut self, piece: &[u8]) -> Result<usize, Failed> {
        if self.text.extend_from_slice(piece).is_err() {
            self.faults = self.faults.saturating_add(1);
            return Err(Failed);
        }
        Ok(piece.len())
    }
}

impl Outbox {
    pub fn new(alloc: Global) -> Outbox
        ensures { result ≡ record { text = []; faults = 0 } }
    {
        Outbox {
            text: Vec::new(alloc),
            faults: 0,
        }
    }

    /// Writes the text to a sink if there is enough of it for one write. Afterwards there is less.
    pub fn flush_if_full<O: Sink>(&mut self, out: &mut O) -> Result<(), Failed>
        ensures ok { OnOk result (Moves (O.taken out.old) (O.taken out.new) self.old.text self.new.text) }
        ensures less { OnOk result (length self.new.text < ENOUGH) }
        ensures faults { self.new.faults ≡ self.old.faults }
        ensures prefix { OnErr result (AppendsPrefix (O.taken out.old) (O.taken out.new) self.old.text) }
        ensures cause { HasCause (O.faults out.old) (O.faults out.new) result }
    {
        if self.text.len() < ENOUGH {
            return Ok(());
        }
        self.flush(out)
    }

    /// Writes the whole text to a sink. After an error a prefix of it may have been written.
    pub fn flush<O: Sink>(&mut self, out: &mut O) -> Result<(), Failed>
        ensures ok { OnOk result (Appends (O.taken out.old) (O.taken out.new) self.old.text) }
        ensures emptied { OnOk result (self.new.text ≡ []) }
        ensures faults { self.new.faults ≡ self.old.faults }
        ensures prefix { OnErr result (AppendsPrefix (O.taken out.old) (O.taken out.new) self.old.text) }
        ensures cause { HasCause (O.faults out.old) (O.faults out.new) result }
    {
        let Ok(()) = put_all(out, &self.text) else {
            return Err(Failed);
        };
        self.text.clear();
        Ok(())
    }
}
