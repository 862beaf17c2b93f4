ghost use Rattle.std.specs.Prelude.{◌≡◌, ◌⊎◌};
ghost use Rattle.graph_runner.specs.Writing.{Delivers, Finishes, Tells};
ghost use Rattle.graph_runner.specs.declared.ending.Ending.{Ending};

use crate::ending::Ending;
use graph_model::Text;
use io_edge::{Sink, write_all};
use std::alloc::Global;

/// What `check` and `print` end with.
#[derive(Debug, Drop)]
pub struct CheckEnd {
    /// The status that the program ends with.
    pub status: u8,
    /// The line for standard error, with its newline; empty with the statuses 0 and 8.
    pub message: Text,
}

/// Tells an ending, or want of memory for its message.
pub(crate) fn told(alloc: Global, ending: &Ending) -> CheckEnd
    ensures { (came : Ending) × ((came ≡ ending.now) ⊎ (came ≡ Ending.OutOfMemory)) × Tells result.status result.message came }
{
    match ending.message(alloc) {
        Ok(message) => CheckEnd {
            status: ending.status(),
            message,
        },
        Err(_) => CheckEnd {
            status: Ending::OutOfMemory.status(),
            message: Text::new(alloc),
        },
    }
}

// Writes a text. Room for the message of a failed write is taken before the first write.
fn deliver<K: Sink>(alloc: Global, text: &[u8], sink: &mut K) -> CheckEnd
    ensures { (came : Ending) × Tells result.status result.message came
        × Delivers (record { written = K.written sink.old; written_after = K.written sink.new; faults = K.faults sink.old; faults_after = K.faults sink.new }) text.now came }
{
    let Ok(fault) = Ending::WriteFault.message(alloc) else {
        return CheckEnd {
            status: Ending::OutOfMemory.status(),
            message: Text::new(alloc),
        };
    };
    match write_all(sink, text) {
        Ok(()) => CheckEnd {
            status: Ending::Done.status(),
            message: Text::new(alloc),
        },
        Err(_) => CheckEnd {
            status: Ending::WriteFault.status(),
            message: fault,
        },
    }
}

/// Writes the text that a command made, or tells why it made none.
pub(crate) fn finish<K: Sink>(alloc: Global, made: Result<Text, Ending>, sink: &mut K) -> CheckEnd
    ensures { (came : Ending) × Tells result.status result.message came
        × Finishes (record { written = K.written sink.old; written_after = K.written sink.new; faults = K.faults sink.old; faults_after = K.faults sink.new }) made came }
{
    match made {
        Ok(text) => deliver(alloc, text.as_slice(), sink),
        Err(ending) => told(alloc, &ending),
    }
}
