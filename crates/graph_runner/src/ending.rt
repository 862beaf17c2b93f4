ghost use Rattle.std.specs.Prelude.{◌≡◌, ◌++◌, ◌∷◌, [], IfOk, OnOk};
ghost use Rattle.graph_runner.specs.Endings.{status_of, message_of, run_ending};
ghost use Rattle.graph_runner.specs.declared.ending.Ending.TheVariants.{OutOfMemory};

use crate::messages::{put_audit_fault, put_matrix_fault, put_round, put_spent, put_text_fault};
use apsp_graph::MatrixFault;
use audit_checks::AuditFault;
use graph_model::{Cause, Key, Text};
use graph_reader::TextFault;
use std::alloc::{AllocError, Global};
use text_lines::put;
use worker_pool::Why;

/// What a command comes to.
#[derive(Debug, Drop)]
pub enum Ending {
    Done,
    Usage,
    ReadFault,
    WriteFault,
    /// The bytes are no graph file.
    Text { fault: TextFault },
    /// The graph is not accepted.
    Audit { fault: AuditFault },
    /// The text is no matrix.
    Matrix { fault: MatrixFault },
    /// The task may have no life after this one, which was struck.
    LivesSpent { key: Key, life: u32, cause: Cause },
    /// The turns were over with so much left to do.
    ScheduleShort { pending: u64 },
    OutOfMemory,
    TooLong,
}

impl From<AllocError> for Ending {
    ghost from_gives = { λ _ e. e ≡ OutOfMemory };

    fn from(_e: AllocError) -> Ending {
        Ending::OutOfMemory
    }
}

/// What the end of a run without the value comes to.
pub(crate) fn run_ending(why: Why) -> Ending
    ensures { result ≡ run_ending why }
{
    match why {
        Why::OutOfMemory => Ending::OutOfMemory,
        Why::LivesSpent { key, life, cause } => Ending::LivesSpent { key, life, cause },
        Why::ScheduleShort { pending } => Ending::ScheduleShort { pending },
    }
}

impl Ending {
    /// The status that the program ends with.
    pub fn status(&self) -> u8
        ensures { result ≡ status_of self.now }
    {
        match self {
            Ending::Done => 0,
            Ending::Usage => 2,
            Ending::ReadFault => 3,
            Ending::WriteFault => 4,
            Ending::Text { .. } | Ending::Matrix { .. } => 5,
            Ending::Audit { .. } => 6,
            Ending::LivesSpent { .. } => 7,
            Ending::OutOfMemory => 8,
            Ending::TooLong => 9,
            Ending::ScheduleShort { .. } => 10,
        }
    }

    // Appends the message.
    fn put(&self, alloc: Global, text: &mut Vec<u8>) -> Result<(), AllocError>
        ensures { OnOk result (text.new.items ≡ text.old.items ++ message_of self.now) }
    {
        match self {
            Ending::Done | Ending::OutOfMemory => Ok(()),
            Ending::Usage => put(
                text,
                "usage: run, replay, paths, drill NUMBER, check or print, with the options of the manual\n",
            ),
            Ending::ReadFault => put(text, "input could not be read\n"),
            Ending::WriteFault => put(text, "output could not be written\n"),
            Ending::Text { fault } => {
                put_text_fault(text, fault)?;
                put(text, "\n")
            }
            Ending::Audit { fault } => {
                put_audit_fault(text, *fault)?;
                put(text, "\n")
            }
            Ending::Matrix { fault } => {
                put_matrix_fault(text, *fault)?;
                put(text, "\n")
            }
            Ending::LivesSpent { key, life, cause } => {
                put_spent(alloc, text, *key, *life, cause)?;
                put(text, "\n")
            }
            Ending::ScheduleShort { pending } => {
                put_round(text, "schedule ended with ", *pending, " pending")?;
                put(text, "\n")
            }
            Ending::TooLong => put(text, "input is longer than 67108864 bytes\n"),
        }
    }

    /// The line that says what was wrong, with its newline. It is empty where nothing was, and where memory ran out.
    pub fn message(&self, alloc: Global) -> Result<Text, AllocError>
        ensures { IfOk result (λ text. text ≡ message_of self.now) }
    {
        let mut text = Vec::new(alloc);
        self.put(alloc, &mut text)?;
        Ok(Text::from_vec(text))
    }
}
