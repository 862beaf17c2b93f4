ghost use Rattle.std.specs.Prelude.{◌≡◌, ◌≤◌, length, IfOk};
ghost use Rattle.audit_blocks.specs.Versions.{AreWritten, IsOrdered};

use raw_graph::RawTask;
use std::alloc::{AllocError, Global};

/// A stated version of a block, and the number of its writer.
#[derive(Clone, Copy)]
pub struct Written {
    pub block: u32,
    pub version: u32,
    pub writer: u32,
}

/// The stated versions, by block and version.
pub fn written_in(alloc: Global, tasks: &[RawTask]) -> Result<Vec<Written>, AllocError>
    requires { length tasks.now ≤ 16384 }
    ensures written { IfOk result (λ ws. AreWritten tasks.now ws.items) }
    ensures ordered { IfOk result (λ ws. IsOrdered ws.items) }
{
    let mut written = Vec::new(alloc);
    for i in 0..tasks.len() {
        let task = &tasks[i];
        if let Some((block, version)) = task.block {
            written.push(Written {
                block,
                version,
                writer: i as u32,
            })?;
        }
    }
    written.sort_unstable_by_key(|here| (here.block, here.version));
    Ok(written)
}
