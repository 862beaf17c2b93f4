//! Calls that can answer want of memory, with ample memory.

use graph_model::{Cells, Inputs, Key, Keys, ListProbe, Probe, Text};
use io_edge::{MemSink, Sink};
use std::test::Fail;

#[test]
fn ample_memory(rt: HostRuntime) -> Result<(), Fail> {
    let alloc = rt.alloc();
    let mut text = Text::new(alloc);
    text.push(b'a')?;
    text.push(b'b')?;
    text.set(0, b'c');
    assert_eq!(rt; text.as_slice(), b"cb".as_slice());
    let mut cells = Cells::new(alloc);
    cells.push(-5)?;
    assert_eq!(rt; cells.as_slice(), [-5i64].as_slice());
    let mut keys = Keys::new(alloc);
    keys.push(9)?;
    assert_eq!(rt; keys.as_slice(), [9u64].as_slice());
    let mut inputs = Inputs::new(alloc, 2, 3)?;
    inputs.push(&[1, 2]);
    inputs.push(&[3]);
    assert_eq!(rt; inputs.count(), 2);
    assert_eq!(rt; inputs.get(1), [3i64].as_slice());
    let mut probe = ListProbe::new(alloc);
    probe.reserve(1)?;
    probe.note(Key(4), 2);
    assert_eq!(rt; probe.as_slice(), [(4u64, 2u32)].as_slice());
    let mut sink = MemSink::new(Text::new(alloc), 8, Keys::new(alloc));
    sink.reserve(3)?;
    assert_eq!(rt; sink.write(b"abcd"), Ok(3));
    assert_eq!(rt; sink.as_slice(), b"abc".as_slice());
    Ok(())
}
