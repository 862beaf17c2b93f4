ghost use Rattle.std.specs.Prelude.{◌≡◌, ◌<◌, ◌≤◌, List, ℕ, IfOk, IsErrOf, length};
ghost use Rattle.io_edge.specs.Bytes.{Took, WritesAll};
ghost use Rattle.io_edge.specs.Causes.{HasCause, Rose};
ghost use Rattle.io_edge.specs.Whole.{ReadsAll, ReadsPiece};

use super::edge::{Failed, Sink, Source};
use graph_model::Text;
use std::alloc::{AllocError, Global};

/// Why not all input was read.
#[derive(Clone, Copy, Debug, Drop, PartialEq, Eq)]
pub enum ReadEnd {
    /// A read failed.
    Fault,
    /// More than the limit was taken.
    TooLong,
    OutOfMemory,
}

// How many bytes are asked for in one read.
const PIECE: usize = 65536;

// Room for the bytes of one read.
fn room_of(alloc: Global, size: usize) -> Result<Vec<u8>, AllocError>
    ensures { IfOk result (λ room. length room.items ≡ size) }
{
    vec![in alloc; 0u8; size]
}

// Reads the next piece into `buf`, and puts it behind the bytes that came before.
fn read_piece<S: Source>(
    source: &mut S,
    buf: &mut [u8],
    bytes: &mut Vec<u8>,
    limit: usize,
) -> Result<bool, ReadEnd>
    requires room { 0 < length buf.old }
    requires limit { length bytes.old.items ≤ limit }
    ensures bytes { (taken : List ℕ) × Took (S.left source.old) (S.left source.new) taken
        × ReadsPiece limit bytes.old.items bytes.new.items taken (S.left source.new) result }
    ensures later { S.faults source.old ≤ S.faults source.new }
    ensures fault { IsErrOf result ReadEnd.Fault → Rose (S.faults source.old) (S.faults source.new) }
{
    match source.read(buf) {
        Ok(0) => Ok(false),
        Ok(count) if count > limit - bytes.len() => Err(ReadEnd::TooLong),
        Ok(count) => match bytes.extend_from_slice(&buf[..count]) {
            Ok(()) => Ok(true),
            Err(_) => Err(ReadEnd::OutOfMemory),
        },
        Err(_) => Err(ReadEnd::Fault),
    }
}

/// Reads to the end of input. It takes at most one piece more than `limit` bytes.
pub fn read_all<S: Source>(alloc: Global, source: &mut S, limit: usize) -> Result<Text, ReadEnd>
    ensures bytes { (taken : List ℕ) × Took (S.left source.old) (S.left source.new) taken
        × ReadsAll limit taken (S.left source.new) result }
    ensures later { S.faults source.old ≤ S.faults source.new }
    ensures fault { IsErrOf result ReadEnd.Fault → Rose (S.faults source.old) (S.faults source.new) }
{
    let Ok(mut buf) = room_of(alloc, PIECE) else {
        return Err(ReadEnd::OutOfMemory);
    };
    let mut bytes = Vec::new(alloc);
    'pieces: while read_piece(source, buf.as_mut_slice(), &mut bytes, limit)? {}
    Ok(Text::from_vec(bytes))
}

/// Writes all the bytes, piece by piece. It takes no memory itself.
pub fn write_all<K: Sink>(sink: &mut K, bytes: &[u8]) -> Result<(), Failed>
    ensures bytes { WritesAll (K.written sink.old) (K.written sink.new) bytes.now result }
    ensures cause { HasCause (K.faults sink.old) (K.faults sink.new) result }
{
    let mut done = 0;
    'pieces: while done < bytes.len() {
        let (_, rest) = bytes.split_at(done);
        done += sink.write(rest)?;
    }
    Ok(())
}
