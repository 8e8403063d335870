// The query program: answers the lines of its standard input by the walk.
//
// Holds: reading and writing alone. What is written for an input, however it arrives, is the crate `lines`' to say. The
// chunk and the buffer for its answers take 49,196 bytes.
// Ports: nothing.
// Adds: all of it.
#![tactic(auto)]

ghost use Rattle.std.specs.Prelude.{◌≡◌, ◌≤◌, ◌<◌, length};

use lines::Pending;
use std::io;
use std::io::{Read, Write};

// Writes the answers of the lines that end in the n bytes that a read put into the chunk. A write that fails ends the run, as a
// read does: the line that has begun was cut, and nothing is answered that was not asked. The buffer has room for what a whole
// chunk makes written, so that none of it is left over.
#[tactic(auto, using(lines::proofs::Chunk::fed_used, lines::proofs::Chunk::fed_fits))]
fn answer_chunk<W: Write>(
    writer: &mut W,
    pending: Pending,
    chunk: &[u8],
    n: usize,
    out: &mut [u8],
) -> io::Result<Pending>
    requires chunk_len { length chunk.now ≤ 16384 }
    requires in_chunk { (0 < n) × (n ≤ length chunk.now) }
    requires out_len { length out.old ≡ 32812 }
{
    let fed = lines::feed(pending, &chunk[0..n], out);
    prove!(fed.used == n);
    writer.write_all(&out[0..fed.len])?;
    Ok(fed.pending)
}

// Reads chunks to the input's end. A proved loop ends, and nothing says that the input does: the turns count down from a
// number that no run uses up.
fn all_chunks<R: Read, W: Write>(
    reader: &mut R,
    writer: &mut W,
    chunk: &mut [u8],
    out: &mut [u8],
) -> io::Result<Pending>
    requires chunk_len { length chunk.old ≡ 16384 }
    requires out_len { length out.old ≡ 32812 }
{
    let mut pending = lines::start();
    for _ in 0..u64::MAX {
        let n = reader.read(chunk)?;
        if n == 0 {
            break;
        }
        pending = answer_chunk(writer, pending, chunk, n, out)?;
    }
    Ok(pending)
}

#[tactic(auto, using(lines::proofs::Calls::ending_fits))]
fn main(rt: HostRuntime) -> io::Result<()> {
    let mut chunk = [0u8; 16384];
    let mut out = [0u8; 32812];
    let mut reader = rt.stdin();
    let mut writer = rt.stdout();
    writer.write_all(&lines::header())?;
    let pending = all_chunks(&mut reader, &mut writer, &mut chunk, &mut out)?;
    let len = lines::finish(pending, &mut out);
    writer.write_all(&out[0..len])
}
