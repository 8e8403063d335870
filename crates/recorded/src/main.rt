// Replays recorded answers of the original, chess 3.2.0, with no Rust at hand.
//
// Holds: the rays and the mask of all 128 blocks; then the walk that each of 2,048 lines of standard input asks for. Beside
// src/, `stdin` has the lines, 16 for each kind and square, and `stdout` what the original answered: rays and masks by its
// get_rays and magic_mask, walks by its compiled get_rook_moves and get_bishop_moves, its source files unchanged. Both files
// were written by `rust/compare/run CHESS_SRC record crates/recorded` (rust/compare/README.md), which calls nothing of ours.
// Ports: nothing.
// Adds: all of it.
#![tactic(auto)]

use refusal::Refusal;
use std::io;
use std::io::{ErrorKind, Read, Write};

// A space and a set in 16 digits, in two writes: the digits go out together. No refusal is recorded.
fn set<W: Write>(out: &mut W, answer: Result<u64, Refusal>) -> io::Result<()> {
    match answer {
        Ok(squares) => {
            let mut digits = [0u8; 16];
            write!(&mut digits[..], "{squares:016X}")?;
            out.write_all(b" ")?;
            out.write_all(&digits)
        }
        Err(_) => out.write_all(b" refused"),
    }
}

fn end<W: Write>(out: &mut W) -> io::Result<()> {
    out.write_all(b"\n")
}

// Piece, square, rays, mask.
fn block<W: Write>(out: &mut W, piece: u8, kind: u8, sq: u8) -> io::Result<()> {
    if let Ok(name) = square::to_name(sq) {
        out.write_all(&[piece, b' ', name[0], name[1]])?;
    }
    set(out, rays::get_rays(kind, sq))?;
    set(out, magic_helpers::magic_mask(kind, sq))?;
    end(out)
}

fn blocks<W: Write>(out: &mut W, piece: u8, kind: u8) -> io::Result<()> {
    for sq in 0..64 {
        block(out, piece, kind, sq)?;
    }
    Ok(())
}

// A line of the query program's form, and the walk that it asks for.
fn walk<W: Write>(out: &mut W, line: &[u8]) -> io::Result<()> {
    out.write_all(line)?;
    if let Some(query) = lines::read_line(line) {
        set(
            out,
            magic_helpers::walk(query.kind, query.square, query.blockers),
        )?;
    }
    end(out)
}

// The input's lines, to their end.
fn walks<R: Read, W: Write>(input: &mut R, out: &mut W) -> io::Result<()> {
    let mut line = [0u8; 22];
    for _ in 0..2048 {
        match input.read_exact(&mut line) {
            Ok(()) => walk(out, &line[0..21])?,
            Err(e) if e.kind() == ErrorKind::UnexpectedEof => return Ok(()),
            Err(e) => return Err(e),
        }
    }
    Ok(())
}

fn main(rt: HostRuntime) -> io::Result<()> {
    let mut out = rt.stdout();
    blocks(&mut out, b'R', 0)?;
    blocks(&mut out, b'B', 1)?;
    walks(&mut rt.stdin(), &mut out)
}
