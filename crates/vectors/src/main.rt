// Runs the ground floor on vectors that its definitions did not produce, and prints the answers.
//
// Holds: the example of the manual's PDEP and PEXT figures (mask bits 28, 7, 5 and 2), worked out by hand; 302 rows of
// arithmetic and set operations; each square's rank, file, steps and name; names that can't be read; the refusals' numbers.
// crates/vectors/stdout has what is right: written by tools/vectors.c, which shares no code with the crates and takes PEXT,
// PDEP, the product and the counts from the processor's instructions, and the figures' rows and the names from a typed list.
// Ports: nothing.
// Adds: all of it.
#![tactic(auto)]

use refusal::Refusal;
use std::io;

fn hex(rt: &impl Print, n: u64) -> io::Result<()> {
    print!(rt; "{n:016x} ")
}

fn end(rt: &impl Print) -> io::Result<()> {
    println!(rt)
}

// R and a refusal's number.
fn refused(rt: &impl Print, r: Refusal) -> io::Result<()> {
    print!(rt; "R")?;
    number(rt, r)
}

fn answer<T: Into<u64>>(rt: &impl Print, a: Result<T, Refusal>) -> io::Result<()> {
    match a {
        Ok(x) => hex(rt, x.into()),
        Err(r) => refused(rt, r),
    }
}

fn step(rt: &impl Print, s: Result<Option<u8>, Refusal>) -> io::Result<()> {
    match s {
        Ok(Some(t)) => hex(rt, t as u64),
        Ok(None) => print!(rt; "off "),
        Err(r) => refused(rt, r),
    }
}

// Both instructions of the manual's figures on one source.
fn figure(rt: &impl Print, source: u64) -> io::Result<()> {
    hex(rt, source)?;
    hex(rt, bits::deposit(source, 0x1000_00A4))?;
    hex(rt, bits::extract(source, 0x1000_00A4))?;
    end(rt)
}

fn next_state(state: u64) -> u64 {
    bits::wrapping_mul(state, 0x5851_F42D_4C95_7F2D).wrapping_add(0x1405_7B7E_F767_814F)
}

// One row: arithmetic.
fn row(rt: &impl Print, x: u64, mask: u64) -> io::Result<()> {
    hex(rt, x)?;
    hex(rt, mask)?;
    hex(rt, bits::extract(x, mask))?;
    hex(rt, bits::deposit(x, mask))?;
    hex(rt, bits::wrapping_mul(x, mask))?;
    hex(rt, bitboard::mul(mask, x))?;
    hex(rt, bits::shift_right(x, mask % 128))?;
    hex(rt, bitboard::to_size(x, (mask % 256) as u8) as u64)?;
    end(rt)
}

// The same row: sets.
fn set_row(rt: &impl Print, x: u64, mask: u64) -> io::Result<()> {
    hex(rt, bitboard::bitand(x, mask))?;
    hex(rt, bitboard::bitor(x, mask))?;
    hex(rt, bitboard::bitxor(x, mask))?;
    hex(rt, bitboard::not(mask))?;
    hex(rt, bitboard::popcnt(mask) as u64)?;
    answer(rt, bitboard::to_square(mask))?;
    match bitboard::next(mask) {
        Some((square, rest)) => {
            hex(rt, square as u64)?;
            hex(rt, rest)?;
        }
        None => print!(rt; "end ")?,
    }
    end(rt)
}

fn both_rows(rt: &impl Print, x: u64, mask: u64) -> io::Result<()> {
    row(rt, x, mask)?;
    set_row(rt, x, mask)
}

// Three rows, with masks of about a quarter, three quarters and an eighth of the bits; answers the state after them.
fn three_rows(rt: &impl Print, state: u64) -> io::Result<u64> {
    let a = next_state(state);
    let b = next_state(a);
    let c = next_state(b);
    both_rows(rt, a, b & c)?;
    both_rows(rt, b, a | c)?;
    both_rows(rt, c, a & (b & (c >> 17)))?;
    Ok(c)
}

fn rows(rt: &impl Print) -> io::Result<()> {
    let mut state: u64 = 20261115;
    for _ in 0..100 {
        state = three_rows(rt, state)?;
    }
    both_rows(rt, state, 0)?;
    both_rows(rt, state, 0xFFFF_FFFF_FFFF_FFFF)
}

fn one_square(rt: &impl Print, sq: u8) -> io::Result<()> {
    answer(rt, square::get_rank(sq))?;
    answer(rt, square::get_file(sq))?;
    step(rt, square::left(sq))?;
    step(rt, square::right(sq))?;
    step(rt, square::up(sq))?;
    step(rt, square::down(sq))?;
    answer(rt, bitboard::from_square(sq))?;
    if let Ok(written) = square::to_name(sq) {
        let name = [written[0], written[1], b'x'];
        rt.write_all(&name)?;
        print!(rt; " ")?;
        answer(rt, square::from_str(&name))?;
    }
    end(rt)
}

// All squares, and two past the last.
fn squares(rt: &impl Print) -> io::Result<()> {
    for sq in 0..66 {
        one_square(rt, sq)?;
    }
    Ok(())
}

// A rank and a file, on the board or not.
fn rank_file(rt: &impl Print, rank: u8, file: u8) -> io::Result<()> {
    answer(rt, square::make_square(rank, file))?;
    answer(rt, bitboard::set(rank, file))?;
    end(rt)
}

fn name(rt: &impl Print, bytes: &[u8]) -> io::Result<()> {
    answer(rt, square::from_str(bytes))?;
    end(rt)
}

fn names(rt: &impl Print) -> io::Result<()> {
    let names: [&[u8]; 16] = [
        b"",
        b"a",
        b"a1",
        b"h8",
        b"d4",
        b"d4 is a square",
        b"i1",
        b"`1",
        b"a9",
        b"a0",
        b"A1",
        b"1a",
        b" a1",
        b"a\xB1",
        b"\xE11",
        b"\x00\x00",
    ];
    for bytes in names {
        name(rt, bytes)?;
    }
    Ok(())
}

fn number(rt: &impl Print, r: Refusal) -> io::Result<()> {
    hex(rt, r.number() as u64)
}

fn numbers(rt: &impl Print) -> io::Result<()> {
    let refusals = [
        Refusal::Kind,
        Refusal::Square,
        Refusal::LengthsDiffer,
        Refusal::NoRoom { block: 3 },
        Refusal::Spent { block: 4 },
        Refusal::Collides { block: 5 },
        Refusal::Index,
        Refusal::IndexAt {
            block: 6,
            subset: 1,
        },
        Refusal::Shift,
        Refusal::RecordAt { block: 7 },
        Refusal::Length,
        Refusal::Budget,
        Refusal::SlotAt {
            block: 8,
            subset: 2,
        },
    ];
    for refusal in refusals {
        number(rt, refusal)?;
    }
    end(rt)
}

// The sources of the manual's figures.
const SOURCES: [u64; 10] = [
    1,
    2,
    4,
    8,
    10,
    15,
    0xFFFF_FFFF_FFFF_FFF0,
    0x1000_00A4,
    0xFFFF_FFFF_EFFF_FF5B,
    0x20,
];

// Ranks and files, on the board or not.
const PAIRS: [(u8, u8); 8] = [
    (0, 0),
    (7, 0),
    (0, 7),
    (3, 4),
    (7, 7),
    (8, 0),
    (0, 8),
    (255, 255),
];

fn main(rt: HostRuntime) -> io::Result<()> {
    for source in SOURCES {
        figure(&rt, source)?;
    }
    rows(&rt)?;
    squares(&rt)?;
    for (rank, file) in PAIRS {
        rank_file(&rt, rank, file)?;
    }
    names(&rt)?;
    numbers(&rt)
}
