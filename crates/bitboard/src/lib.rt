// Sets of squares.
//
// Holds: the set operations, the product, the shift to a size, the count of ones, the set of one square, the least
// square and the iterator's step. A set is a plain u64; bit s is square s.
// Ports: src/bitboard.rs (lines 40 to 252 and 272 to 336): the methods of the operator traits under their names,
// `set`, `from_square`, `to_square`, `popcnt`, `to_size`, `next`.
// Adds: refusal 2 for a square above 63, a rank or file above 7 and the least square of the empty set; 0 for a shift by
// 64 or more.
#![tactic(auto)]

ghost use Rattle.std.specs.Prelude.{◌≡◌, ◌*◌, ◌/◌, ◌%◌, ◌^◌};
ghost use Rattle.std.specs.Int.Count.{ones};
ghost use Rattle.refusal.specs.Paper.{said};
ghost use Rattle.bitboard.specs.Bitboard.{in_both, in_either, in_one, in_none, square_set, rank_file_set, least_square, next_of};

use refusal::Refusal;

pub fn bitand(a: u64, b: u64) -> u64
    ensures { result ≡ in_both a b }
{
    a & b
}

pub fn bitor(a: u64, b: u64) -> u64
    ensures { result ≡ in_either a b }
{
    a | b
}

pub fn bitxor(a: u64, b: u64) -> u64
    ensures { result ≡ in_one a b }
{
    a ^ b
}

pub fn not(a: u64) -> u64
    ensures { result ≡ in_none a }
{
    !a
}

// The product is taken modulo 2 to the 64.
pub fn mul(a: u64, b: u64) -> u64
    ensures { result ≡ a * b % 2 ^ 64 }
{
    bits::wrapping_mul(a, b)
}

// A shift by 64 or more gives 0.
pub fn to_size(set: u64, rightshift: u8) -> usize
    ensures { result ≡ set / 2 ^ rightshift }
{
    bits::shift_right(set, rightshift as u64) as usize
}

pub fn popcnt(set: u64) -> u32
    ensures { result ≡ ones set }
{
    u64::count_ones(set)
}

pub fn from_square(sq: u8) -> Result<u64, Refusal>
    ensures { said result ≡ square_set sq }
{
    if sq < 64 {
        return Ok(1 << sq);
    }
    Err(Refusal::Square)
}

// The set of the square on a rank and a file: the original's `set`.
pub fn set(rank: u8, file: u8) -> Result<u64, Refusal>
    ensures { said result ≡ rank_file_set rank file }
{
    from_square(square::make_square(rank, file)?)
}

pub fn to_square(set: u64) -> Result<u8, Refusal>
    ensures { said result ≡ least_square set }
{
    if set == 0 {
        return Err(Refusal::Square);
    }
    Ok(u64::trailing_zeros(set) as u8)
}

// The iterator's step, `next` of the original's `Iterator`: the least square and the set without it.
pub fn next(squares: u64) -> Option<(u8, u64)>
    ensures { result ≡ next_of squares }
{
    if squares == 0 {
        return None;
    }
    let square = u64::trailing_zeros(squares) as u8;
    let one: u64 = 1 << square;
    Some((square, squares ^ one))
}
