// 64-bit arithmetic that Rattle's own operators leave out.
//
// Holds: the product modulo 2^64, a right shift by any number, software PEXT (`extract`) and PDEP (`deposit`); in
// specs/ what a set and its squares are, and Intel's account of the two instructions; in proofs/ the laws of bits and
// sets that every crate above cites.
// Ports: `wrapping_mul` as src/bitboard.rs uses it (lines 198 to 233), `_pext_u64` of src/gen_tables/bmis.rs (line 1).
// Adds: the shift past 63, PDEP's loop, all laws.
#![tactic(auto)]

ghost use Rattle.std.specs.Prelude.{◌≡◌, ◌*◌, ◌/◌, ◌%◌, ◌^◌};
ghost use Rattle.bits.specs.Intel.{pext, pdep};

// The product is taken modulo 2 to the 64.
pub fn wrapping_mul(a: u64, b: u64) -> u64
    ensures { result ≡ a * b % 2 ^ 64 }
{
    a.wrapping_mul(b)
}

// A shift by 64 or more gives 0.
#[tactic(auto, using(crate::proofs::Digit::shifted_out))]
pub fn shift_right(x: u64, n: u64) -> u64
    ensures { result ≡ x / 2 ^ n }
{
    if n < 64 { x >> n } else { 0 }
}

// PEXT: the bits of x at the squares of the mask, moved together at the low end.
#[tactic(auto, using(crate::proofs::Count::count_le, crate::proofs::Turn::turn_count, crate::proofs::Turn::packed_turn, crate::proofs::Intel::pext_start, crate::proofs::Intel::pext_done), unfolding(crate::specs::Set::count_below))]
pub fn extract(x: u64, mask: u64) -> u64
    ensures { result ≡ pext x mask }
{
    let mut dest: u64 = 0;
    let mut k: u64 = 0;
    for m in 0..64u64 {
        let b = (mask >> m) & 1;
        dest |= (b & (x >> m)) << k;
        k += b;
    }
    dest
}

// PDEP: the low bits of x, spread to the squares of the mask.
#[tactic(auto, using(crate::proofs::Count::count_le, crate::proofs::Turn::turn_count, crate::proofs::Turn::spread_turn, crate::proofs::Intel::pdep_done), unfolding(crate::specs::Set::count_below, crate::proofs::Forms::spread, crate::specs::Set::from_bits))]
pub fn deposit(x: u64, mask: u64) -> u64
    ensures { result ≡ pdep x mask }
{
    let mut dest: u64 = 0;
    let mut k = 0u64;
    for m in 0..64u64 {
        let b = (mask >> m) & 1;
        dest |= (b & (x >> k)) << m;
        k += b;
    }
    dest
}
