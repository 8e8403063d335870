// Numbers of 64 bits in 16 upper-case hexadecimal digits, read and written on slices.
//
// Holds: `read`, which takes exactly 16 such digits, and `write`, which puts 16 of them at a buffer's start.
// Ports: nothing.
// Adds: all of it, for the lines that the query program reads and writes.
#![tactic(auto)]

ghost use Rattle.std.specs.Prelude.{◌≡◌, ◌<◌, IfSome};
ghost use Rattle.hex_digits.specs.Hex.{digit_of, read_word, figure_of, write_word};

// The value of one digit.
#[tactic(auto, using(std::proofs::lemmas::Bool::Decides::nat_tests), unfolding(crate::specs::Hex::digit_of))]
fn digit(byte: u8) -> Option<u64>
    ensures value { result ≡ digit_of byte }
    ensures low { IfSome result (λ d. d < 16) }
{
    match byte {
        b'0'..=b'9' => Some((byte - b'0') as u64),
        b'A'..=b'F' => Some((byte - b'A' + 10) as u64),
        _ => None,
    }
}

// The number that 16 bytes spell, most significant digit first; no number from another count of bytes or from a byte
// that is no digit.
#[tactic(auto, using(crate::proofs::Laws::read_next, crate::proofs::Laws::read_none, crate::proofs::Laws::read_end, crate::proofs::Laws::word_whole, crate::proofs::Laws::word_read, crate::proofs::Laws::word_none, crate::proofs::Laws::power_low, crate::proofs::Laws::power_more))]
pub fn read(bytes: &[u8]) -> Option<u64>
    ensures { result ≡ read_word bytes.now }
{
    if bytes.len() != 16 {
        return None;
    }
    let mut number: u64 = 0;
    for byte in &bytes[..16] {
        let d = digit(*byte)?;
        number = 16 * number + d;
    }
    Some(number)
}

// The digit of a value below 16.
#[tactic(auto, using(std::proofs::lemmas::Bool::Decides::nat_tests), unfolding(crate::specs::Hex::figure_of))]
fn figure(value: u64) -> u8
    requires { value < 16 }
    ensures { result ≡ figure_of value }
{
    if value < 10 {
        b'0' + value as u8
    } else {
        b'A' - 10 + value as u8
    }
}

// Puts the 16 digits of n, most significant first, at the start of out; what follows stays. A buffer of fewer than 16
// bytes stays as it is. Written by hand, since its clause gives each byte of a lent buffer; `{:016X}` writes to a `Write`.
#[tactic(auto, using(crate::proofs::Laws::write_next, crate::proofs::Laws::write_end, crate::proofs::Laws::word_written, crate::proofs::Laws::word_short))]
pub fn write(n: u64, out: &mut [u8])
    ensures { out.new ≡ write_word n out.old }
{
    if 16 <= out.len() {
        let mut rest = n;
        for k in (0..16).rev() {
            out[k] = figure(rest % 16);
            rest /= 16;
        }
    }
}
