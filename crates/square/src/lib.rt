// Squares: rank and file, steps, names.
//
// Holds: make_square, get_rank, get_file, the four steps that answer `None` at the board's edge, and square names read
// and written. A square is a plain u8, 0 to 63; any u8 is taken.
// Ports: src/square.rs (lines 70 to 184 and 969 to 1005); `Display` became the function `to_name`, which gives two bytes.
// Adds: refusal 2 for a square above 63, a rank or file above 7 and a name that can't be read.
#![tactic(auto)]

ghost use Rattle.std.specs.Prelude.{◌≡◌};
ghost use Rattle.refusal.specs.Paper.{said, gives};
ghost use Rattle.square.specs.Square.{on_square, make_square, rank_said, file_said, up_said, down_said, left_said, right_said, read_name, name_said};

use refusal::Refusal;

// A square of the board, or 2.
fn on_board(sq: u8) -> Result<u8, Refusal>
    ensures { said result ≡ on_square sq (gives sq) }
{
    if 63 < sq {
        return Err(Refusal::Square);
    }
    Ok(sq)
}

pub fn make_square(rank: u8, file: u8) -> Result<u8, Refusal>
    ensures { said result ≡ make_square rank file }
{
    if 7 < rank {
        return Err(Refusal::Square);
    }
    if 7 < file {
        return Err(Refusal::Square);
    }
    Ok(8 * rank + file)
}

pub fn get_rank(sq: u8) -> Result<u8, Refusal>
    ensures { said result ≡ rank_said sq }
{
    Ok(on_board(sq)? / 8)
}

pub fn get_file(sq: u8) -> Result<u8, Refusal>
    ensures { said result ≡ file_said sq }
{
    Ok(on_board(sq)? % 8)
}

// Four steps and not one with a direction: each is the original's name, with its own promise.
pub fn up(sq: u8) -> Result<Option<u8>, Refusal>
    ensures { said result ≡ up_said sq }
{
    let sq = on_board(sq)?;
    if sq / 8 == 7 {
        return Ok(None);
    }
    Ok(Some(sq + 8))
}

pub fn down(sq: u8) -> Result<Option<u8>, Refusal>
    ensures { said result ≡ down_said sq }
{
    let sq = on_board(sq)?;
    if sq / 8 == 0 {
        return Ok(None);
    }
    Ok(Some(sq - 8))
}

pub fn left(sq: u8) -> Result<Option<u8>, Refusal>
    ensures { said result ≡ left_said sq }
{
    let sq = on_board(sq)?;
    if sq % 8 == 0 {
        return Ok(None);
    }
    Ok(Some(sq - 1))
}

pub fn right(sq: u8) -> Result<Option<u8>, Refusal>
    ensures { said result ≡ right_said sq }
{
    let sq = on_board(sq)?;
    if sq % 8 == 7 {
        return Ok(None);
    }
    Ok(Some(sq + 1))
}

// Reads a name from the first two bytes; what follows is ignored. A square is a plain number in each public signature, so that
// `FromStr` and `Display` have no type to stand on.
#[tactic(auto, using(std::proofs::lemmas::Bool::Decides::nat_tests))]
pub fn from_str(name: &[u8]) -> Result<u8, Refusal>
    ensures { said result ≡ read_name name.now }
{
    if name.len() < 2 {
        return Err(Refusal::Square);
    }
    let letter = name[0];
    let figure = name[1];
    if letter < b'a' {
        return Err(Refusal::Square);
    }
    if b'h' < letter {
        return Err(Refusal::Square);
    }
    if figure < b'1' {
        return Err(Refusal::Square);
    }
    if b'8' < figure {
        return Err(Refusal::Square);
    }
    Ok(8 * (figure - b'1') + (letter - b'a'))
}

// A square's name: its letter and its digit.
pub type Name = [u8; 2];

pub fn to_name(sq: u8) -> Result<Name, Refusal>
    ensures { said result ≡ name_said sq }
{
    let sq = on_board(sq)?;
    Ok([b'a' + sq % 8, b'1' + sq / 8])
}
