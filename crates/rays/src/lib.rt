// Rays: the squares that a piece would attack on an empty board.
//
// Holds: the two kinds, block numbers with refusals 1 and 2; the rays of a block, and of a kind and a square.
// Ports: src/gen_tables/rays.rs (lines 12 to 52). The loops over the board became a list (crate `tables`) that is proved
// against the definition; the two tables RAYS[1] and RAYS[0] became blocks 0 to 63 and 64 to 127.
// Adds: refusals 1 and 2.
#![tactic(auto)]

ghost use Rattle.std.specs.Prelude.{◌≡◌, ◌<◌};
ghost use Rattle.refusal.specs.Paper.{said, gives};
ghost use Rattle.board.specs.Board.{on_block, rays};
ghost use Rattle.board.specs.Blocks.{block_of, kind_of, square_of};
ghost use Rattle.rays.specs.Kind.{code_of, Reads};

use refusal::Refusal;

// "Kind 0 is rook, 1 is bishop."
#[derive(Clone, Copy, Debug, PartialEq, Eq)]
pub enum Kind {
    Rook,
    Bishop,
}

impl TryFrom<u8> for Kind {
    type Error = Refusal;

    ghost try_from_gives = { Reads };

    fn try_from(code: u8) -> Result<Kind, Refusal> {
        match code {
            0 => Ok(Kind::Rook),
            1 => Ok(Kind::Bishop),
            _ => Err(Refusal::Kind),
        }
    }
}

// The block of a kind and a square. Block number: bishop on s is s, rook on s is 64 + s. Refusal 1 before 2.
#[tactic(auto, using(std::proofs::lemmas::Bool::Decides::nat_tests, board::proofs::Blocks::block_rook, board::proofs::Blocks::block_bishop))]
pub fn block(kind: u8, sq: u8) -> Result<usize, Refusal>
    ensures { said result ≡ on_block kind sq (gives (block_of kind sq)) }
{
    let kind = Kind::try_from(kind)?;
    if 63 < sq {
        return Err(Refusal::Square);
    }
    match kind {
        Kind::Rook => Ok(64 + sq as usize),
        Kind::Bishop => Ok(sq as usize),
    }
}

// The kind of a block.
#[tactic(auto, unfolding(board::specs::Blocks::kind_of))]
pub fn kind_at(block: usize) -> Kind
    ensures { code_of result ≡ kind_of block }
{
    if block / 64 % 2 == 0 {
        Kind::Bishop
    } else {
        Kind::Rook
    }
}

// The square of a block.
#[tactic(auto, unfolding(board::specs::Blocks::square_of))]
pub fn square_at(block: usize) -> u8
    ensures value { result ≡ square_of block }
    ensures on_board { result < 64 }
{
    (block % 64) as u8
}

// The rays of a block.
#[tactic(auto, using(crate::proofs::Table::listed_rays))]
pub fn rays_at(block: usize) -> u64
    ensures { result ≡ rays (kind_of block) (square_of block) }
{
    tables::rays_listed(block % 128)
}

#[tactic(auto, using(crate::proofs::Found::found_kind, crate::proofs::Found::found_square, crate::proofs::Found::found_on))]
pub fn get_rays(kind: u8, sq: u8) -> Result<u64, Refusal>
    ensures { said result ≡ on_block kind sq (gives (rays kind sq)) }
{
    Ok(rays_at(block(kind, sq)?))
}
