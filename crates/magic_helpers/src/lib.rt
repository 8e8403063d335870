// Masks, sizes, subsets and walks of the 128 blocks.
//
// Holds: for a kind and a square, with refusals 1 and 2: `magic_mask`, `size`, `rightshift`, `subset`, `walk`; for a block
// number, any number: the same without refusals, under names in `_at`.
// Ports: src/gen_tables/magic_helpers.rs (lines 17 to 138). The lists of direction functions became arguments of `ray`, the
// vectors of questions and answers the functions `subset` and `walk` of a number; `rightshift` is from
// src/gen_tables/magic.rs (line 80).
// Adds: refusals 1 and 2. `random_bitboard` is the crate `splitmix`'s.
#![tactic(auto)]

ghost use Rattle.std.specs.Prelude.{◌≡◌, ℕ, ◌<◌};
ghost use Rattle.refusal.specs.Paper.{said, gives};
ghost use Rattle.bits.specs.Set.{set_of};
ghost use Rattle.square.specs.Square.{on_square};
ghost use Rattle.board.specs.Board.{cut_off, mask, attack, on_block};
ghost use Rattle.board.specs.Blocks.{kind_of, square_of, bits_of, size_of, shift_of, subset as subset_of};
ghost use Rattle.board.specs.Walk.{step, line, up_to, walk};

use rays::Kind;
use refusal::Refusal;

// ---- masks

// A and H on a square's own rank, ranks 1 and 8 on its own file.
#[tactic(auto, using(crate::proofs::Masks::own_edges_are))]
fn own_edges(block: usize) -> u64
    ensures { result ≡ set_of (cut_off 0 (square_of block)) }
{
    let sq = rays::square_at(block);
    let own_rank: u64 = 0x81 << (sq / 8 * 8);
    let own_file: u64 = 0x0100_0000_0000_0001 << (sq % 8);
    own_rank | own_file
}

// The squares that the mask leaves out: for a bishop the whole board edge, for a rook its own.
#[tactic(auto, using(crate::proofs::Masks::whole_edge))]
fn edges(block: usize) -> u64
    ensures { result ≡ set_of (cut_off (kind_of block) (square_of block)) }
{
    match rays::kind_at(block) {
        Kind::Bishop => 0xFF81_8181_8181_81FF,
        Kind::Rook => own_edges(block),
    }
}

#[tactic(auto, using(crate::proofs::Masks::mask_is))]
pub fn mask_at(block: usize) -> u64
    ensures { result ≡ mask (kind_of block) (square_of block) }
{
    rays::rays_at(block) & !edges(block)
}

// How many squares the mask has.
#[tactic(auto, using(bits::proofs::Count::count_ones, board::proofs::Attack::mask_lt), unfolding(board::specs::Blocks::bits_of))]
pub fn bits_at(block: usize) -> u32
    ensures { result ≡ bits_of (kind_of block) (square_of block) }
{
    u64::count_ones(mask_at(block))
}

#[tactic(auto, using(board::proofs::Sizes::bits_high, board::proofs::Blocks::kind_lt, board::proofs::Blocks::square_lt))]
pub fn size_at(block: usize) -> usize
    ensures { result ≡ size_of (kind_of block) (square_of block) }
{
    1 << bits_at(block)
}

#[tactic(auto, using(board::proofs::Sizes::bits_high, board::proofs::Blocks::kind_lt, board::proofs::Blocks::square_lt), unfolding(board::specs::Blocks::shift_of))]
pub fn shift_at(block: usize) -> u8
    ensures { result ≡ shift_of (kind_of block) (square_of block) }
{
    (64 - bits_at(block)) as u8
}

// Question i of the original's rays_to_questions.
#[tactic(auto, using(board::proofs::Subsets::subset_deposit))]
pub fn subset_at(block: usize, i: u64) -> u64
    ensures { result ≡ subset_of (kind_of block) (square_of block) i }
{
    bits::deposit(i, mask_at(block))
}

// ---- the walk

// The original's bishop_directions, nw, ne, sw, se: a step to the side, and one up or down from there.
#[tactic(auto, using(crate::proofs::Steps::left_then), unfolding(board::specs::Walk::step))]
fn left_up(sq: u8) -> Result<Option<u8>, Refusal>
    ensures { said result ≡ on_square sq (gives (step 1 0 sq)) }
{
    square::left(sq)?.map_or(Ok(None), square::up)
}

#[tactic(auto, using(crate::proofs::Steps::right_then), unfolding(board::specs::Walk::step))]
fn right_up(sq: u8) -> Result<Option<u8>, Refusal>
    ensures { said result ≡ on_square sq (gives (step 1 1 sq)) }
{
    square::right(sq)?.map_or(Ok(None), square::up)
}

#[tactic(auto, using(crate::proofs::Steps::left_then), unfolding(board::specs::Walk::step))]
fn left_down(sq: u8) -> Result<Option<u8>, Refusal>
    ensures { said result ≡ on_square sq (gives (step 1 2 sq)) }
{
    square::left(sq)?.map_or(Ok(None), square::down)
}

#[tactic(auto, using(crate::proofs::Steps::right_then), unfolding(board::specs::Walk::step))]
fn right_down(sq: u8) -> Result<Option<u8>, Refusal>
    ensures { said result ≡ on_square sq (gives (step 1 3 sq)) }
{
    square::right(sq)?.map_or(Ok(None), square::down)
}

// One direction: squares up to and including the first blocker. `way` is the direction's kind and number.
fn ray<F: Fn(u8) -> Result<Option<u8>, Refusal>>(go: F, sq: u8, blockers: u64) -> u64
    ghost way: { ℕ × ℕ }
    requires callable { F.IsAlwaysCallable go }
    requires steps { (s : ℕ) (r : _) → F.post go s r → said r ≡ on_square s (gives (step way.0 way.1 s)) }
    requires a_way { (way.0 < 2) × (way.1 < 4) }
    requires on_board { sq < 64 }
    ensures { result ≡ up_to blockers (line way.0 way.1 sq) }
{
    let mut set: u64 = 0;
    let mut at = sq;
    for n in 0..7u64 {
        let t = match go(at) {
            Ok(Some(t)) => t,
            Ok(None) => return set,
            Err(_) => return set,
        };
        let one: u64 = 1 << t;
        if blockers & one != 0 {
            return set | one;
        }
        set |= one;
        at = t;
    }
    set
}

// The original's rook_directions: left, right, up, down.
#[tactic(auto, unfolding(board::specs::Walk::step, board::specs::Walk::walk))]
fn rook_walk(block: usize, blockers: u64) -> u64
    ensures { result ≡ walk 0 (square_of block) blockers }
{
    let sq = rays::square_at(block);
    ray(square::left, sq, blockers)
        | ray(square::right, sq, blockers)
        | ray(square::up, sq, blockers)
        | ray(square::down, sq, blockers)
}

#[tactic(auto, unfolding(board::specs::Walk::walk))]
fn bishop_walk(block: usize, blockers: u64) -> u64
    ensures { result ≡ walk 1 (square_of block) blockers }
{
    let sq = rays::square_at(block);
    ray(left_up, sq, blockers)
        | ray(right_up, sq, blockers)
        | ray(left_down, sq, blockers)
        | ray(right_down, sq, blockers)
}

#[tactic(auto, using(board::proofs::Attack::walk_attack, board::proofs::Blocks::kind_lt, board::proofs::Blocks::square_lt))]
pub fn walk_at(block: usize, blockers: u64) -> u64
    ensures { result ≡ attack (kind_of block) (square_of block) blockers }
{
    match rays::kind_at(block) {
        Kind::Rook => rook_walk(block, blockers),
        Kind::Bishop => bishop_walk(block, blockers),
    }
}

// ---- by kind and square

#[tactic(auto, using(rays::proofs::Found::found_kind, rays::proofs::Found::found_square, rays::proofs::Found::found_on))]
pub fn magic_mask(kind: u8, sq: u8) -> Result<u64, Refusal>
    ensures { said result ≡ on_block kind sq (gives (mask kind sq)) }
{
    Ok(mask_at(rays::block(kind, sq)?))
}

#[tactic(auto, using(rays::proofs::Found::found_kind, rays::proofs::Found::found_square, rays::proofs::Found::found_on))]
pub fn size(kind: u8, sq: u8) -> Result<usize, Refusal>
    ensures { said result ≡ on_block kind sq (gives (size_of kind sq)) }
{
    Ok(size_at(rays::block(kind, sq)?))
}

#[tactic(auto, using(rays::proofs::Found::found_kind, rays::proofs::Found::found_square, rays::proofs::Found::found_on))]
pub fn rightshift(kind: u8, sq: u8) -> Result<u8, Refusal>
    ensures { said result ≡ on_block kind sq (gives (shift_of kind sq)) }
{
    Ok(shift_at(rays::block(kind, sq)?))
}

#[tactic(auto, using(rays::proofs::Found::found_kind, rays::proofs::Found::found_square, rays::proofs::Found::found_on))]
pub fn subset(kind: u8, sq: u8, i: u64) -> Result<u64, Refusal>
    ensures { said result ≡ on_block kind sq (gives (subset_of kind sq i)) }
{
    Ok(subset_at(rays::block(kind, sq)?, i))
}

#[tactic(auto, using(rays::proofs::Found::found_kind, rays::proofs::Found::found_square, rays::proofs::Found::found_on))]
pub fn walk(kind: u8, sq: u8, blockers: u64) -> Result<u64, Refusal>
    ensures { said result ≡ on_block kind sq (gives (attack kind sq blockers)) }
{
    Ok(walk_at(rays::block(kind, sq)?, blockers))
}
