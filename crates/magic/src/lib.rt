// Magic look-ups, and the audit of any records and any table.
//
// Holds: `get_moves` by kind and square and under the original's two names, for one record by value and a lent table, and
// `look_with` for a caller that has the rays; `audit` of 128 records.
// Ports: src/magic.rs (lines 24 to 36 and 54 to 66): get_rook_moves and get_bishop_moves. The static tables became
// arguments, get_unchecked a test.
// Adds: refusals 1, 2, 8 and 7; the audit.
#![tactic(auto)]

ghost use Rattle.std.specs.Prelude.{◌≡◌, ℕ, ◌≤◌};
ghost use Rattle.refusal.specs.Paper.{said};
ghost use Rattle.board.specs.Board.{on_block};
ghost use Rattle.board.specs.Blocks.{kind_of, square_of};
ghost use Rattle.magic.specs.LookUp.{slot_in, look_with, look_up};
ghost use Rattle.magic.specs.Audit.{exact, Own, subset_says, block_says, blocks_say, audit_says};

use gen_magic::Record;
use refusal::Refusal;

// ---- the look-up: a record and a table are two arguments, as the public signatures and the C interface have them

// Offset and index in 64 bits: offset + index may pass 2 to the 32.
#[tactic(auto, unfolding(crate::specs::LookUp::slot_in))]
fn slot_in(magic: Record, blockers: u64) -> u64
    requires { (52 ≤ magic.shift) × (magic.shift ≤ 59) }
    ensures { result ≡ slot_in magic blockers }
{
    let product = bits::wrapping_mul(magic.multiplier, blockers & magic.mask);
    magic.offset as u64 + (product >> magic.shift)
}

// With the rays at hand, for a batch that lists them once: 8, then 7.
#[tactic(auto, using(std::proofs::lemmas::Bool::Decides::nat_tests), unfolding(crate::specs::LookUp::look_with))]
pub fn look_with(rays: u64, blockers: u64, magic: Record, table: &[u64]) -> Result<u64, Refusal>
    ensures { said result ≡ look_with rays blockers magic table.now }
{
    if (magic.shift < 52) | (magic.shift > 59) {
        return Err(Refusal::Shift);
    }
    let slot = slot_in(magic, blockers) as usize;
    if slot >= table.len() {
        return Err(Refusal::Index);
    }
    Ok(table[slot] & rays)
}

// By the block's number.
fn look_up(block: usize, blockers: u64, magic: Record, table: &[u64]) -> Result<u64, Refusal>
    ensures { said result ≡ look_up (kind_of block) (square_of block) blockers magic table.now }
{
    look_with(rays::rays_at(block), blockers, magic, table)
}

#[tactic(auto, using(rays::proofs::Found::found_kind, rays::proofs::Found::found_square, rays::proofs::Found::found_on))]
pub fn get_moves(
    kind: u8,
    sq: u8,
    blockers: u64,
    magic: Record,
    table: &[u64],
) -> Result<u64, Refusal>
    ensures { said result ≡ on_block kind sq (look_up kind sq blockers magic table.now) }
{
    look_up(rays::block(kind, sq)?, blockers, magic, table)
}

// The original's two names stay, each one call.
pub fn get_rook_moves(sq: u8, blockers: u64, magic: Record, table: &[u64]) -> Result<u64, Refusal>
    ensures { said result ≡ on_block 0 sq (look_up 0 sq blockers magic table.now) }
{
    get_moves(0, sq, blockers, magic, table)
}

pub fn get_bishop_moves(sq: u8, blockers: u64, magic: Record, table: &[u64]) -> Result<u64, Refusal>
    ensures { said result ≡ on_block 1 sq (look_up 1 sq blockers magic table.now) }
{
    get_moves(1, sq, blockers, magic, table)
}

// ---- the audit

// Whether mask and shift are the block's own.
#[tactic(auto, unfolding(crate::specs::Audit::exact))]
fn is_exact(block: usize, magic: Record) -> bool
    ensures { result ≡ exact block magic }
{
    (magic.mask == magic_helpers::mask_at(block)) & (magic.shift == magic_helpers::shift_at(block))
}

// A refused look-up is taken apart first and passed on: the record is the block's own, so it is 7.
#[tactic(auto, using(crate::proofs::Audits::subset_refused, crate::proofs::Audits::subset_right, crate::proofs::Audits::subset_wrong))]
fn check_subset(block: usize, subset: usize, magic: Record, table: &[u64]) -> Result<(), Refusal>
    requires { Own block magic }
    ensures { said result ≡ subset_says block magic table.now subset }
{
    let question = magic_helpers::subset_at(block, subset as u64);
    let Ok(found) = look_up(block, question, magic, table) else {
        return Err(Refusal::IndexAt { block, subset });
    };
    if found != magic_helpers::walk_at(block, question) {
        return Err(Refusal::SlotAt { block, subset });
    }
    Ok(())
}

// Mask and shift, then subsets in order.
#[tactic(auto, using(crate::proofs::Audits::exact_is, crate::proofs::Audits::block_8, crate::proofs::Audits::block_in, crate::proofs::Audits::turn_none, crate::proofs::Audits::turn_more))]
fn check_block(block: usize, magic: Record, table: &[u64]) -> Result<(), Refusal>
    ensures { said result ≡ block_says block magic table.now }
{
    if !is_exact(block, magic) {
        return Err(Refusal::RecordAt { block });
    }
    for subset in 0..magic_helpers::size_at(block) {
        check_subset(block, subset, magic, table)?;
    }
    Ok(())
}

// The first failing block decides.
#[tactic(auto, using(crate::proofs::Audits::turn_none, crate::proofs::Audits::turn_more), unfolding(crate::specs::Audit::blocks_say))]
fn check_blocks(records: [Record; 128], table: &[u64]) -> Result<(), Refusal>
    ensures { said result ≡ blocks_say records table.now }
{
    for (block, magic) in records.iter().enumerate() {
        check_block(block, *magic, table)?;
    }
    Ok(())
}

// On acceptance the reach: the end of block 127.
#[tactic(auto, using(board::proofs::Sizes::block_size_high), unfolding(crate::specs::Audit::audit_says, crate::specs::Audit::reach_of))]
pub fn audit(records: [Record; 128], table: &[u64]) -> Result<u64, Refusal>
    ensures { said result ≡ audit_says records table.now }
{
    check_blocks(records, table)?;
    let last = records[127];
    Ok(last.offset as u64 + magic_helpers::size_at(127) as u64)
}
