// PEXT tables: one 16-bit entry for each subset of each block.
//
// Holds: the fill (`gen_all_bmis`, `generate_bmis` for one block), the look-up by kind and square and under the original's
// two names, a square's block as a returned part, and where that block lies.
// Ports: src/gen_tables/bmis.rs (lines 31 to 74) and the two *_bmi look-ups of src/magic.rs (lines 38 to 52 and 68 to 82).
// The static tables became a lent slice of 107,648 entries; `_pext_u64` and `_pdep_u64` are loops (crate `bits`).
// Adds: refusals 1, 2 and 9; a look-up in any entries; the part and its place.
#![tactic(auto)]

ghost use Rattle.std.specs.Prelude.{◌≡◌, ◌+◌, ◌≤◌, get_or, length};
ghost use Rattle.refusal.specs.Paper.{said, gives};
ghost use Rattle.bits.specs.Intel.{pext, pdep};
ghost use Rattle.bits.specs.Shown.{shown};
ghost use Rattle.board.specs.Board.{rays, mask};
ghost use Rattle.board.specs.Blocks.{block_of, kind_of, square_of, size_of};
ghost use Rattle.bmis.specs.Bmis.{block_at, offset_of, entry, entries_to, of_length, in_table, filled, look_up, given, part_of, extent_of};

use rays::Kind;
use refusal::Refusal;

// How many entries a table has.
const ENTRIES: usize = 107_648;

// Where a square's block lies in the table.
#[derive(Clone, Copy, Debug, PartialEq, Eq)]
pub struct Extent {
    pub offset: usize,
    pub size: usize,
}

// ---- blocks in the table

// Block number p in the order rook 0, bishop 0, rook 1, bishop 1, ..
#[tactic(auto, using(crate::proofs::Sums::block_is))]
fn block_at(p: usize) -> usize
    ensures { result ≡ block_at p }
{
    (1 - p % 2) * 64 + p / 2
}

// Where a block begins.
#[tactic(auto, using(crate::proofs::Sums::start_is), unfolding(crate::specs::Bmis::offset_of, board::specs::Blocks::square_of))]
pub fn offset_at(block: usize) -> usize
    ensures { result ≡ offset_of (kind_of block) (square_of block) }
{
    match rays::kind_at(block) {
        Kind::Rook => tables::start_listed(2 * (block % 64)),
        Kind::Bishop => tables::start_listed(2 * (block % 64) + 1),
    }
}

#[tactic(auto, using(crate::proofs::InTable::part_ends))]
fn extent_at(block: usize) -> Extent
    ensures value { result ≡ extent_of (kind_of block) (square_of block) }
    ensures within { result.offset + result.size ≤ 107648 }
{
    Extent {
        offset: offset_at(block),
        size: magic_helpers::size_at(block),
    }
}

// The block as a part of a table.
#[tactic(auto, unfolding(crate::specs::Bmis::part_of))]
fn part_at(block: usize, table: &[u16]) -> &[u16]
    requires { length table.now ≡ 107648 }
    ensures { result.now ≡ part_of (kind_of block) (square_of block) table.now }
{
    let Extent { offset, size } = extent_at(block);
    &table[offset..offset + size]
}

// ---- the fill

// The walk of subset i extracted through the rays: at most 14 bits.
#[tactic(auto, using(board::proofs::Subsets::subset_deposit, crate::proofs::Entries::entry_lt, board::proofs::Blocks::kind_lt, board::proofs::Blocks::square_lt), unfolding(crate::specs::Bmis::entry))]
fn entry_at(block: usize, i: usize) -> u16
    ensures { result ≡ entry (kind_of block) (square_of block) i }
{
    let mask = magic_helpers::mask_at(block);
    let rays = rays::rays_at(block);
    let walk = magic_helpers::walk_at(block, bits::deposit(i as u64, mask));
    let packed = bits::extract(walk, rays);
    packed as u16
}

// One block's entries, into its own part of the table.
#[tactic(auto, using(bits::proofs::Shown::shown_store), unfolding(bits::specs::Shown::shown))]
fn generate_bmis(block: usize, part: &mut [u16])
    ensures { part.new ≡ shown (length part.old) (entry (kind_of block) (square_of block)) }
{
    for (i, packed) in part.iter_mut().enumerate() {
        *packed = entry_at(block, i);
    }
}

// All blocks in order, each in the part that follows the last.
fn fill(table: &mut [u16])
    requires { length table.old ≡ 107648 }
    ensures { table.new ≡ entries_to 128 }
{
    let mut at: usize = 0;
    for p in 0..128 {
        let block = block_at(p);
        let end = at + magic_helpers::size_at(block);
        generate_bmis(block, &mut table[at..end]);
        at = end;
    }
}

pub fn gen_all_bmis(table: &mut [u16]) -> Result<usize, Refusal>
    ensures { (said result ≡ of_length (length table.old) (gives 107648)) × (table.new ≡ filled table.old) }
{
    if table.len() != ENTRIES {
        return Err(Refusal::Length);
    }
    fill(table);
    Ok(ENTRIES)
}

// ---- the look-up

// In one block's part: it sees nothing else.
#[tactic(auto, using(board::proofs::Subsets::index_lt))]
fn look_in(block: usize, part: &[u16], blockers: u64) -> u64
    requires { length part.now ≡ size_of (kind_of block) (square_of block) }
    ensures { result ≡ pdep (get_or part.now (pext blockers (mask (kind_of block) (square_of block))) 0) (rays (kind_of block) (square_of block)) }
{
    let mask = magic_helpers::mask_at(block);
    let rays = rays::rays_at(block);
    let i = bits::extract(blockers, mask) as usize;
    let packed = part[i] as u64;
    bits::deposit(packed, rays)
}

// The block of a kind and a square, in a table of the right length: 1, 2, then 9.
fn table_block(kind: u8, sq: u8, entries: usize) -> Result<usize, Refusal>
    ensures { said result ≡ in_table kind sq entries (gives (block_of kind sq)) }
{
    let block = rays::block(kind, sq)?;
    if entries != ENTRIES {
        return Err(Refusal::Length);
    }
    Ok(block)
}

// A square's block is handed on as a part that starts at its offset.
#[tactic(auto, using(crate::proofs::InTable::table_kind, crate::proofs::InTable::table_square, crate::proofs::InTable::table_on, crate::proofs::InTable::table_long, crate::proofs::InTable::look_part, crate::proofs::InTable::part_long, board::proofs::Blocks::kind_lt, board::proofs::Blocks::square_lt))]
pub fn get_moves_bmi(kind: u8, sq: u8, blockers: u64, table: &[u16]) -> Result<u64, Refusal>
    ensures { said result ≡ in_table kind sq (length table.now) (gives (look_up kind sq blockers table.now)) }
{
    let block = table_block(kind, sq, table.len())?;
    Ok(look_in(block, part_at(block, table), blockers))
}

// The original's two names stay, each one call.
pub fn get_rook_moves_bmi(sq: u8, blockers: u64, table: &[u16]) -> Result<u64, Refusal>
    ensures { said result ≡ in_table 0 sq (length table.now) (gives (look_up 0 sq blockers table.now)) }
{
    get_moves_bmi(0, sq, blockers, table)
}

pub fn get_bishop_moves_bmi(sq: u8, blockers: u64, table: &[u16]) -> Result<u64, Refusal>
    ensures { said result ≡ in_table 1 sq (length table.now) (gives (look_up 1 sq blockers table.now)) }
{
    get_moves_bmi(1, sq, blockers, table)
}

// ---- a square's block

// The block as a part; the empty part, which no block is, for 1, 2 and 9.
#[tactic(auto, using(crate::proofs::InTable::table_kind, crate::proofs::InTable::table_square, crate::proofs::InTable::table_on, crate::proofs::InTable::table_long))]
pub fn bmi_part(kind: u8, sq: u8, table: &[u16]) -> &[u16]
    ensures { result.now ≡ given (in_table kind sq (length table.now) (gives (part_of kind sq table.now))) }
{
    match table_block(kind, sq, table.len()) {
        Ok(block) => part_at(block, table),
        Err(_) => &table[0..0],
    }
}

// A second call on the same arguments: the number, or the block's offset and size.
#[tactic(auto, using(crate::proofs::InTable::table_kind, crate::proofs::InTable::table_square, crate::proofs::InTable::table_on))]
pub fn bmi_place(kind: u8, sq: u8, table: &[u16]) -> Result<Extent, Refusal>
    ensures { said result ≡ in_table kind sq (length table.now) (gives (extent_of kind sq)) }
{
    Ok(extent_at(table_block(kind, sq, table.len())?))
}
