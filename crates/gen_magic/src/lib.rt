// The two builds of the magic tables.
//
// Holds: `gen_all_magic`, the build from a seed, and `gen_all_lent`, the build from lent multipliers; their parts: the first
// free place, the writing of a block, the one loop over the blocks.
// Ports: src/gen_tables/magic.rs (lines 47 to 135): generate_magic, which became `settle` (place and multiplier) and
// `write`, and gen_all_magic. The static tables became lent slices, the random draws a source of choices.
// Adds: the attempt budget, the room, the build from lent multipliers, the refusals.
#![tactic(auto)]

ghost use Rattle.std.specs.Prelude.{◌≡◌, ℕ, ◌+◌, ◌^◌, ◌≤◌, ◌<◌, max, get_or, length, replicate, IfOk};
ghost use Rattle.packing.specs.Pack.{free, first_free};
ghost use Rattle.blocks.specs.Real.{real};
ghost use Rattle.gen_magic.specs.Builds.{slots, record_at, leaves, ended, from_seed, from_lent};
ghost use Rattle.gen_magic.specs.Turn.{ored, chosen, turn, built, unless_refused};

use packing::Taken;
use refusal::Refusal;
use std::cmp::max;

// ---- what a build hands back

// What a look-up needs of a block.
#[repr(C)]
#[derive(Clone, Copy)]
pub struct Record {
    pub multiplier: u64,
    pub mask: u64,
    pub offset: u32,
    pub shift: u8,
}

// In the place of a block that isn't placed.
pub const NO_RECORD: Record = Record {
    multiplier: 0,
    mask: 0,
    offset: 0,
    shift: 0,
};

// What a build hands back, in the two lists of the C interface; one that is refused hands back the refusal alone, with its
// block.
#[derive(Drop)]
pub struct Build {
    pub records: [Record; 128],
    pub counts: [u64; 128],
    pub used: usize,
}

// ---- the first free place

// What a slot holds; 0 past the length.
fn slot_at(slots: &[u64], i: usize) -> u64
    ensures { result ≡ get_or slots.now i 0 }
{
    slots.get(i).copied().unwrap_or(0)
}

// Whether the marks at i up to i + size - 1 share no bit with the rays.
fn is_free(marks: &[u64], i: usize, size: usize, rays: u64) -> bool
    requires { i + size < 2 ^ 64 }
    ensures { result ≡ free size rays (slots marks.now) i }
{
    (0..size).all(|j| slot_at(marks, i + j) & rays == 0)
}

// The smallest free place below the end; if there is none, the end.
fn first_free(marks: &[u64], end: usize, size: usize, rays: u64) -> usize
    requires { end + size < 2 ^ 64 }
    ensures { result ≡ first_free size rays (slots marks.now) end }
{
    (0..end)
        .find(|i| is_free(marks, *i, size, rays))
        .unwrap_or(end)
}

// ---- the writing of a block

// Walks and rays go into the slots that are hit; the part is the block's own, in table and in marks.
#[tactic(auto, using(board::proofs::Sizes::block_size_high))]
fn or_block(block: usize, multiplier: u64, table: &mut [u64], marks: &mut [u64])
    requires { (length table.old ≡ real.size block) × (length marks.old ≡ real.size block) }
    ensures table_after { slots table.new ≡ ored (real.index block multiplier) (real.walk block) (real.size block) (slots table.old) }
    ensures marks_after { slots marks.new ≡ ored (real.index block multiplier) (λ (i : ℕ). real.rays block) (real.size block) (slots marks.old) }
{
    let size = magic_helpers::size_at(block);
    let shift = magic_helpers::shift_at(block);
    let rays = rays::rays_at(block);
    prove!(size <= 4096);
    for i in 0..size {
        let question = magic_helpers::subset_at(block, i as u64);
        let walk = magic_helpers::walk_at(block, question);
        let at = bitboard::to_size(bitboard::mul(multiplier, question), shift);
        prove!(at < size);
        table[at] |= walk;
        marks[at] |= rays;
    }
}

// Only the block's own part of table and marks, from its place, is lent on. Table and marks stay two parameters, here and
// below: a struct of both loans is no plainer, for each of its methods would have to promise that it keeps the two
// references and their length, where one `requires` stands now.
fn write(block: usize, multiplier: u64, place: usize, table: &mut [u64], marks: &mut [u64])
    requires { (place + real.size block ≤ length table.old) × (length marks.old ≡ length table.old) }
    ensures table_after { slots table.new ≡ ored (λ (i : ℕ). place + real.index block multiplier i) (real.walk block) (real.size block) (slots table.old) }
    ensures marks_after { slots marks.new ≡ ored (λ (i : ℕ). place + real.index block multiplier i) (λ (i : ℕ). real.rays block) (real.size block) (slots marks.old) }
{
    let end = place + magic_helpers::size_at(block);
    or_block(
        block,
        multiplier,
        &mut table[place..end],
        &mut marks[place..end],
    );
}

// All slots of both 0.
fn clear(table: &mut [u64], marks: &mut [u64])
    ensures table_after { table.new ≡ replicate (length table.old) 0 }
    ensures marks_after { marks.new ≡ replicate (length marks.old) 0 }
{
    table.fill(0);
    marks.fill(0);
}

// ---- one block

// Where the multipliers of a build come from.
#[derive(Clone, Copy)]
pub enum Source<'a> {
    Seed { seed: u64, budget: u64 },
    Lent(&'a [u64]),
}

impl Source<'_> {
    // What is taken for a block, or the refusal where nothing is: 5 or 6.
    #[tactic(auto, unfolding(packing::specs::Pack::by_lent))]
    fn choose(self, block: usize) -> Result<Taken, Refusal>
        ensures { result ≡ chosen self.entry block }
    {
        match self {
            Source::Seed { seed, budget } => {
                candidates::search_at(block, seed, budget).ok_or(Refusal::Spent { block })
            }
            Source::Lent(multipliers) => {
                let multiplier = slot_at(multipliers, block);
                candidates::lent_at(block, multiplier).ok_or(Refusal::Collides { block })
            }
        }
    }
}

// Where a block goes and what is taken for it.
#[derive(Clone, Copy)]
pub struct Settled {
    pub place: usize,
    pub taken: Taken,
}

// Within a block 4 before 5 or 6.
#[tactic(auto, using(std::proofs::lemmas::Bool::Decides::nat_tests, board::proofs::Sizes::block_size_high, crate::proofs::Turns::first_low), unfolding(crate::specs::Turn::turn))]
fn settle(source: Source, block: usize, end: usize, marks: &[u64]) -> Result<Settled, Refusal>
    requires { (end ≤ 107648) × (end ≤ length marks.now) }
    ensures is { result ≡ turn source.entry block end marks.now }
    ensures fits { IfOk result (λ s. (s.place + real.size block ≤ length marks.now) × (s.place ≤ end)) }
{
    let size = magic_helpers::size_at(block);
    let place = first_free(marks, end, size, rays::rays_at(block));
    if place + size > marks.len() {
        return Err(Refusal::NoRoom { block });
    }
    let taken = source.choose(block)?;
    Ok(Settled { place, taken })
}

// ---- the builds

fn record_of(block: usize, multiplier: u64, place: usize) -> Record
    requires { place < 2 ^ 32 }
    ensures { result ≡ record_at block multiplier place }
{
    Record {
        multiplier,
        mask: magic_helpers::mask_at(block),
        offset: place as u32,
        shift: magic_helpers::shift_at(block),
    }
}

// Blocks 0 to 127, in order, into slots that are all 0. Where a block is refused, what went in before it stays.
fn gen_blocks(source: Source, table: &mut [u64], marks: &mut [u64]) -> Result<Build, Refusal>
    requires { (length marks.old ≡ length table.old) × (table.old ≡ replicate (length table.old) 0) × (marks.old ≡ replicate (length table.old) 0) }
    ensures { leaves result (unless_refused result table.new) (unless_refused result marks.new) ≡ ended (length table.old) (built source.entry (length table.old)) }
{
    let mut records = [NO_RECORD; 128];
    let mut counts = [0u64; 128];
    let mut end: usize = 0;
    for block in 0..128 {
        let Settled { place, taken } = settle(source, block, end, marks)?;
        write(block, taken.multiplier, place, table, marks);
        records[block] = record_of(block, taken.multiplier, place);
        counts[block] = taken.count;
        end = max(end, place + magic_helpers::size_at(block));
    }
    Ok(Build {
        records,
        counts,
        used: end,
    })
}

// Whatever the memory held, before block 0 all table and mark slots are 0; so they are after a refusal.
fn gen_from(source: Source, table: &mut [u64], marks: &mut [u64]) -> Result<Build, Refusal>
    requires { length marks.old ≡ length table.old }
    ensures { leaves result table.new marks.new ≡ ended (length table.old) (built source.entry (length table.old)) }
{
    clear(table, marks);
    let built = gen_blocks(source, table, marks);
    if built.is_err() {
        clear(table, marks)
    }
    built
}

// The build from a seed: 10, then 3.
#[tactic(auto, using(std::proofs::lemmas::Bool::Decides::nat_tests), unfolding(crate::specs::Builds::from_seed))]
pub fn gen_all_magic(
    seed: u64,
    budget: u64,
    table: &mut [u64],
    marks: &mut [u64],
) -> Result<Build, Refusal>
    ensures { leaves result table.new marks.new ≡ from_seed seed budget table.old marks.old }
{
    if budget > 16777216 {
        return Err(Refusal::Budget);
    }
    if table.len() != marks.len() {
        return Err(Refusal::LengthsDiffer);
    }
    gen_from(Source::Seed { seed, budget }, table, marks)
}

// The build from lent multipliers, in block order: 9, then 3.
#[tactic(auto, using(std::proofs::lemmas::Bool::Decides::nat_tests), unfolding(crate::specs::Builds::from_lent))]
pub fn gen_all_lent(
    multipliers: &[u64],
    table: &mut [u64],
    marks: &mut [u64],
) -> Result<Build, Refusal>
    ensures { leaves result table.new marks.new ≡ from_lent multipliers.now table.old marks.old }
{
    if multipliers.len() != 128 {
        return Err(Refusal::Length);
    }
    if table.len() != marks.len() {
        return Err(Refusal::LengthsDiffer);
    }
    gen_from(Source::Lent(multipliers), table, marks)
}
