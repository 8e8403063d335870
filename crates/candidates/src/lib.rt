// The candidate's test and the search of one block.
//
// Holds: `search` by kind and square; `search_at` and `lent_at`, the choice of a build's block by number.
// Ports: src/gen_tables/magic.rs (lines 83 to 107), the loop of generate_magic. The trial's `vec!` became a 4,096-slot array,
// wiped slot by slot after each candidate; `while !done` became a counted search.
// Adds: the fixed generator, the attempt budget, the test of a lent multiplier, refusals.
#![tactic(auto)]

ghost use Rattle.std.specs.Prelude.{◌≡◌, ℕ, ◌≤◌, ◌<◌, cond, ◌||◌, eqb, get_or, set, length, replicate};
ghost use Rattle.candidates.specs.Trial.{Rest, pairs_of};
ghost use Rattle.packing.specs.Pack.{clean, passes, by_search, by_lent};
ghost use Rattle.blocks.specs.Real.{real, magic_index};
ghost use Rattle.board.specs.Board.{mask as mask_of, on_block};
ghost use Rattle.board.specs.Blocks.{block_of, kind_of, square_of, shift_of};
ghost use Rattle.refusal.specs.Paper.{said};
ghost use Rattle.candidates.specs.OneBlock.{search_of};
ghost use Rattle.splitmix.specs.SplitMix.{candidate};

use packing::Taken;
use refusal::Refusal;
use splitmix::Generator;

// ---- a block's questions and answers

// A subset of a block's mask and its walk: a question and its answer.
#[derive(Clone, Copy)]
struct Pair {
    question: u64,
    answer: u64,
}

const NO_PAIR: Pair = Pair {
    question: 0,
    answer: 0,
};

// What the trials of a block need, worked out once; each fact says that it is the block's own.
#[derive(Drop)]
struct Work<'a> {
    block: usize,
    mask: u64,
    shift: u8,
    pairs: &'a [Pair],
    ghost mask_is: { mask ≡ mask_of (kind_of block) (square_of block) },
    ghost shift_is: { shift ≡ shift_of (kind_of block) (square_of block) },
    ghost pairs_are: { pairs.now ≡ pairs_of block },
}

// The original's questions_and_answers, at the front of the space.
#[tactic(auto, using(board::proofs::Sizes::block_size_high))]
fn questions_and_answers(block: usize, space: &mut [Pair; 4096]) -> &[Pair]
    ensures { result.now ≡ pairs_of block }
{
    let size = magic_helpers::size_at(block);
    for i in 0..size {
        let question = magic_helpers::subset_at(block, i as u64);
        let answer = magic_helpers::walk_at(block, question);
        space[i] = Pair { question, answer };
    }
    &space[..size]
}

// ---- the trial of one multiplier

// 4,096 trial slots, all free between two candidates.
#[derive(Drop)]
struct Trial {
    slots: [u64; 4096],
    ghost free: { slots ≡ replicate 4096 0 },
}

impl Trial {
    fn new() -> Trial {
        Trial {
            slots: [0u64; 4096],
        }
    }
}

// Enters a walk at a free slot, or at one that holds the same walk; at another slot it answers false.
fn enter(at: usize, answer: u64, slots: &mut [u64; 4096]) -> bool
    requires { at < 4096 }
    ensures value { result ≡ (eqb (get_or slots.old at 0) 0 || eqb (get_or slots.old at 0) answer) }
    ensures slots_after { slots.new ≡ cond result (set slots.old at answer) slots.old }
{
    let old = slots[at];
    if (old == 0) | (old == answer) {
        slots[at] = answer;
        return true;
    }
    false
}

impl<'a> Work<'a> {
    fn new(block: usize, space: &'a mut [Pair; 4096]) -> Work<'a>
        ensures { result.block ≡ block }
    {
        Work {
            block,
            mask: magic_helpers::mask_at(block),
            shift: magic_helpers::shift_at(block),
            pairs: questions_and_answers(block, space),
        }
    }

    // (candidate * subset) >> shift
    #[tactic(auto, using(crate::proofs::Block::shift_fits, crate::proofs::Block::slot_is, crate::proofs::Block::slot_low))]
    fn slot(&self, multiplier: u64, question: u64) -> usize
        ensures value { result ≡ magic_index (kind_of self.now.block) (square_of self.now.block) multiplier question }
        ensures in_range { result < 4096 }
    {
        (bits::wrapping_mul(multiplier, question) >> self.shift) as usize
    }

    // Enters each walk at its slot, and gives how many went in: all, where no two that differ share a slot.
    #[tactic(auto, using(crate::proofs::Block::pairs_many, crate::proofs::Trials::filled_agrees), unfolding(packing::specs::Pack::clean))]
    fn fill(&self, multiplier: u64, slots: &mut [u64; 4096]) -> usize
        requires { slots.old ≡ replicate 4096 0 }
        ensures rest { Rest (real.index self.now.block multiplier) 0 result slots.new }
        ensures agrees { eqb result (length self.now.pairs.now) ≡ clean real self.now.block multiplier }
        ensures in_range { result ≤ length self.now.pairs.now }
    {
        for (n, pair) in self.pairs.iter().enumerate() {
            let at = self.slot(multiplier, pair.question);
            if !enter(at, pair.answer, slots) {
                return n;
            }
        }
        self.pairs.len()
    }

    // Wipes the slots of the first n questions: the others are 0.
    #[tactic(auto, using(crate::proofs::Block::front_many))]
    fn wipe(&self, multiplier: u64, n: usize, slots: &mut [u64; 4096])
        requires in_range { n ≤ length self.now.pairs.now }
        requires rest { Rest (real.index self.now.block multiplier) 0 n slots.old }
        ensures { slots.new ≡ replicate 4096 0 }
    {
        for pair in &self.pairs[..n] {
            let at = self.slot(multiplier, pair.question);
            slots[at] = 0;
        }
    }

    // Whether no two subsets reach one slot with different walks.
    fn is_clean(&self, multiplier: u64, trial: &mut Trial) -> bool
        ensures { result ≡ clean real self.now.block multiplier }
    {
        let n = self.fill(multiplier, &mut trial.slots);
        self.wipe(multiplier, n, &mut trial.slots);
        n == self.pairs.len()
    }

    // Whether a candidate isn't skipped and has no destructive collision.
    #[tactic(auto, using(crate::proofs::Block::skipped_fails, crate::proofs::Block::clean_passes))]
    fn passes(&self, candidate: u64, trial: &mut Trial) -> bool
        ensures { result ≡ passes real self.now.block candidate }
    {
        let ones = u64::count_ones(bits::wrapping_mul(self.mask, candidate));
        if ones < 6 {
            return false;
        }
        self.is_clean(candidate, trial)
    }

    // The first candidate of a seed that passes, within the budget.
    #[tactic(auto, using(splitmix::proofs::Candidates::state_first, splitmix::proofs::Candidates::state_next, splitmix::proofs::Candidates::candidate_is, packing::proofs::Choices::finds, packing::proofs::Choices::search_none))]
    fn first_passing(&self, seed: u64, budget: u64) -> Option<Taken>
        ensures { result ≡ by_search real (candidate seed) budget self.now.block }
    {
        let mut trial = Trial::new();
        let mut generator = Generator { state: seed };
        for i in 0..budget {
            let drawn = generator.draw();
            if self.passes(drawn.candidate, &mut trial) {
                return Some(Taken {
                    multiplier: drawn.candidate,
                    count: i + 1,
                });
            }
            generator = drawn.next;
        }
        None
    }
}

// ---- a block's choice

// The first passing candidate of a block, by the block's number.
pub fn search_at(block: usize, seed: u64, budget: u64) -> Option<Taken>
    ensures { result ≡ by_search real (candidate seed) budget block }
{
    let mut space = [NO_PAIR; 4096];
    let work = Work::new(block, &mut space);
    work.first_passing(seed, budget)
}

// A lent multiplier, unless it collides: the skip rule belongs to the search.
#[tactic(auto, unfolding(packing::specs::Pack::by_lent))]
pub fn lent_at(block: usize, multiplier: u64) -> Option<Taken>
    ensures { result ≡ by_lent real (λ (b : ℕ). multiplier) block }
{
    let mut space = [NO_PAIR; 4096];
    let work = Work::new(block, &mut space);
    let clean = work.is_clean(multiplier, &mut Trial::new());
    clean.then_some(Taken {
        multiplier,
        count: 0,
    })
}

// ---- the search of one block

// By the block's number: 10, then 5.
#[tactic(auto, using(std::proofs::lemmas::Bool::Decides::nat_tests), unfolding(crate::specs::OneBlock::search_of))]
fn search_block(block: usize, seed: u64, budget: u64) -> Result<Taken, Refusal>
    ensures { said result ≡ search_of block seed budget }
{
    if budget > 16777216 {
        return Err(Refusal::Budget);
    }
    search_at(block, seed, budget).ok_or(Refusal::Spent { block })
}

// By kind and square: 1, 2, then what the block's search says.
pub fn search(kind: u8, sq: u8, seed: u64, budget: u64) -> Result<Taken, Refusal>
    ensures { said result ≡ on_block kind sq (search_of (block_of kind sq) seed budget) }
{
    search_block(rays::block(kind, sq)?, seed, budget)
}
