// What a program in Rust or C asks: the crates' functions over plain data. `slider_c` exports each under its name.
//
// Holds: builds, look-ups (one query, and a batch over lent slices), PEXT fill and look-ups, walk, audit, one-block search,
// rays, masks, sizes, shifts, subsets, square names and steps. A refusal is its number in 01's table, 0 stands for none.
// Ports: nothing of its own.
// Adds: flat structs in place of the enums, which do not cross the border, each with its `From`.
#![tactic(auto)]

ghost use Rattle.std.specs.Prelude.{◌≡◌, ℕ, List, [], ◌∷◌, length};
ghost use Rattle.refusal.specs.Paper.{Said, said, gives};
ghost use Rattle.bits.specs.Shown.{shown};
ghost use Rattle.square.specs.Square.{read_name, name_said, up_said, down_said, left_said, right_said};
ghost use Rattle.board.specs.Board.{rays, rays as rays_of, mask, attack, on_block};
ghost use Rattle.board.specs.Blocks.{block_of, kind_of, square_of, size_of, shift_of, subset};
ghost use Rattle.bmis.specs.Bmis.{of_length, in_table, filled, look_up as pext_look_up, extent_of};
ghost use Rattle.candidates.specs.OneBlock.{search_of};
ghost use Rattle.gen_magic.specs.Builds.{leaves, record_in, from_seed, from_lent};
ghost use Rattle.magic.specs.LookUp.{look_up};
ghost use Rattle.magic.specs.Audit.{audit_says};
ghost use Rattle.slider.specs.Flat.{value_at, answer_of, verdict_of, found_of, handed, handed_of, place_of, name_of, step_of};
ghost use Rattle.slider.specs.Batch.{Batch, fewest, asked_by, walk_asked, pext_asked, moves_asked};

use bmis::Extent;
use gen_magic::{Build, NO_RECORD, Record};
use packing::Taken;
use refusal::Refusal;
use std::array;

// ---- plain data: numbers, flags and zeros in place of enums, since the C interface takes none

// number: 0, or the refusal's; value: the answer, 0 where refused.
#[repr(C)]
#[derive(Clone, Copy)]
pub struct SliderAnswer {
    pub number: u64,
    pub value: u64,
}

// Block and subset are the refusal's, 0 where it has none; reach is 0 where refused.
#[repr(C)]
#[derive(Clone, Copy)]
pub struct SliderVerdict {
    pub number: u64,
    pub block: u64,
    pub subset: u64,
    pub reach: u64,
}

#[repr(C)]
#[derive(Clone, Copy)]
pub struct SliderFound {
    pub number: u64,
    pub block: u64,
    pub multiplier: u64,
    pub count: u64,
}

#[repr(C)]
#[derive(Drop)]
pub struct SliderBuild {
    pub number: u64,
    pub block: u64,
    pub used: u64,
    pub records: [Record; 128],
    pub counts: [u64; 128],
}

// The records that an audit or a batch is asked of.
#[repr(C)]
#[derive(Drop)]
pub struct SliderRecords {
    pub records: [Record; 128],
}

#[repr(C)]
#[derive(Clone, Copy)]
pub struct SliderPlace {
    pub number: u64,
    pub offset: u64,
    pub size: u64,
}

#[repr(C)]
#[derive(Clone, Copy)]
pub struct SliderName {
    pub number: u64,
    pub letter: u8,
    pub digit: u8,
}

// off: 1 where the step leads off the board.
#[repr(C)]
#[derive(Clone, Copy)]
pub struct SliderStep {
    pub number: u64,
    pub off: u64,
    pub square: u64,
}

// ---- from what a call hands back to plain data

// A refusal's block and subset, each 0 where it has none.
fn values(refusal: Refusal) -> [u64; 2]
    ensures { result ≡ value_at 0 refusal ∷ value_at 1 refusal ∷ [] }
{
    match refusal {
        Refusal::NoRoom { block }
        | Refusal::Spent { block }
        | Refusal::Collides { block }
        | Refusal::RecordAt { block } => [block as u64, 0],
        Refusal::IndexAt { block, subset } | Refusal::SlotAt { block, subset } => {
            [block as u64, subset as u64]
        }
        Refusal::Kind
        | Refusal::Square
        | Refusal::LengthsDiffer
        | Refusal::Index
        | Refusal::Shift
        | Refusal::Length
        | Refusal::Budget => [0, 0],
    }
}

impl From<Result<u64, Refusal>> for SliderAnswer {
    ghost from_gives = { λ a r. r ≡ answer_of (said a) };

    fn from(answer: Result<u64, Refusal>) -> SliderAnswer {
        match answer {
            Ok(value) => SliderAnswer { number: 0, value },
            Err(refusal) => SliderAnswer {
                number: refusal.number() as u64,
                value: 0,
            },
        }
    }
}

impl From<Result<u64, Refusal>> for SliderVerdict {
    ghost from_gives = { λ a r. r ≡ verdict_of (said a) };

    fn from(answer: Result<u64, Refusal>) -> SliderVerdict {
        match answer {
            Ok(reach) => SliderVerdict {
                number: 0,
                block: 0,
                subset: 0,
                reach,
            },
            Err(refusal) => {
                let [block, subset] = values(refusal);
                SliderVerdict {
                    number: refusal.number() as u64,
                    block,
                    subset,
                    reach: 0,
                }
            }
        }
    }
}

impl From<Result<Taken, Refusal>> for SliderFound {
    ghost from_gives = { λ o r. r ≡ found_of (said o) };

    fn from(found: Result<Taken, Refusal>) -> SliderFound {
        match found {
            Ok(taken) => SliderFound {
                number: 0,
                block: 0,
                multiplier: taken.multiplier,
                count: taken.count,
            },
            Err(refusal) => {
                let [block, _] = values(refusal);
                SliderFound {
                    number: refusal.number() as u64,
                    block,
                    multiplier: 0,
                    count: 0,
                }
            }
        }
    }
}

impl From<Result<Build, Refusal>> for SliderBuild {
    ghost from_gives = { λ b r. (table marks : List ℕ) → handed r table marks ≡ handed_of (leaves b table marks) };

    fn from(build: Result<Build, Refusal>) -> SliderBuild {
        match build {
            Ok(build) => {
                let records = build.records;
                let counts = build.counts;
                SliderBuild {
                    number: 0,
                    block: 0,
                    used: build.used as u64,
                    records,
                    counts,
                }
            }
            Err(refusal) => SliderBuild {
                number: refusal.number() as u64,
                block: values(refusal)[0],
                used: 0,
                records: [NO_RECORD; 128],
                counts: [0; 128],
            },
        }
    }
}

impl From<Result<Extent, Refusal>> for SliderPlace {
    ghost from_gives = { λ p r. r ≡ place_of (said p) };

    fn from(place: Result<Extent, Refusal>) -> SliderPlace {
        match place {
            Ok(extent) => SliderPlace {
                number: 0,
                offset: extent.offset as u64,
                size: extent.size as u64,
            },
            Err(refusal) => SliderPlace {
                number: refusal.number() as u64,
                offset: 0,
                size: 0,
            },
        }
    }
}

impl From<Result<[u8; 2], Refusal>> for SliderName {
    ghost from_gives = { λ n r. r ≡ name_of (said n) };

    fn from(name: Result<[u8; 2], Refusal>) -> SliderName {
        match name {
            Ok(bytes) => {
                let [letter, digit] = bytes;
                SliderName {
                    number: 0,
                    letter,
                    digit,
                }
            }
            Err(refusal) => SliderName {
                number: refusal.number() as u64,
                letter: 0,
                digit: 0,
            },
        }
    }
}

impl From<Result<Option<u8>, Refusal>> for SliderStep {
    ghost from_gives = { λ s r. r ≡ step_of (said s) };

    fn from(step: Result<Option<u8>, Refusal>) -> SliderStep {
        match step {
            Ok(Some(square)) => SliderStep {
                number: 0,
                off: 0,
                square: square as u64,
            },
            Ok(None) => SliderStep {
                number: 0,
                off: 1,
                square: 0,
            },
            Err(refusal) => SliderStep {
                number: refusal.number() as u64,
                off: 0,
                square: 0,
            },
        }
    }
}

// ---- the board

pub fn slider_rays(kind: u8, sq: u8) -> SliderAnswer
    ensures { result ≡ answer_of (on_block kind sq (gives (rays kind sq))) }
{
    rays::get_rays(kind, sq).into()
}

pub fn slider_mask(kind: u8, sq: u8) -> SliderAnswer
    ensures { result ≡ answer_of (on_block kind sq (gives (mask kind sq))) }
{
    magic_helpers::magic_mask(kind, sq).into()
}

pub fn slider_size(kind: u8, sq: u8) -> SliderAnswer
    ensures { result ≡ answer_of (on_block kind sq (gives (size_of kind sq))) }
{
    magic_helpers::size(kind, sq).map(|n| n as u64).into()
}

pub fn slider_shift(kind: u8, sq: u8) -> SliderAnswer
    ensures { result ≡ answer_of (on_block kind sq (gives (shift_of kind sq))) }
{
    magic_helpers::rightshift(kind, sq).map(u64::from).into()
}

pub fn slider_subset(kind: u8, sq: u8, i: u64) -> SliderAnswer
    ensures { result ≡ answer_of (on_block kind sq (gives (subset kind sq i))) }
{
    magic_helpers::subset(kind, sq, i).into()
}

pub fn slider_walk(kind: u8, sq: u8, blockers: u64) -> SliderAnswer
    ensures { result ≡ answer_of (on_block kind sq (gives (attack kind sq blockers))) }
{
    magic_helpers::walk(kind, sq, blockers).into()
}

// The square of a name: a letter a to h, then a digit 1 to 8; what follows is ignored.
pub fn slider_square(name: &[u8]) -> SliderAnswer
    ensures { result ≡ answer_of (read_name name.now) }
{
    square::from_str(name).map(u64::from).into()
}

pub fn slider_name(sq: u8) -> SliderName
    ensures { result ≡ name_of (name_said sq) }
{
    square::to_name(sq).into()
}

pub fn slider_up(sq: u8) -> SliderStep
    ensures { result ≡ step_of (up_said sq) }
{
    square::up(sq).into()
}

pub fn slider_down(sq: u8) -> SliderStep
    ensures { result ≡ step_of (down_said sq) }
{
    square::down(sq).into()
}

pub fn slider_left(sq: u8) -> SliderStep
    ensures { result ≡ step_of (left_said sq) }
{
    square::left(sq).into()
}

pub fn slider_right(sq: u8) -> SliderStep
    ensures { result ≡ step_of (right_said sq) }
{
    square::right(sq).into()
}

// ---- PEXT tables

pub fn slider_pext_fill(table: &mut [u16]) -> SliderAnswer
    ensures { (result ≡ answer_of (of_length (length table.old) (gives 107648))) × (table.new ≡ filled table.old) }
{
    bmis::gen_all_bmis(table).map(|n| n as u64).into()
}

pub fn slider_pext_moves(kind: u8, sq: u8, blockers: u64, table: &[u16]) -> SliderAnswer
    ensures { result ≡ answer_of (in_table kind sq (length table.now) (gives (pext_look_up kind sq blockers table.now))) }
{
    bmis::get_moves_bmi(kind, sq, blockers, table).into()
}

// Where a square's block lies in a table of so many entries.
pub fn slider_pext_place(kind: u8, sq: u8, table: &[u16]) -> SliderPlace
    ensures { result ≡ place_of (in_table kind sq (length table.now) (gives (extent_of kind sq))) }
{
    bmis::bmi_place(kind, sq, table).into()
}

// ---- magic tables

pub fn slider_search(kind: u8, sq: u8, seed: u64, budget: u64) -> SliderFound
    ensures { result ≡ found_of (on_block kind sq (search_of (block_of kind sq) seed budget)) }
{
    candidates::search(kind, sq, seed, budget).into()
}

pub fn slider_build(seed: u64, budget: u64, table: &mut [u64], marks: &mut [u64]) -> SliderBuild
    ensures { handed result table.new marks.new ≡ handed_of (from_seed seed budget table.old marks.old) }
{
    gen_magic::gen_all_magic(seed, budget, table, marks).into()
}

pub fn slider_build_lent(multipliers: &[u64], table: &mut [u64], marks: &mut [u64]) -> SliderBuild
    ensures { handed result table.new marks.new ≡ handed_of (from_lent multipliers.now table.old marks.old) }
{
    gen_magic::gen_all_lent(multipliers, table, marks).into()
}

pub fn slider_moves(kind: u8, sq: u8, blockers: u64, magic: Record, table: &[u64]) -> SliderAnswer
    ensures { result ≡ answer_of (on_block kind sq (look_up kind sq blockers magic table.now)) }
{
    magic::get_moves(kind, sq, blockers, magic, table).into()
}

pub fn slider_audit(set: SliderRecords, table: &[u64]) -> SliderVerdict
    ensures { result ≡ verdict_of (audit_says set.records table.now) }
{
    magic::audit(set.records, table).into()
}

// ---- batches: as many queries as each slice has; the rest of numbers and moves stays as it is

// What a batch asks of each query, and what is said of it.
trait Asked {
    ghost says: { Self → ℕ → ℕ → ℕ → Said ℕ };

    fn ask(&self, kind: u8, sq: u8, blockers: u64) -> SliderAnswer
        ensures { result ≡ answer_of (says self.now kind sq blockers) };
}

// Slices side by side, not of structs: the C interface hands them so.
fn batch<A: Asked>(
    asked: &A,
    kinds: &[u8],
    squares: &[u8],
    blockers: &[u64],
    numbers: &mut [u64],
    moves: &mut [u64],
) -> u64
    ensures { Batch (asked_by (A.says asked.now) kinds.now squares.now blockers.now) (fewest (length kinds.now) (length squares.now) (length blockers.now) (length numbers.old) (length moves.old)) result numbers.old moves.old numbers.new moves.new }
{
    let queries = kinds.len().min(squares.len()).min(blockers.len());
    let n = queries.min(numbers.len().min(moves.len()));
    for i in 0..n {
        let found = asked.ask(kinds[i], squares[i], blockers[i]);
        numbers[i] = found.number;
        moves[i] = found.value;
    }
    n as u64
}

#[derive(Clone, Copy)]
struct Walks;

impl Asked for Walks {
    ghost says = { λ asked kind s b. on_block kind s (gives (attack kind s b)) };

    fn ask(&self, kind: u8, sq: u8, blockers: u64) -> SliderAnswer {
        slider_walk(kind, sq, blockers)
    }
}

pub fn slider_walk_batch(
    kinds: &[u8],
    squares: &[u8],
    blockers: &[u64],
    numbers: &mut [u64],
    moves: &mut [u64],
) -> u64
    ensures { Batch (walk_asked kinds.now squares.now blockers.now) (fewest (length kinds.now) (length squares.now) (length blockers.now) (length numbers.old) (length moves.old)) result numbers.old moves.old numbers.new moves.new }
{
    batch(&Walks, kinds, squares, blockers, numbers, moves)
}

#[derive(Clone, Copy)]
struct PextMoves<'a> {
    table: &'a [u16],
}

impl Asked for PextMoves<'_> {
    ghost says = { λ asked kind s b. in_table kind s (length asked.table.now) (gives (pext_look_up kind s b asked.table.now)) };

    fn ask(&self, kind: u8, sq: u8, blockers: u64) -> SliderAnswer {
        slider_pext_moves(kind, sq, blockers, self.table)
    }
}

pub fn slider_pext_moves_batch(
    table: &[u16],
    kinds: &[u8],
    squares: &[u8],
    blockers: &[u64],
    numbers: &mut [u64],
    moves: &mut [u64],
) -> u64
    ensures { Batch (pext_asked table.now kinds.now squares.now blockers.now) (fewest (length kinds.now) (length squares.now) (length blockers.now) (length numbers.old) (length moves.old)) result numbers.old moves.old numbers.new moves.new }
{
    batch(
        &PextMoves { table },
        kinds,
        squares,
        blockers,
        numbers,
        moves,
    )
}

// The rays of all blocks, listed once for a batch, in place of a call for each query.
fn all_rays() -> [u64; 128]
    ensures { result ≡ shown 128 (λ (b : ℕ). rays (kind_of b) (square_of b)) }
{
    array::from_fn(rays::rays_at)
}

// A look-up by a query's own record, with its rays at hand; kind and square are tested all the same.
#[derive(Clone, Copy)]
struct MagicMoves<'a> {
    records: &'a [Record; 128],
    rays: &'a [u64; 128],
    table: &'a [u64],
    ghost listed: { rays.now ≡ shown 128 (λ (b : ℕ). rays_of (kind_of b) (square_of b)) },
}

impl MagicMoves<'_> {
    #[tactic(auto, using(crate::proofs::Batches::block_below, crate::proofs::Batches::by_listed))]
    fn look_up(&self, kind: u8, sq: u8, blockers: u64) -> Result<u64, Refusal>
        ensures { said result ≡ on_block kind sq (look_up kind sq blockers (record_in self.now.records.now (block_of kind sq)) self.now.table.now) }
    {
        let block = rays::block(kind, sq)?;
        magic::look_with(self.rays[block], blockers, self.records[block], self.table)
    }
}

impl Asked for MagicMoves<'_> {
    ghost says = { λ asked kind s b. on_block kind s (look_up kind s b (record_in asked.records.now (block_of kind s)) asked.table.now) };

    fn ask(&self, kind: u8, sq: u8, blockers: u64) -> SliderAnswer {
        self.look_up(kind, sq, blockers).into()
    }
}

pub fn slider_moves_batch(
    set: SliderRecords,
    table: &[u64],
    kinds: &[u8],
    squares: &[u8],
    blockers: &[u64],
    numbers: &mut [u64],
    moves: &mut [u64],
) -> u64
    ensures { Batch (moves_asked set.records table.now kinds.now squares.now blockers.now) (fewest (length kinds.now) (length squares.now) (length blockers.now) (length numbers.old) (length moves.old)) result numbers.old moves.old numbers.new moves.new }
{
    let rays = all_rays();
    let asked = MagicMoves {
        records: &set.records,
        rays: &rays,
        table,
    };
    batch(&asked, kinds, squares, blockers, numbers, moves)
}
