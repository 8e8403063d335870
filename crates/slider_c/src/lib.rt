// The static library that a program in Rust or C links: the exports, with the clauses of `slider`'s functions.
//
// Holds: for each function of `slider` an export of its name, which calls it. The archive is libslider.a.
// Ports: nothing of its own.
// Adds: nothing to `slider`: a library and a static library are two crates.
#![tactic(auto)]

ghost use Rattle.std.specs.Prelude.{◌≡◌, length};
ghost use Rattle.refusal.specs.Paper.{gives};
ghost use Rattle.square.specs.Square.{read_name, name_said, up_said, down_said, left_said, right_said};
ghost use Rattle.board.specs.Board.{rays, mask, attack, on_block};
ghost use Rattle.board.specs.Blocks.{block_of, size_of, shift_of, subset};
ghost use Rattle.bmis.specs.Bmis.{of_length, in_table, filled, look_up as pext_look_up, extent_of};
ghost use Rattle.candidates.specs.OneBlock.{search_of};
ghost use Rattle.gen_magic.specs.Builds.{from_seed, from_lent};
ghost use Rattle.magic.specs.LookUp.{look_up};
ghost use Rattle.magic.specs.Audit.{audit_says};
ghost use Rattle.slider.specs.Flat.{answer_of, verdict_of, found_of, handed, handed_of, place_of, name_of, step_of};
ghost use Rattle.slider.specs.Batch.{Batch, fewest, walk_asked, pext_asked, moves_asked};

use gen_magic::Record;
use slider::{
    SliderAnswer, SliderBuild, SliderFound, SliderName, SliderPlace, SliderRecords, SliderStep,
    SliderVerdict,
};

#[unsafe(no_mangle)]
pub extern "C" fn slider_rays(kind: u8, sq: u8) -> SliderAnswer
    ensures { result ≡ answer_of (on_block kind sq (gives (rays kind sq))) }
{
    slider::slider_rays(kind, sq)
}

#[unsafe(no_mangle)]
pub extern "C" fn slider_mask(kind: u8, sq: u8) -> SliderAnswer
    ensures { result ≡ answer_of (on_block kind sq (gives (mask kind sq))) }
{
    slider::slider_mask(kind, sq)
}

#[unsafe(no_mangle)]
pub extern "C" fn slider_size(kind: u8, sq: u8) -> SliderAnswer
    ensures { result ≡ answer_of (on_block kind sq (gives (size_of kind sq))) }
{
    slider::slider_size(kind, sq)
}

#[unsafe(no_mangle)]
pub extern "C" fn slider_shift(kind: u8, sq: u8) -> SliderAnswer
    ensures { result ≡ answer_of (on_block kind sq (gives (shift_of kind sq))) }
{
    slider::slider_shift(kind, sq)
}

#[unsafe(no_mangle)]
pub extern "C" fn slider_subset(kind: u8, sq: u8, i: u64) -> SliderAnswer
    ensures { result ≡ answer_of (on_block kind sq (gives (subset kind sq i))) }
{
    slider::slider_subset(kind, sq, i)
}

#[unsafe(no_mangle)]
pub extern "C" fn slider_walk(kind: u8, sq: u8, blockers: u64) -> SliderAnswer
    ensures { result ≡ answer_of (on_block kind sq (gives (attack kind sq blockers))) }
{
    slider::slider_walk(kind, sq, blockers)
}

// The square of a name: a letter a to h, then a digit 1 to 8; what follows is ignored.
#[unsafe(no_mangle)]
pub extern "C" fn slider_square(name: &[u8]) -> SliderAnswer
    ensures { result ≡ answer_of (read_name name.now) }
{
    slider::slider_square(name)
}

#[unsafe(no_mangle)]
pub extern "C" fn slider_name(sq: u8) -> SliderName
    ensures { result ≡ name_of (name_said sq) }
{
    slider::slider_name(sq)
}

#[unsafe(no_mangle)]
pub extern "C" fn slider_up(sq: u8) -> SliderStep
    ensures { result ≡ step_of (up_said sq) }
{
    slider::slider_up(sq)
}

#[unsafe(no_mangle)]
pub extern "C" fn slider_down(sq: u8) -> SliderStep
    ensures { result ≡ step_of (down_said sq) }
{
    slider::slider_down(sq)
}

#[unsafe(no_mangle)]
pub extern "C" fn slider_left(sq: u8) -> SliderStep
    ensures { result ≡ step_of (left_said sq) }
{
    slider::slider_left(sq)
}

#[unsafe(no_mangle)]
pub extern "C" fn slider_right(sq: u8) -> SliderStep
    ensures { result ≡ step_of (right_said sq) }
{
    slider::slider_right(sq)
}

#[unsafe(no_mangle)]
pub extern "C" fn slider_pext_fill(table: &mut [u16]) -> SliderAnswer
    ensures { (result ≡ answer_of (of_length (length table.old) (gives 107648))) × (table.new ≡ filled table.old) }
{
    slider::slider_pext_fill(table)
}

#[unsafe(no_mangle)]
pub extern "C" fn slider_pext_moves(kind: u8, sq: u8, blockers: u64, table: &[u16]) -> SliderAnswer
    ensures { result ≡ answer_of (in_table kind sq (length table.now) (gives (pext_look_up kind sq blockers table.now))) }
{
    slider::slider_pext_moves(kind, sq, blockers, table)
}

// Where a square's block lies in a table of so many entries.
#[unsafe(no_mangle)]
pub extern "C" fn slider_pext_place(kind: u8, sq: u8, table: &[u16]) -> SliderPlace
    ensures { result ≡ place_of (in_table kind sq (length table.now) (gives (extent_of kind sq))) }
{
    slider::slider_pext_place(kind, sq, table)
}

#[unsafe(no_mangle)]
pub extern "C" fn slider_search(kind: u8, sq: u8, seed: u64, budget: u64) -> SliderFound
    ensures { result ≡ found_of (on_block kind sq (search_of (block_of kind sq) seed budget)) }
{
    slider::slider_search(kind, sq, seed, budget)
}

#[unsafe(no_mangle)]
pub extern "C" fn slider_build(
    seed: u64,
    budget: u64,
    table: &mut [u64],
    marks: &mut [u64],
) -> SliderBuild
    ensures { handed result table.new marks.new ≡ handed_of (from_seed seed budget table.old marks.old) }
{
    slider::slider_build(seed, budget, table, marks)
}

#[unsafe(no_mangle)]
pub extern "C" fn slider_build_lent(
    multipliers: &[u64],
    table: &mut [u64],
    marks: &mut [u64],
) -> SliderBuild
    ensures { handed result table.new marks.new ≡ handed_of (from_lent multipliers.now table.old marks.old) }
{
    slider::slider_build_lent(multipliers, table, marks)
}

#[unsafe(no_mangle)]
pub extern "C" fn slider_moves(
    kind: u8,
    sq: u8,
    blockers: u64,
    magic: Record,
    table: &[u64],
) -> SliderAnswer
    ensures { result ≡ answer_of (on_block kind sq (look_up kind sq blockers magic table.now)) }
{
    slider::slider_moves(kind, sq, blockers, magic, table)
}

#[unsafe(no_mangle)]
pub extern "C" fn slider_audit(set: SliderRecords, table: &[u64]) -> SliderVerdict
    ensures { result ≡ verdict_of (audit_says set.records table.now) }
{
    slider::slider_audit(set, table)
}

#[unsafe(no_mangle)]
pub extern "C" fn slider_walk_batch(
    kinds: &[u8],
    squares: &[u8],
    blockers: &[u64],
    numbers: &mut [u64],
    moves: &mut [u64],
) -> u64
    ensures { Batch (walk_asked kinds.now squares.now blockers.now) (fewest (length kinds.now) (length squares.now) (length blockers.now) (length numbers.old) (length moves.old)) result numbers.old moves.old numbers.new moves.new }
{
    slider::slider_walk_batch(kinds, squares, blockers, numbers, moves)
}

#[unsafe(no_mangle)]
pub extern "C" fn slider_pext_moves_batch(
    table: &[u16],
    kinds: &[u8],
    squares: &[u8],
    blockers: &[u64],
    numbers: &mut [u64],
    moves: &mut [u64],
) -> u64
    ensures { Batch (pext_asked table.now kinds.now squares.now blockers.now) (fewest (length kinds.now) (length squares.now) (length blockers.now) (length numbers.old) (length moves.old)) result numbers.old moves.old numbers.new moves.new }
{
    slider::slider_pext_moves_batch(table, kinds, squares, blockers, numbers, moves)
}

#[unsafe(no_mangle)]
pub extern "C" fn slider_moves_batch(
    set: SliderRecords,
    table: &[u64],
    kinds: &[u8],
    squares: &[u8],
    blockers: &[u64],
    numbers: &mut [u64],
    moves: &mut [u64],
) -> u64
    ensures { Batch (moves_asked set.records table.now kinds.now squares.now blockers.now) (fewest (length kinds.now) (length squares.now) (length blockers.now) (length numbers.old) (length moves.old)) result numbers.old moves.old numbers.new moves.new }
{
    slider::slider_moves_batch(set, table, kinds, squares, blockers, numbers, moves)
}
