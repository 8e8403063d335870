// Candidates: SplitMix64, and the AND of three of its outputs.
//
// Holds: the generator, a draw by value, and the draw that moves a lent generator in place.
// Ports: `random_bitboard` of src/gen_tables/magic_helpers.rs (lines 54 to 56), with SmallRng replaced.
// Adds: the fixed generator (Steele, Lea and Flood; Vigna's reference code).
#![tactic(auto)]

ghost use Rattle.std.specs.Prelude.{◌≡◌};
ghost use Rattle.splitmix.specs.SplitMix.{advanced, mixed, candidate_of, moved, drawn};

// A generator is its state; any 64 bits are one.
#[derive(Clone, Copy)]
pub struct Generator {
    pub state: u64,
}

// A candidate, and the generator moved past it.
#[derive(Clone, Copy)]
pub struct Drawn {
    pub candidate: u64,
    pub next: Generator,
}

#[tactic(auto, unfolding(crate::specs::SplitMix::advanced))]
fn advance(state: u64) -> u64
    ensures { result ≡ advanced state }
{
    state.wrapping_add(0x9E37_79B9_7F4A_7C15)
}

#[tactic(auto, unfolding(crate::specs::SplitMix::mixed))]
fn mix(state: u64) -> u64
    ensures { result ≡ mixed state }
{
    // By the helper, as 01 asks ("Choosing the form by place").
    let z = bits::wrapping_mul(state ^ (state >> 30), 0xBF58_476D_1CE4_E5B9);
    let z = bits::wrapping_mul(z ^ (z >> 27), 0x94D0_49BB_1331_11EB);
    z ^ (z >> 31)
}

impl Generator {
    // A candidate is the AND of three outputs in a row.
    #[tactic(auto, unfolding(crate::specs::SplitMix::after, crate::specs::SplitMix::output, crate::specs::SplitMix::candidate_of))]
    pub fn draw(self) -> Drawn
        ensures { result ≡ drawn self }
    {
        let a = advance(self.state);
        let b = advance(a);
        let c = advance(b);
        Drawn {
            candidate: mix(a) & mix(b) & mix(c),
            next: Generator { state: c },
        }
    }
}

// For the box's long-running tool: the same draw of a lent generator, which is moved in place.
pub fn draw_in_place(generator: &mut Generator) -> u64
    ensures { (result ≡ candidate_of generator.old.state) × (generator.new ≡ moved generator.old) }
{
    let drawn = generator.draw();
    *generator = drawn.next;
    drawn.candidate
}
