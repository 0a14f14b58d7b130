// Arrows from a seed, by the generator SplitMix64.
ghost use Rattle.std.specs.Prelude.{◌≡◌};
ghost use Rattle.model.specs.Seeds.{lacks_word, output_number, scrambled, seeded_cells, seeded_word, state_at};

use model::source::ArrowSource;

const STEP: u64 = 0x9E37_79B9_7F4A_7C15;

const FIRST_FACTOR: u64 = 0xBF58_476D_1CE4_E5B9;

const SECOND_FACTOR: u64 = 0x94D0_49BB_1331_11EB;

// The port at a vertex and an index is the remainder of a word of the generator by the degree.
#[derive(Clone, Copy)]
pub struct Seeded {
    pub seed: u64,
}

impl Seeded {
    // The state steps by a constant, so that every output can be had without those before it.
    fn state_at(&self, number: u64) -> u64
        ensures { result ≡ state_at self.now.seed number }
    {
        self.seed.wrapping_add(STEP.wrapping_mul(number))
    }

    fn word(&self, v: u16, index: u16) -> u64
        ensures { result ≡ seeded_word self.now.seed v index }
    {
        scrambled(self.state_at(output_number(v, index)))
    }
}

// Outputs count from 1, and each vertex has 4,096 of its own.
fn output_number(v: u16, index: u16) -> u64
    ensures { result ≡ output_number v index }
{
    v as u64 * 4096 + index as u64 + 1
}

fn scrambled(state: u64) -> u64
    ensures { result ≡ scrambled state }
{
    let once = (state ^ (state >> 30)).wrapping_mul(FIRST_FACTOR);
    let twice = (once ^ (once >> 27)).wrapping_mul(SECOND_FACTOR);
    twice ^ (twice >> 31)
}

fn lacks_word(v: u16, index: u16, degree: u16) -> bool
    ensures { result ≡ lacks_word v index degree }
{
    degree == 0 || 1023 < v || 4095 < index
}

impl ArrowSource for Seeded {
    ghost cells = { λ s. seeded_cells s.seed };

    fn port(&self, v: u16, index: u16, degree: u16) -> Option<u16> {
        if lacks_word(v, index, degree) {
            return None;
        }
        Some((self.word(v, index) % degree as u64) as u16)
    }
}
