// Reads and writes a seed.
ghost use Rattle.std.specs.Prelude.{◌≡◌, IfOk, Some, string_bytes};
ghost use Rattle.std.specs.Fmt.{WritesOnOk};
ghost use Rattle.tokens.specs.Seeds.{seed_of, seed_text};

use crate::number::reading;
use std::alloc::{AllocError, Global};
use std::fmt;

// The hexadecimal number of 64 bits that `word` writes; leading zeros are allowed.
pub fn seed(word: &[u8]) -> Option<u64>
    ensures { result ≡ seed_of word.now }
{
    reading(word, 16, u64::MAX)
}

// The seed in hexadecimal, in lower case and without leading zeros; `seed` reads it back.
#[tactic(auto, using(crate::proofs::Writings::seed_back))]
pub fn seed_text(heap: Global, seed: u64) -> Result<String, AllocError>
    ensures is { IfOk result (λ s. string_bytes s ≡ seed_text seed) }
    ensures back { IfOk result (λ s. seed_of (string_bytes s) ≡ Some seed) }
{
    format!(in heap; "{}", HexSeed(seed))
}

// A seed as a sheet writes it: in hexadecimal, in lower case and without leading zeros; `seed` reads it back.
#[derive(Clone, Copy, PartialEq, Eq, Debug)]
pub struct HexSeed(pub u64);

impl fmt::Display for HexSeed {
    ghost output = { λ s. Some (seed_text s.0) };

    fn fmt<W: fmt::Write>(&self, f: &mut fmt::Formatter<W>) -> fmt::Result {
        write_hex(f, self.0)
    }
}

#[tactic(auto, using(crate::proofs::Writings::seed_text_is, crate::proofs::Writings::seed_back))]
fn write_hex<W: fmt::Write>(f: &mut fmt::Formatter<W>, seed: u64) -> fmt::Result
    ensures is { WritesOnOk W.write_str_gives f.old result (seed_text seed) f.new }
    ensures back { seed_of (seed_text seed) ≡ Some seed }
{
    write!(f, "{seed:x}")
}
