// Cuts a line of a sheet into its words.
ghost use Rattle.std.specs.Prelude.{◌≡◌, ℕ, List, IfOk};
ghost use Rattle.std.specs.List.{AllByRecursion};
ghost use Rattle.tokens.specs.Words.{blank, uncommented, bytes, words_of, Proper, spaced};

use std::alloc::{AllocError, Global};

// What parts words; a line's end may be written with a carriage return.
fn is_blank(b: u8) -> bool
    ensures { result ≡ blank b }
{
    matches!(b, b' ' | b'\t' | b'\r')
}

// The part of the line before its comment.
fn before_comment(line: &[u8]) -> &[u8]
    ensures { result.now ≡ uncommented line.now }
{
    let end = line.iter().position(|b| *b == b'#').unwrap_or(line.len());
    &line[..end]
}

// The words of the line, in order; none where it is blank or all comment.
// Each is proper, and a line of proper words, a space after each, gives just these.
pub fn words<'a>(heap: Global, line: &'a [u8]) -> Result<Vec<&'a [u8]>, AllocError>
    ensures are { IfOk result (λ v. bytes v.items ≡ words_of line.now) }
    ensures proper { IfOk result (λ v. AllByRecursion Proper (bytes v.items)) }
    ensures back { IfOk result (λ v. (ws : List (List ℕ)) → AllByRecursion Proper ws → line.now ≡ spaced ws → bytes v.items ≡ ws) }
{
    before_comment(line)
        .split(|b| is_blank(*b))
        .filter(|word| !word.is_empty())
        .collect(heap)
}
