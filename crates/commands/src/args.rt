// Reads the words after a command's name.
ghost use Rattle.std.specs.Prelude.{◌≡◌, ℕ, List, Result, vec_items};
ghost use Rattle.commands.specs.declared.command.Mistake.{Mistake};
ghost use Rattle.commands.specs.Args.{meant, Reads, Computes, small_of, port_of, list_of, pair_of, single_of, around_of};
ghost use Rattle.tokens.specs.Words.{bytes};

use crate::command::{Mistake, Unread};
use std::alloc::Global;
use tokens::number::number;

// A vertex, a port, a size or a depth.
pub(crate) fn small(word: &[u8]) -> Result<u16, Mistake>
    ensures { result ≡ small_of word.now }
{
    number(word, u16::MAX.into())
        .map(|n| n as u16)
        .ok_or(Mistake::Number)
}

// A port, or `-` for the root's.
pub(crate) fn port(word: &[u8]) -> Result<u16, Mistake>
    ensures { result ≡ port_of word.now }
{
    if word == b"-".as_slice() {
        Ok(u16::MAX)
    } else {
        small(word)
    }
}

// The words as numbers, in order, each read by `read`.
pub(crate) fn list<F: Fn(&[u8]) -> Result<u16, Mistake>>(
    heap: Global,
    args: &[&[u8]],
    read: F,
) -> Result<Vec<u16>, Unread>
    requires { F.IsAlwaysCallable read }
    ensures { (f : List ℕ → Result ℕ Mistake) → Computes F.Fn read f → Reads vec_items result (list_of f (bytes args.now)) }
{
    let mut numbers = Vec::new(heap);
    for word in args {
        let n = read(word)?;
        numbers.push(n)?;
    }
    Ok(numbers)
}

// Two numbers, the left one first.
pub(crate) fn pair(left: &[u8], right: &[u8]) -> Result<(u16, u16), Mistake>
    ensures { result ≡ pair_of left.now right.now }
{
    Ok((small(left)?, small(right)?))
}

// The only word.
pub(crate) fn single<'a>(args: &[&'a [u8]]) -> Result<&'a [u8], Mistake>
    ensures { meant (λ w. w.now) result ≡ single_of (bytes args.now) }
{
    let [word] = args else {
        return Err(Mistake::Count);
    };
    Ok(word)
}

// The two words around `text`; another word in its place is the mistake `missing`.
pub(crate) fn around<'a>(
    args: &[&'a [u8]],
    text: &[u8],
    missing: Mistake,
) -> Result<(&'a [u8], &'a [u8]), Mistake>
    ensures { meant (λ w. (w.0.now, w.1.now)) result ≡ around_of text.now missing (bytes args.now) }
{
    let [left, word, right] = args else {
        return Err(Mistake::Count);
    };
    if *word == text {
        Ok((left, right))
    } else {
        Err(missing)
    }
}
