//! Presence bits: one for each address, 64 per word, the lowest address in the lowest bit.

ghost use Rattle.std.specs.Prelude.{◌≡◌, ◌+◌, ◌*◌, ◌^◌, ◌<◌, ◌≤◌, ◌==◌, ◌||◌, ℕ, length, if◌then◌else◌, not};
ghost use Rattle.std.specs.Int.{bit_at};
ghost use Rattle.avr_image.specs.Present.{is_present, with_mark, without_mark, is_within, NextOne, FirstPlace};

pub(crate) fn is_set(words: &[u64], addr: usize) -> bool
    requires { addr < length words.now * 64 }
    ensures { result ≡ is_present words.now addr }
{
    (words[addr / 64] >> (addr % 64)) & 1 == 1
}

pub(crate) fn mark(words: &mut Vec<u64>, addr: usize)
    requires { addr < length words.old.items * 64 }
    ensures words { words.new.items ≡ with_mark words.old.items addr }
{
    words[addr / 64] |= 1 << (addr % 64);
}

pub(crate) fn unmark(words: &mut Vec<u64>, addr: usize)
    requires { addr < length words.old.items * 64 }
    ensures words { words.new.items ≡ without_mark words.old.items addr }
{
    words[addr / 64] &= !(1 << (addr % 64));
}

/// Returns the place of the lowest 1 from `from` on, or 64 if there is none.
#[tactic(auto, using(crate::proofs::Fields::Masks::next_is))]
fn next_one(word: u64, from: u32) -> u32
    requires { from < 64 }
    ensures { NextOne word from result }
{
    (word & (u64::MAX << from)).trailing_zeros()
}

/// Returns a word with a 1 for each address whose presence is `wanted`.
#[tactic(auto, using(crate::proofs::Fields::Masks::other_bit))]
fn matching(word: u64, wanted: bool) -> u64
    ensures { (i : ℕ) → i < 64 → (bit_at result i == 1) ≡ (if wanted then bit_at word i == 1
        else not (bit_at word i == 1)) }
{
    if wanted { word } else { !word }
}

/// Returns the least address from `from` on, below `end`, whose presence is `wanted`. Without one it returns `end`.
pub(crate) fn first_place(words: &[u64], wanted: bool, from: usize, end: usize) -> usize
    requires within { (from ≤ end) × (end ≤ length words.now * 64) }
    requires below { end < 2 ^ 32 }
    ensures { FirstPlace words.now wanted from end result }
{
    let mut at = from;
    while at < end {
        let base = at / 64 * 64;
        let place = next_one(matching(words[at / 64], wanted), (at % 64) as u32);
        if place < 64 {
            return end.min(base + place as usize);
        }
        at = base + 64;
    }
    end
}

/// Marks the addresses from `from` on, up to `end`.
pub(crate) fn mark_span(words: &mut Vec<u64>, from: usize, end: usize)
    requires within { (from ≤ end) × (end ≤ length words.old.items * 64) }
    requires below { end < 2 ^ 32 }
    ensures marked { (k : ℕ) → is_present words.new.items k ≡ (is_within from end k || is_present words.old.items k) }
    ensures len { length words.new.items ≡ length words.old.items }
{
    let mut at = from;
    while at < end {
        let index = at / 64;
        let stop = end.min(index * 64 + 64);
        words[index] |= (u64::MAX << (at % 64)) & (u64::MAX >> (64 - (stop - index * 64)));
        at = stop;
    }
}
