//! The words `name=number` that bind parameters.

ghost use Rattle.std.specs.Prelude.{◌≡◌, ◌≤◌, length, map, option_map, IfOk};
ghost use Rattle.std.specs.List.{list_all};
ghost use Rattle.vg_request.specs.Binding.{digits_of, signed_of, name_len, binding_of, is_binding, bindings_in, signed_number, binding_seen};

use std::alloc::{AllocError, Global};
use vg_outside::Bytes;
use vg_text::byte::is_name_text;
use vg_text::decimal;

/// A number with its sign, of at most 20 digits.
#[derive(Clone, Copy)]
pub struct SignedNumber {
    /// Whether a `-` stands before the digits, as in `-0` too.
    pub negative: bool,
    /// How far it is from 0, below 10^20.
    pub distance: u128,
}

/// A name and the number that it is given.
#[derive(Clone, Copy)]
pub struct Bound<'a> {
    /// Of 1 to 64 bytes.
    pub name: &'a [u8],
    /// Whether a parameter has it in its range is not judged.
    pub number: SignedNumber,
}

fn digits_of(text: &[u8]) -> Option<u128>
    ensures { result ≡ digits_of text.now }
{
    if text.len() <= 20 {
        decimal(text)
    } else {
        None
    }
}

fn with_sign(negative: bool, distance: Option<u128>) -> Option<SignedNumber>
    ensures { option_map signed_number result
        ≡ option_map (λ n. record { negative = negative; distance = n }) distance }
{
    match distance {
        Some(distance) => Some(SignedNumber { negative, distance }),
        None => None,
    }
}

fn signed_of(text: &[u8]) -> Option<SignedNumber>
    ensures { option_map signed_number result ≡ signed_of text.now }
{
    match text {
        [b'-', digits @ ..] => with_sign(true, digits_of(digits)),
        _ => with_sign(false, digits_of(text)),
    }
}

fn name_len(word: &[u8]) -> usize
    ensures len { result ≡ name_len word.now }
    ensures inside { result ≤ length word.now }
{
    word.iter().take_while(|byte| **byte != b'=').count()
}

/// The binding that a word is: a name as kernels have them, `=`, and one to twenty digits, which
/// may have a `-` before them. None for any other word. Takes no memory.
#[tactic(auto, unfolding(crate::specs::Binding::binding_of))]
pub fn binding_of(word: &[u8]) -> Option<Bound<'_>>
    ensures { option_map binding_seen result ≡ binding_of word.now }
{
    let len = name_len(word);
    if len >= word.len() {
        return None;
    }
    let name = &word[..len];
    if !is_name_text(name) {
        return None;
    }
    match signed_of(&word[len + 1..]) {
        Some(number) => Some(Bound { name, number }),
        None => None,
    }
}

fn is_binding(word: &[u8]) -> bool
    ensures { result ≡ is_binding word.now }
{
    match binding_of(word) {
        Some(_) => true,
        None => false,
    }
}

/// Whether each word is a binding. Takes no memory.
pub fn are_bindings(words: &[Bytes]) -> bool
    ensures { result ≡ list_all is_binding words.now }
{
    words.iter().all(|word| is_binding(word.as_slice()))
}

/// The bindings among the words, in their order; other words are left out. Fails for want of memory
/// alone.
pub fn bindings_of(alloc: Global, words: &[Bytes]) -> Result<Vec<Bound<'_>>, AllocError>
    ensures { IfOk result (λ bound. map binding_seen bound.items ≡ bindings_in words.now) }
{
    let mut all = Vec::new(alloc);
    'words: for word in words {
        if let Some(binding) = binding_of(word.as_slice()) {
            all.push(binding)?;
        }
    }
    Ok(all)
}
