//! The words of a reference.
ghost use Rattle.std.specs.Prelude.{◌≡◌, ◌≤◌, ◌<◌, ◌^◌, ◌&&◌, ℕ, Some, IfSome, All, length, is_some, refl, nat_eq, nat_le, take};
ghost use Rattle.std.specs.Ordering.{nat_cmp};
ghost use Rattle.std.specs.Cmp.{partial_equiv_from_equiv};
ghost use Rattle.std.specs.Cmp.Lexicographic.{pointwise, slice_cmp, nat_list_eq_equiv, nat_list_cmp_total, texts_po, texts_ties};

use std::alloc::AllocError;
use std::cmp::Ordering;
use std::marker::Model;

/// The most words of a reference.
pub const MOST: usize = 5;

/// The 1 to 5 numbers of 32 bits that tell the references of an incarnation apart. Contracts see
/// the list of them.
///
/// They are ordered as lists are. (ERTS User's Guide, External Term Format, NEWER_REFERENCE_EXT.)
#[derive(Debug, Drop)]
pub struct ReferenceWords {
    words: [u32; 5],
    count: u8,
}

impl Model for ReferenceWords {
    ghost use Rattle.std.specs.Prelude.{List, ℕ, All, length, take, ◌≤◌, ◌<◌, ◌^◌, ◌≡◌};

    ghost Value = { List ℕ };

    ghost view = { λ w. take w.count w.words };

    ghost invariant = { λ w. (1 ≤ w.count) × (w.count ≤ 5) × (length w.words ≡ 5) × All (λ word. word < 2 ^ 32) (take w.count w.words) };
}

impl ReferenceWords {
    /// The words, if they are 1 to 5.
    pub fn new(words: &[u32]) -> Option<ReferenceWords>
        ensures words { IfSome result (λ w. w ≡ words.now) }
        ensures some { is_some result ≡ (nat_le 1 (length words.now) && nat_le (length words.now) 5) }
    {
        if words.is_empty() || words.len() > MOST {
            return None;
        }
        let mut array = [0; MOST];
        array[..words.len()].copy_from_slice(words);
        Some(ReferenceWords {
            words: array,
            count: words.len() as u8,
        })
    }

    /// The first so many of the words.
    pub(crate) fn of(words: [u32; MOST], count: usize) -> ReferenceWords
        requires some { 1 ≤ count }
        requires few { count ≤ 5 }
        ensures { result ≡ take count words }
    {
        ReferenceWords {
            words,
            count: count as u8,
        }
    }

    /// The words, in their order.
    pub fn as_slice(&self) -> &[u32]
        ensures words { result.now ≡ self.now }
        ensures some { 1 ≤ length self.now }
        ensures few { length self.now ≤ 5 }
        ensures range { All (λ w. w < 2 ^ 32) self.now }
    {
        &self.words[..usize::from(self.count)]
    }
}

impl Clone for ReferenceWords {
    ghost is_clone = { λ words copy. copy ≡ words };

    fn clone(&self) -> Result<ReferenceWords, AllocError> {
        Ok(ReferenceWords {
            words: self.words,
            count: self.count,
        })
    }
}

impl PartialEq for ReferenceWords {
    ghost eq = { pointwise nat_eq };

    ghost laws = { partial_equiv_from_equiv nat_list_eq_equiv };

    fn eq(&self, other: &ReferenceWords) -> bool {
        self.as_slice() == other.as_slice()
    }
}

impl Eq for ReferenceWords {
    ghost laws = { nat_list_eq_equiv };
}

impl PartialOrd for ReferenceWords {
    ghost partial_cmp = { λ a b. Some (slice_cmp nat_cmp a b) };

    ghost laws = { texts_po };

    fn partial_cmp(&self, other: &ReferenceWords) -> Option<Ordering> {
        Some(self.cmp(other))
    }
}

impl Ord for ReferenceWords {
    ghost cmp = { slice_cmp nat_cmp };

    ghost total = { nat_list_cmp_total };

    ghost matches_partial_cmp = { λ a b. refl };

    ghost matches_eq = { texts_ties };

    fn cmp(&self, other: &ReferenceWords) -> Ordering {
        self.as_slice().cmp(other.as_slice())
    }
}
