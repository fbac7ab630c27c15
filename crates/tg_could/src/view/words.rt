//! Words of 64 bits as sets of islands.
ghost use Rattle.std.specs.Prelude.{◌≡◌, IsTrue};
ghost use Rattle.std.specs.Int.{IsPowerOfTwo};
ghost use Rattle.tg_could.specs.View.{is_at_most as within, meets as meeting, name_word as word_in, IsBridged};

/// Whether each bit of a word is set in another.
pub(crate) fn is_within(word: u64, other: u64) -> bool
    ensures { result ≡ within word other }
{
    word & other == word
}

/// Whether two words have a bit in common.
pub(crate) fn meets(word: u64, other: u64) -> bool
    ensures { result ≡ meeting word other }
{
    word & other != 0
}

/// Whether a word has one bit.
pub(crate) fn is_single(word: u64) -> bool
    ensures { IsTrue result → IsPowerOfTwo word }
{
    let bit = word.trailing_zeros();
    bit < 64 && word == 1 << bit
}

/// Whether two words have the same one bit, or one of them has none.
pub(crate) fn are_bridged(word: u64, other: u64) -> bool
    ensures { IsTrue result → IsBridged word other }
{
    word == 0 || other == 0 || word == other && is_single(other)
}

/// The word of a name, 0 past the last.
pub(crate) fn word_of(words: &[u64], name: u64) -> u64
    ensures { result ≡ word_in words.now name }
{
    let at = name as usize;
    if at < words.len() { words[at] } else { 0 }
}

/// Adds bits to a name's word.
pub(crate) fn add(words: &mut [u64], name: u64, bits: u64) {
    let at = name as usize;
    if at < words.len() {
        words[at] |= bits;
    }
}
