// Marks by the word: a bit for each place, 64 places to a word. A place is a meter's number.
#![tactic(auto)]

ghost use Rattle.std.specs.Prelude.{◌≡◌, map, ◌+◌, ◌*◌, ◌≤◌, ltb, take, drop};
ghost use Rattle.marks.specs.Words.{word_bits, word_count, word_of, words_of};
ghost use Rattle.marks.specs.Marks.{next_marked, marked_count};
ghost use Rattle.marks.specs.Next.{IsNext};

// How many words hold the marks: one, for the meters 0 to 63.
pub const WORDS: usize = 1;

// How many places a word has.
const WORD_BITS: usize = 64;

// How many places the words have.
pub const PLACES: usize = WORDS * WORD_BITS;

// The next marked place at or above `from`, a word at a time: the smallest one, or none exactly if there is none.
pub fn next_marked(words: [u64; WORDS], mut from: usize) -> Option<usize>
    ensures { (result ≡ next_marked words from) × IsNext words from result }
{
    // A `while` and no `for`: from any place of a word it goes on with the first of the next.
    while from < PLACES {
        let word = from / WORD_BITS;
        let rest = words[word] >> (from % WORD_BITS);
        if rest != 0 {
            return Some(from + (u64::trailing_zeros(rest) as usize));
        }
        from = (word + 1) * WORD_BITS;
    }
    None
}

// How many places are marked.
pub fn marked_count(words: [u64; WORDS]) -> u32
    ensures { result ≡ marked_count words }
{
    let mut n = 0;
    for word in &words {
        n += word.count_ones();
    }
    n
}

// The word of the 64 places from `from` on: a mark for each count above 0. From the last place down, so that each turn adds the lowest bit.
fn word_of(counts: [u32; PLACES], from: usize) -> u64
    requires { from + word_bits ≤ word_bits * word_count }
    ensures { result ≡ word_of (take word_bits (drop from (map (ltb 0) counts))) }
{
    let mut word = 0;
    for i in (0..WORD_BITS).rev() {
        word = 2 * word + u64::from(0 < counts[from + i]);
    }
    word
}

// A mark for each count above 0.
pub fn marks_of(counts: [u32; PLACES]) -> [u64; WORDS]
    ensures { result ≡ words_of word_count (map (ltb 0) counts) }
{
    let mut words = [0u64; WORDS];
    for i in 0..WORDS {
        words[i] = word_of(counts, i * WORD_BITS);
    }
    words
}
