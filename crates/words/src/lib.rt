// Strings as byte slices: how far two agree, whether one begins the other, how far they overlap.
#![tactic(auto)]

ghost use Rattle.std.specs.Prelude.{◌≡◌};
ghost use Rattle.words.specs.Words as W;

// How many letters the longest common prefix of `a` and `b` has.
pub fn common(a: &[u8], b: &[u8]) -> usize
    ensures { result ≡ W.common a.now b.now }
{
    let shorter = a.len().min(b.len());
    for n in 0..shorter {
        if a[n] != b[n] {
            return n;
        }
    }
    shorter
}

// How many letters of a prefix are compared first, and at once: most strings that are none differ there.
const FIRST_LETTERS: usize = 4;

// Whether `a` is a prefix of `b`.
#[inline(always)]
fn begins(a: &[u8], b: &[u8]) -> bool
    ensures { result ≡ W.begins a.now b.now }
{
    if FIRST_LETTERS <= a.len() && !b.starts_with(&a[..FIRST_LETTERS]) {
        return false;
    }
    b.starts_with(a)
}

// The length of the longest suffix of `a` that is a prefix of `b`: suffixes are tried from the longest on.
pub fn overlap(a: &[u8], b: &[u8]) -> usize
    ensures { result ≡ W.overlap a.now b.now }
{
    for i in 0..a.len() {
        let n = a.len() - i;
        // Most suffixes that are no prefix differ from it in their last letter.
        if n <= b.len() && b[n - 1] == a[a.len() - 1] && begins(&a[i..], b) {
            return n;
        }
    }
    0
}
