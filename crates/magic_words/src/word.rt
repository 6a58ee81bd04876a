//! Words of 8 bytes: a taint byte, a kind byte and the prefix of six bytes.

ghost use Rattle.std.specs.Prelude.{◌≡◌, ◌<◌, ◌∷◌, List, ℕ, take, drop, IfSome, IfNone};
ghost use Rattle.magic_words.specs.MagicWords.{BeginsWord, call_word, return_word};
ghost use Rattle.magic_words.specs.declared.word.Word.{Word};

/// The kind byte of a call word.
const CALL: u8 = 0x11;

/// The kind byte of a return word.
const RETURN: u8 = 0x22;

/// A word, by its kind.
#[derive(Clone, Copy, Debug, PartialEq, Eq)]
pub enum Word {
    /// A call word, with its bits from 0 to 31.
    Call(u8),
    /// A return word, with its bit.
    Ret(u8),
}

/// The bytes of the call word with these bits, which are below 32.
pub fn call_word(bits: u8, prefix: [u8; 6]) -> [u8; 8]
    requires { bits < 32 }
    ensures { result ≡ call_word bits prefix }
{
    let [a, b, c, d, e, f] = prefix;
    [bits, CALL, a, b, c, d, e, f]
}

/// The bytes of the return word with this bit, which is below 2.
pub fn return_word(bit: u8, prefix: [u8; 6]) -> [u8; 8]
    requires { bit < 2 }
    ensures { result ≡ return_word bit prefix }
{
    let [a, b, c, d, e, f] = prefix;
    [bit, RETURN, a, b, c, d, e, f]
}

/// The word that begins at a place. None exactly where none does; any place is fine.
pub fn read_word(b: &[u8], at: usize, prefix: [u8; 6]) -> Option<Word>
    ensures found { IfSome result (λ word. BeginsWord (drop at b.now) prefix word) }
    ensures none { IfNone result ((word : Word) → BeginsWord (drop at b.now) prefix word → ⊥) }
{
    if at >= b.len() {
        return None;
    }
    word_of(&b[at..], &prefix)
}

/// The word that the bytes begin with.
fn word_of(bytes: &[u8], prefix: &[u8; 6]) -> Option<Word>
    ensures found { IfSome result (λ word. BeginsWord bytes.now prefix.now word) }
    ensures none { IfNone result ((word : Word) → BeginsWord bytes.now prefix.now word → ⊥) }
{
    let [taint, kind, a, b, c, d, e, f, ..] = bytes else {
        return None;
    };
    let [p, q, r, s, t, u] = prefix;
    if a != p || b != q || c != r || d != s || e != t || f != u {
        return None;
    }
    match *kind {
        CALL if *taint < 32 => Some(Word::Call(*taint)),
        RETURN if *taint < 2 => Some(Word::Ret(*taint)),
        _ => None,
    }
}
