//! The words that ask for generated files.
ghost use Rattle.std.specs.Prelude.{◌≡◌, ℕ, IfSome, None, bytes_eq, map, string_bytes};
ghost use Rattle.std.specs.Fmt.{decimal};
ghost use Rattle.scan_spelling.specs.declared.spelling.Spelling.{Spelling};
ghost use Rattle.scan_run.specs.Words.{IsRows, spelling_word, IsAsking, IsGenerate};

use itoa::Buffer;
use scan_layout::Spelling;

/// The most rows of a generated file.
const MOST_ROWS: u32 = 100_000;

// Whether a word is a number in decimal digits, without a sign or a leading zero.
fn is_decimal(word: &str, n: u32) -> bool
    ensures { result ≡ bytes_eq word.now (decimal n) }
{
    let mut buffer = Buffer::new();
    word == buffer.format(n)
}

// The number of rows that a word gives.
fn rows_in(word: &str) -> Option<u32>
    ensures some { IfSome result (λ n. IsRows word.now n) }
    ensures none { result ≡ None → (n : ℕ) → IsRows word.now n → ⊥ }
{
    let Ok(rows) = word.parse::<u32>() else {
        return None;
    };
    if rows < 1 {
        return None;
    }
    if rows > MOST_ROWS {
        return None;
    }
    if is_decimal(word, rows) {
        Some(rows)
    } else {
        None
    }
}

// The spelling that a word gives.
fn spelling_in(word: &str) -> Option<Spelling>
    ensures some { IfSome result (λ s. word.now ≡ spelling_word s) }
    ensures none { result ≡ None → (s : Spelling) → word.now ≡ spelling_word s → ⊥ }
{
    if word == "1" {
        return Some(Spelling::One);
    }
    if word == "2" {
        return Some(Spelling::Two);
    }
    None
}

// What these three words ask for.
fn asked_by(name: &str, rows: &str, spelling: &str) -> Option<(u32, Spelling)>
    ensures some { IfSome result (λ p. IsAsking name.now rows.now spelling.now p.0 p.1) }
    ensures none { result ≡ None → (n : ℕ) (s : Spelling) → IsAsking name.now rows.now spelling.now n s → ⊥ }
{
    if name != "generate" {
        return None;
    }
    let Some(rows) = rows_in(rows) else {
        return None;
    };
    let Some(spelling) = spelling_in(spelling) else {
        return None;
    };
    Some((rows, spelling))
}

/// The rows of each file and the spelling, where the words are `generate` with a number of rows and maybe a spelling.
pub(crate) fn generated_of(words: &[String]) -> Option<(u32, Spelling)>
    ensures some { IfSome result (λ p. IsGenerate (map string_bytes words.now) p.0 p.1) }
    ensures none { result ≡ None → (n : ℕ) (s : Spelling) → IsGenerate (map string_bytes words.now) n s → ⊥ }
{
    match words {
        [name, rows] => asked_by(name.as_str(), rows.as_str(), "1"),
        [name, rows, spelling] => asked_by(name.as_str(), rows.as_str(), spelling.as_str()),
        _ => None,
    }
}
