//! What a word says by itself.
ghost use Rattle.std.specs.Prelude.{◌≡◌};
ghost use Rattle.std.specs.Option.{option_copied};
ghost use Rattle.command_words.specs.Text.{same};
ghost use Rattle.command_words.specs.Forms.{file_of, number_of};

use money::read_qty;

/// The greatest seed of a made job, which is the greatest number of 18 digits.
pub const SEED_MAX: u64 = 999_999_999_999_999_999;

/// The greatest number of files of terms that `scenarios` compares.
pub const SCENARIOS_MAX: u64 = 16;

// Whether two texts are the same.
#[tactic(auto, unfolding(crate::specs::Text::same))]
fn is_same(a: &[u8], b: &[u8]) -> bool
    ensures { result ≡ same a.now b.now }
{
    a == b
}

// Whether a word is this text.
pub(crate) fn is_word(word: &str, text: &str) -> bool
    ensures { result ≡ same word.now text.now }
{
    is_same(word.as_bytes(), text.as_bytes())
}

/// The file that a word names, if it names one: any word but the empty one and `-`.
#[tactic(auto, unfolding(crate::specs::Forms::file_of))]
pub fn file(word: &str) -> Option<&str>
    ensures { option_copied result ≡ file_of word.now }
{
    if is_word(word, "") || is_word(word, "-") {
        None
    } else {
        Some(word)
    }
}

// The number that a word writes; 0 where it writes none.
#[tactic(auto, unfolding(crate::specs::Forms::number_of))]
pub(crate) fn number(word: &str) -> u64
    ensures { result ≡ number_of word.now }
{
    read_qty(word.as_bytes(), 0, SEED_MAX).unwrap_or(0)
}
