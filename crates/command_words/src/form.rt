//! The forms of the words of a command line.
ghost use Rattle.std.specs.Prelude.{◌≡◌, map, string_bytes};
ghost use Rattle.std.specs.Option.{option_copied};
ghost use Rattle.std.specs.List.{find, list_all};
ghost use Rattle.command_words.specs.declared.form.Field.TheVariants.{FileOrNone};
ghost use Rattle.command_words.specs.Forms.{are_files, before_option, files_in, form_of, is_behind, is_called, is_of, is_option, option_in, stand_for, stands_for, verb_in, verb_of};

use crate::word::{SCENARIOS_MAX, SEED_MAX, file, is_word};
use money::read_qty;
use tqd_base::limits::{GOODS_MAX, SUPPLIERS_MAX, WORKERS_MAX};

/// What stands in one place of a form.
#[derive(Clone, Copy)]
pub enum Field {
    /// A file: any word but the empty one and `-`.
    File,
    /// A file, or `-` where there is none.
    FileOrNone,
    /// A name of a supplier: any word but the empty one.
    Name,
    /// A number from the first to the second, of 1 to 18 digits.
    Number(u64, u64),
}

/// What may stand behind the fields of a form.
#[derive(Clone, Copy)]
pub enum Behind {
    /// Nothing.
    Nothing,
    /// `--workers N`, with N from 1 to 64, or nothing.
    Workers,
    /// From one to so many files, each of which may be `-`, and behind them `--workers N` or nothing. Where the word before
    /// the last is `--workers`, the last two words are the option.
    Files(u64),
}

/// What a form asks for, without its words.
#[derive(Clone, Copy)]
pub enum Verb {
    Solve,
    Check,
    Needs,
    Make,
    Requote,
    Scenarios,
    Winners,
    BreakEven,
}

/// A form of words: what it asks for; its first word; the fields behind it; what may stand behind them; and how the usage
/// shows what stands behind the first word.
pub type Form = (Verb, &'static str, &'static [Field], Behind, &'static str);

/// Every form of words.
pub const FORMS: [Form; 8] = [
    (
        Verb::Solve,
        "solve",
        &[
            Field::File,
            Field::FileOrNone,
            Field::File,
            Field::FileOrNone,
            Field::FileOrNone,
        ],
        Behind::Workers,
        "ORDERS BILL OFFERS TERMS TREE [--workers N]",
    ),
    (
        Verb::Check,
        "check",
        &[
            Field::File,
            Field::FileOrNone,
            Field::File,
            Field::FileOrNone,
            Field::File,
        ],
        Behind::Nothing,
        "ORDERS BILL OFFERS TERMS TREE",
    ),
    (
        Verb::Needs,
        "needs",
        &[Field::File, Field::FileOrNone],
        Behind::Nothing,
        "ORDERS BILL",
    ),
    (
        Verb::Make,
        "make",
        &[
            Field::Number(0, SEED_MAX),
            Field::Number(1, GOODS_MAX as u64),
            Field::Number(1, SUPPLIERS_MAX as u64),
        ],
        Behind::Nothing,
        "SEED GOODS SUPPLIERS",
    ),
    (
        Verb::Requote,
        "requote",
        &[
            Field::File,
            Field::FileOrNone,
            Field::File,
            Field::FileOrNone,
            Field::File,
            Field::FileOrNone,
        ],
        Behind::Nothing,
        "ORDERS BILL OFFERS TERMS OLD TREE",
    ),
    (
        Verb::Scenarios,
        "scenarios",
        &[Field::File, Field::FileOrNone, Field::File],
        Behind::Files(SCENARIOS_MAX),
        "ORDERS BILL OFFERS TERMS.. [--workers N]",
    ),
    (
        Verb::Winners,
        "winners",
        &[
            Field::File,
            Field::FileOrNone,
            Field::File,
            Field::FileOrNone,
        ],
        Behind::Workers,
        "ORDERS BILL OFFERS TERMS [--workers N]",
    ),
    (
        Verb::BreakEven,
        "break-even",
        &[
            Field::File,
            Field::FileOrNone,
            Field::File,
            Field::FileOrNone,
            Field::Name,
        ],
        Behind::Nothing,
        "ORDERS BILL OFFERS TERMS SUPPLIER",
    ),
];

impl Field {
    // Whether a word may stand for the field.
    #[tactic(auto, unfolding(crate::specs::Forms::stands_for))]
    fn stands_for(self, word: &str) -> bool
        ensures { result ≡ stands_for self word.now }
    {
        match self {
            Field::File => file(word).is_some(),
            Field::FileOrNone | Field::Name => !is_word(word, ""),
            Field::Number(least, greatest) => {
                read_qty(word.as_bytes(), least, greatest).is_some()
            }
        }
    }
}

// Whether words are none, or the option of workers.
#[tactic(auto, unfolding(crate::specs::Forms::is_option))]
fn is_option(words: &[String]) -> bool
    ensures { result ≡ is_option (map string_bytes words.now) }
{
    match words {
        [] => true,
        [option, number] => {
            is_word(option, "--workers") && Field::Number(1, WORKERS_MAX).stands_for(number)
        }
        _ => false,
    }
}

// Whether words are two that call for the option.
#[tactic(auto, unfolding(crate::specs::Forms::is_called))]
fn is_called(words: &[String]) -> bool
    ensures { result ≡ is_called (map string_bytes words.now) }
{
    match words {
        [option, _] => is_word(option, "--workers"),
        _ => false,
    }
}

// How many of some words stand before the option.
#[tactic(auto, unfolding(crate::specs::Forms::before_option))]
fn before_option(words: &[String]) -> usize
    ensures { result ≡ before_option (map string_bytes words.now) }
{
    let before = words.len().saturating_sub(2);
    let (_, last) = words.split_at(before);
    if is_called(last) { before } else { words.len() }
}

/// Some words before the option, and the option or nothing.
pub(crate) fn split_option(words: &[String]) -> (&[String], &[String])
    ensures files { map string_bytes result.0.now ≡ files_in (map string_bytes words.now) }
    ensures option { map string_bytes result.1.now ≡ option_in (map string_bytes words.now) }
{
    words.split_at(before_option(words))
}

// Whether each of some words may stand for a file or for none.
fn are_all_files(words: &[String]) -> bool
    ensures { result ≡ list_all (λ word. stands_for FileOrNone word) (map string_bytes words.now) }
{
    match words {
        [] => true,
        [word, words @ ..] => Field::FileOrNone.stands_for(word) && are_all_files(words),
    }
}

// Whether words are files, from one to so many, each of which may be `-`.
#[tactic(auto, unfolding(crate::specs::Forms::are_files))]
fn are_files(most: u64, words: &[String]) -> bool
    ensures { result ≡ are_files most (map string_bytes words.now) }
{
    1 <= words.len() && words.len() as u64 <= most && are_all_files(words)
}

// Whether words may stand behind the fields of a form.
#[tactic(auto, unfolding(crate::specs::Forms::is_behind))]
fn is_behind(behind: Behind, words: &[String]) -> bool
    ensures { result ≡ is_behind behind (map string_bytes words.now) }
{
    match behind {
        Behind::Nothing => words.is_empty(),
        Behind::Workers => is_option(words),
        Behind::Files(most) => {
            let (files, option) = split_option(words);
            are_files(most, files) && is_option(option)
        }
    }
}

// Whether words stand for fields, one for each, with what may stand behind them.
#[tactic(auto, unfolding(crate::specs::Forms::stand_for))]
fn stand_for(behind: Behind, fields: &[Field], words: &[String]) -> bool
    ensures { result ≡ stand_for behind fields.now (map string_bytes words.now) }
{
    match fields {
        [] => is_behind(behind, words),
        [field, fields @ ..] => match words {
            [] => false,
            [word, words @ ..] => field.stands_for(word) && stand_for(behind, fields, words),
        },
    }
}

// Whether words are of a form.
#[tactic(auto, unfolding(crate::specs::Forms::is_of))]
fn is_of(form: &Form, words: &[String]) -> bool
    ensures { result ≡ is_of (form_of form.now) (map string_bytes words.now) }
{
    let (_, word, fields, behind, _) = form;
    match words {
        [first, words @ ..] => is_word(first, word) && stand_for(*behind, fields, words),
        [] => false,
    }
}

// The first of some forms that words are of.
fn find_form<'a>(forms: &'a [Form], words: &[String]) -> Option<&'a Form>
    ensures { option_copied result ≡ find (λ form. is_of (form_of form) (map string_bytes words.now)) forms.now }
{
    forms.iter().find(|form| is_of(form, words))
}

// What it asks for.
fn verb_in(forms: &[Form], words: &[String]) -> Option<Verb>
    ensures { result ≡ verb_in (map form_of forms.now) (map string_bytes words.now) }
{
    match find_form(forms, words) {
        Some(form) => Some(form.0),
        None => None,
    }
}

/// What the form that words are of asks for, or None where they are of no form.
#[tactic(auto, unfolding(crate::specs::Forms::verb_of))]
pub(crate) fn verb_of(words: &[String]) -> Option<Verb>
    ensures { result ≡ verb_of (map string_bytes words.now) }
{
    verb_in(&FORMS, words)
}
