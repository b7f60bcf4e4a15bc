ghost use Rattle.std.specs.Prelude.{◌≡◌, ◌∷◌, ◌++◌, [], map, decimal, OnOk, IfOk};
ghost use Rattle.std.specs.Fmt.{signed_decimal};
ghost use Rattle.plan_report.specs.Lines.{line};

use money::{write_count, write_signed};
use std::alloc::Global;
use tqd_base::Memory;

// What is added to a text. Where memory is wanting, the text is dropped.

pub(crate) fn add(text: &mut Vec<u8>, piece: &[u8]) -> Result<(), Memory>
    ensures { OnOk result (text.new.items ≡ text.old.items ++ piece.now) }
{
    text.extend_from_slice(piece)?;
    Ok(())
}

pub(crate) fn add_word(text: &mut Vec<u8>, word: &str) -> Result<(), Memory>
    ensures { OnOk result (text.new.items ≡ text.old.items ++ word.now) }
{
    add(text, word.as_bytes())
}

pub(crate) fn add_number(alloc: Global, text: &mut Vec<u8>, n: u64) -> Result<(), Memory>
    ensures { OnOk result (text.new.items ≡ text.old.items ++ decimal n) }
{
    let digits = write_count(alloc, u128::from(n))?;
    add(text, &digits)
}

// A number after a word.
#[tactic(auto, using(crate::proofs::Texts::appends))]
pub(crate) fn add_counted(
    alloc: Global,
    text: &mut Vec<u8>,
    word: &str,
    n: u128,
) -> Result<(), Memory>
    ensures { OnOk result (text.new.items ≡ text.old.items ++ (word.now ++ decimal n)) }
{
    add_word(text, word)?;
    let digits = write_count(alloc, n)?;
    add(text, &digits)
}

// A number with its sign after a word.
#[tactic(auto, using(crate::proofs::Texts::appends))]
pub(crate) fn add_signed(
    alloc: Global,
    text: &mut Vec<u8>,
    word: &str,
    n: i128,
) -> Result<(), Memory>
    ensures { OnOk result (text.new.items ≡ text.old.items ++ (word.now ++ signed_decimal n)) }
{
    add_word(text, word)?;
    let digits = write_signed(alloc, n)?;
    add(text, &digits)
}

// A line of a table.
#[tactic(auto, using(crate::proofs::Texts::appends))]
pub(crate) fn add_line(text: &mut Vec<u8>, word: &str, fields: &[&[u8]]) -> Result<(), Memory>
    ensures { OnOk result (text.new.items ≡ text.old.items ++ line word.now (map (λ field. field.now) fields.now)) }
{
    add_word(text, word)?;
    for field in fields {
        text.push(b'\t')?;
        add(text, field)?;
    }
    text.push(b'\n')?;
    Ok(())
}
