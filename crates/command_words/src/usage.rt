//! The text that says which words there are.
ghost use Rattle.std.specs.Prelude.{◌≡◌, ◌++◌, IfOk, OnOk};
ghost use Rattle.std.specs.List.{flat_map};
ghost use Rattle.command_words.specs.Forms.{form_of, usage_line, usage_text};

use crate::form::{FORMS, Form};
use std::alloc::Global;
use tqd_base::Memory;

// Adds the line of a form.
fn add_line(text: &mut Vec<u8>, before: &str, form: &Form) -> Result<(), Memory>
    ensures { OnOk result (text.new.items ≡ text.old.items ++ usage_line before.now (form_of form.now)) }
{
    let (_, word, _, _, usage) = form;
    text.extend_from_slice(before.as_bytes())?;
    text.extend_from_slice(b"tqd ")?;
    text.extend_from_slice(word.as_bytes())?;
    text.extend_from_slice(b" ")?;
    text.extend_from_slice(usage.as_bytes())?;
    text.extend_from_slice(b"\n")?;
    Ok(())
}

// Adds the lines of forms.
fn add_lines(text: &mut Vec<u8>, before: &str, forms: &[Form]) -> Result<(), Memory>
    ensures { OnOk result (text.new.items ≡ text.old.items
        ++ flat_map (λ form. usage_line before.now (form_of form)) forms.now) }
{
    for form in forms {
        add_line(text, before, form)?;
    }
    Ok(())
}

/// The usage, with a line for each form.
#[tactic(auto, unfolding(crate::specs::Forms::usage_text))]
pub fn usage_text(alloc: Global) -> Result<Vec<u8>, Memory>
    ensures { IfOk result (λ text. text.items ≡ usage_text) }
{
    let mut text = Vec::new(alloc);
    add_lines(&mut text, "usage: ", &FORMS[..1])?;
    add_lines(&mut text, "       ", &FORMS[1..])?;
    Ok(text)
}
