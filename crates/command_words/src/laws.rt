//! Laws of the forms of words.
ghost use Rattle.std.specs.Prelude.{◌≡◌, ◌≤◌, List, is_some};
ghost use Rattle.std.specs.List.{count_by, list_any};
ghost use Rattle.tqd_base.specs.World.{Name};
ghost use Rattle.command_words.specs.Forms.{forms, is_of};
ghost use Rattle.command_words.specs.Words.{command_of};

/// Words are of one form at most.
pub fn words_are_of_one_form()
    ensures { (words : List Name) → count_by (λ form. is_of form words) forms ≤ 1 }
{}

/// Words are a command exactly where they are of a form.
pub fn words_of_a_form_are_a_command()
    ensures { (words : List Name) → is_some (command_of words) ≡ list_any (λ form. is_of form words) forms }
{}
