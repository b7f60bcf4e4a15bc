use std::marker::Model;
use tree_checker::line_end;

/// The whole lines of a text that are still to be read.
#[derive(Debug, Drop)]
pub(crate) struct Lines<'t> {
    left: &'t [u8],
}

impl<'t> Model for Lines<'t> {
    ghost use Rattle.std.specs.Prelude.{List};
    ghost use Rattle.tqd_base.specs.World.{Bytes};
    ghost use Rattle.requote.specs.Lines.{lines_of};

    ghost Value = { List Bytes };

    ghost view = { λ l. lines_of l.left.now };
}

impl<'t> Lines<'t> {
    ghost use Rattle.std.specs.Prelude.{◌≡◌};
    ghost use Rattle.requote.specs.Lines.{lines_of};
    ghost use Rattle.requote.specs.Reading.{TakesLine};

    /// The lines of a text.
    pub(crate) fn of(text: &'t [u8]) -> Lines<'t>
        ensures { result ≡ lines_of text.now }
    {
        Lines { left: text }
    }

    /// The next line without its line feed, if there is a whole one.
    pub(crate) fn next(&mut self) -> Option<&'t [u8]>
        ensures { TakesLine self.old self.new result }
    {
        let at = line_end(self.left)?;
        let line = &self.left[..at];
        self.left = &self.left[at + 1..];
        Some(line)
    }
}
