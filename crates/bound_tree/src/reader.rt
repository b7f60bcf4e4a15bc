ghost use Rattle.std.specs.Prelude.{◌≡◌, IfOk};
ghost use Rattle.bound_tree.specs.ReadLine.{read_line};
ghost use Rattle.bound_tree.specs.LineHead.{head_of, prices_of, IsRowOf};

use crate::fields::{Fields, cut_at};
use crate::line::{LineHead, SignedList, TreeLine};
use crate::read_line::line_head;
use std::alloc::Global;
use std::marker::Model;
use tqd_base::Memory;

/// The next line of a text.
#[derive(Debug, Drop)]
pub enum LineGot {
    Line(TreeLine),
    /// A whole line that is no line of a tree.
    Bad,
    /// Bytes are left, and no line feed among them.
    Cut,
    /// No bytes are left.
    End,
}

/// Reads a text line by line.
#[derive(Debug, Drop)]
pub struct TreeReader<'a> {
    left: &'a [u8],
}

impl<'a> Model for TreeReader<'a> {
    ghost use Rattle.tqd_base.specs.World.{Bytes};

    ghost Value = { Bytes };

    ghost view = { λ r. r.left.now };
}

impl<'a> TreeReader<'a> {
    ghost use Rattle.bound_tree.specs.Reader.{ReadsNext};

    /// A reader that has all of the bytes left.
    pub fn over(bytes: &'a [u8]) -> TreeReader<'a>
        ensures { result ≡ bytes.now }
    {
        TreeReader { left: bytes }
    }

    /// Reads the next line and leaves the bytes after its line feed. Where there is no whole line, or memory is
    /// wanting, the bytes left stay.
    pub fn next_line(&mut self, alloc: Global) -> Result<LineGot, Memory>
        ensures { ReadsNext self.old self.new result }
    {
        let (line, left) = cut_at(self.left, b'\n');
        let Some(left) = left else {
            return Ok(if line.is_empty() {
                LineGot::End
            } else {
                LineGot::Cut
            });
        };
        let got = match tree_line(alloc, line)? {
            Some(line) => LineGot::Line(line),
            None => LineGot::Bad,
        };
        self.left = left;
        Ok(got)
    }
}

// What a line says.
fn tree_line(alloc: Global, line: &[u8]) -> Result<Option<TreeLine>, Memory>
    ensures { IfOk result (λ read. read ≡ read_line line.now) }
{
    let Some(head) = line_head(line) else {
        return Ok(None);
    };
    Ok(Some(match head {
        LineHead::Header => TreeLine::Header,
        LineHead::Header2 => TreeLine::Header2,
        LineHead::NoPlan => TreeLine::NoPlan,
        LineHead::Plan { cost, count } => TreeLine::Plan { cost, count },
        LineHead::Buy {
            supplier,
            good,
            units,
        } => TreeLine::Buy {
            supplier,
            good,
            units,
        },
        LineHead::Split { supplier, at } => TreeLine::Split { supplier, at },
        LineHead::Row { slot, count } => TreeLine::Row {
            slot,
            prices: row_prices(alloc, line, count)?,
        },
        LineHead::Bound { count } => TreeLine::Bound(row_prices(alloc, line, count)?),
        LineHead::Empty { count } => TreeLine::Empty(row_prices(alloc, line, count)?),
        LineHead::Winners => TreeLine::Winners,
    }))
}

// The prices of a row.
fn row_prices(alloc: Global, line: &[u8], count: u64) -> Result<SignedList, Memory>
    requires { IsRowOf count (head_of line.now) }
    ensures { IfOk result (λ prices. prices ≡ prices_of line.now) }
{
    let mut fields = Fields::of_prices(line);
    let mut numbers = Vec::new(alloc);
    for _place in 0..count {
        numbers.push(fields.next_price())?;
    }
    Ok(SignedList { numbers })
}
