ghost use Rattle.std.specs.Prelude.{◌≡◌, ◌<◌, length, position, IfSome};
ghost use Rattle.tree_checker.specs.LineRoom.{HasLineRoom};
ghost use Rattle.tree_checker.specs.LineEnd.{ends_line};

use bound_tree::{LineHead, line_head};
use std::alloc::Global;
use tqd_base::Memory;
use tqd_base::limits::LINE_MAX;

/// The line of a text that is not ended yet. Of a line that is too long for a tree it keeps that alone.
#[derive(Debug, Drop)]
pub(crate) struct LineBuffer {
    bytes: Vec<u8>,
    is_long: bool,
    pub ghost room: { HasLineRoom bytes },
}

/// Where the first line of a text ends, if it does: the place of its line feed.
pub fn line_end(text: &[u8]) -> Option<usize>
    ensures value { result ≡ position ends_line text.now }
    ensures within { IfSome result (λ at. at < length text.now) }
{
    text.iter().position(|byte| *byte == b'\n')
}

impl LineBuffer {
    ghost use Rattle.std.specs.Prelude.{◌++◌, [], true, None, Some, IfOk};
    ghost use Rattle.tqd_base.specs.World.{Bytes};
    ghost use Rattle.bound_tree.specs.LineHead.{head_of};
    ghost use Rattle.tree_checker.specs.Buffer.{Keeps};

    /// Room for a line; nothing else here takes memory.
    pub fn start(alloc: Global) -> Result<LineBuffer, Memory>
        ensures { IfOk result (λ buffer. Keeps buffer []) }
    {
        let bytes = Vec::with_capacity(alloc, LINE_MAX)?;
        Ok(LineBuffer {
            bytes,
            is_long: false,
        })
    }

    /// Begins the next line.
    pub fn clear(&mut self)
        ensures { Keeps self.new [] }
    {
        self.bytes.clear();
        self.is_long = false;
    }

    /// Adds a piece of the line.
    pub fn add(&mut self, piece: &[u8])
        ensures { (line : Bytes) → Keeps self.old line → Keeps self.new (line ++ piece.now) }
    {
        if LINE_MAX - self.bytes.len() < piece.len() {
            self.is_long = true;
        }
        if !self.is_long {
            // The room was reserved, so this does not fail.
            let _added = self.bytes.extend_from_slice(piece);
        }
    }

    /// What the line says, but for its prices.
    pub fn head(&self) -> Option<LineHead>
        ensures long { self.now.is_long ≡ true → result ≡ None }
        ensures kept { IfSome result (λ head. head_of self.now.bytes.items ≡ Some head) }
        ensures value { (line : Bytes) → Keeps self.now line → result ≡ head_of line }
    {
        if self.is_long {
            None
        } else {
            line_head(&self.bytes)
        }
    }

    /// The bytes of the line, where it is not too long.
    pub fn bytes(&self) -> &[u8]
        ensures { result.now ≡ self.now.bytes.items }
    {
        &self.bytes
    }
}
