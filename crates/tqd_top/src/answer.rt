use plan_report::{FileFault, InputFile};
use tqd_base::Memory;
use tqd_instance::Plan;
use tree_checker::Rejection;

/// Where a command writes: the file of the tree, or the output.
#[derive(Clone, Copy, PartialEq, Eq)]
pub enum Target {
    Tree,
    Out,
}

/// How a command ended.
#[derive(Drop)]
pub enum Answer {
    /// A least purchase, and its cost in millionths of the currency.
    Solved(Plan, u128),
    /// There is no feasible purchase.
    Infeasible,
    /// The tree certifies that a least purchase costs this, in millionths of the currency.
    Accepted(u128),
    /// The tree certifies that there is no feasible purchase.
    AcceptedNone,
    /// The tree certifies nothing, and this is the first cause.
    Rejected(Rejection),
    /// What the command lists was printed: needs, the summary of a made job, a winner table, or the least cut of a
    /// supplier's prices that pays.
    Listed,
    /// The words are of none of the forms.
    Words,
    /// The files have this fault, the first in the order in which they are read.
    BadInput(FileFault),
    /// A file could not be read.
    ReadFault(InputFile),
    /// A file or the output could not be written.
    WriteFault(Target),
    /// Memory was wanting.
    Memory,
}

/// How a command ended, and the status that the program ends with.
#[derive(Drop)]
pub struct Ended {
    pub status: u8,
    pub answer: Answer,
}

/// Why a command has no text to print: the tree could not be written whole, or memory was wanting.
#[derive(Clone, Copy)]
pub(crate) enum NoReply {
    Tree,
    Memory,
}

impl From<Memory> for NoReply {
    ghost use Rattle.std.specs.Prelude.{◌≡◌};
    ghost use Rattle.tqd_top.specs.declared.answer.NoReply.TheVariants.{Memory};

    ghost from_gives = { λ _ e. e ≡ Memory };

    fn from(_error: Memory) -> NoReply {
        NoReply::Memory
    }
}

/// An answer with the text that is to be printed.
#[derive(Drop)]
pub struct Reply {
    pub answer: Answer,
    pub text: Vec<u8>,
}
