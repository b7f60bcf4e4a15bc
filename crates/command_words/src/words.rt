//! The command that the words of a command line are.
ghost use Rattle.std.specs.Prelude.{◌≡◌, map, string_bytes};
ghost use Rattle.std.specs.Option.{option_map};
ghost use Rattle.command_words.specs.Words.{asked, asked_by, command_of, compared, files_named, files_of, workers_of};

use crate::form::{Verb, split_option, verb_of};
use crate::word::{file, number};

/// The names of the files that state a job. None stands for `-`: there is no such file.
#[derive(Clone, Copy, PartialEq, Eq)]
pub struct JobFiles<'a> {
    pub orders: &'a str,
    pub bill: Option<&'a str>,
    pub offers: &'a str,
    pub terms: Option<&'a str>,
}

/// What a form asks for, with what its words say.
#[derive(Clone, Copy, PartialEq, Eq)]
pub enum Command<'a> {
    /// A least purchase, with the file that the tree goes to, if any, and by 1 to 64 workers.
    Solve {
        files: JobFiles<'a>,
        tree: Option<&'a str>,
        workers: u64,
    },
    /// Whether the file of a tree certifies an answer to the job.
    Check {
        files: JobFiles<'a>,
        tree: &'a str,
    },
    /// The needs of the goods of orders and a bill.
    Needs {
        orders: &'a str,
        bill: Option<&'a str>,
    },
    /// A made job, solved: its seed of 0 to `SEED_MAX`, its 1 to 1,000 goods and its 1 to 64 suppliers.
    Make {
        seed: u64,
        goods: u64,
        suppliers: u64,
    },
    /// A least purchase, sought from the file of an old tree, with the file that the tree goes to, if any. Both may be
    /// the same file.
    Requote {
        files: JobFiles<'a>,
        old: &'a str,
        tree: Option<&'a str>,
    },
    /// The least cost for each of 1 to 16 files of terms, by 1 to 64 workers. `files` has no terms; each word of `terms` is
    /// the name of a file or `-`.
    Scenarios {
        files: JobFiles<'a>,
        terms: &'a [String],
        workers: u64,
    },
    /// The least cost for each greatest number of winners, by 1 to 64 workers.
    Winners {
        files: JobFiles<'a>,
        workers: u64,
    },
    /// The least cut of a supplier's prices that lowers the least cost.
    BreakEven {
        files: JobFiles<'a>,
        supplier: &'a str,
    },
}

// N of `--workers N`, or one.
#[tactic(auto, unfolding(crate::specs::Words::workers_of))]
fn workers(option: &[String]) -> u64
    ensures { result ≡ workers_of (map string_bytes option.now) }
{
    match option {
        [_, workers] => number(workers),
        _ => 1,
    }
}

// ORDERS BILL OFFERS TERMS
fn job_files<'a>(orders: &'a str, bill: &'a str, offers: &'a str, terms: &'a str) -> JobFiles<'a>
    ensures { files_named result ≡ files_of orders.now bill.now offers.now terms.now }
{
    JobFiles {
        orders,
        bill: file(bill),
        offers,
        terms: file(terms),
    }
}

// `scenarios ORDERS BILL OFFERS` with these words behind it.
#[tactic(auto, unfolding(crate::specs::Words::compared))]
fn compared<'a>(orders: &'a str, bill: &'a str, offers: &'a str, words: &'a [String]) -> Command<'a>
    ensures { asked result ≡ compared orders.now bill.now offers.now (map string_bytes words.now) }
{
    let (terms, option) = split_option(words);
    Command::Scenarios {
        files: job_files(orders, bill, offers, "-"),
        terms,
        workers: workers(option),
    }
}

// What words that are of a form ask for.
#[tactic(auto, unfolding(crate::specs::Words::asked_by))]
fn command_by(verb: Verb, words: &[String]) -> Option<Command<'_>>
    ensures { option_map asked result ≡ asked_by verb (map string_bytes words.now) }
{
    match (verb, words) {
        (Verb::Solve, [_, orders, bill, offers, terms, tree, option @ ..]) => {
            Some(Command::Solve {
                files: job_files(orders, bill, offers, terms),
                tree: file(tree),
                workers: workers(option),
            })
        }
        (Verb::Check, [_, orders, bill, offers, terms, tree]) => Some(Command::Check {
            files: job_files(orders, bill, offers, terms),
            tree,
        }),
        (Verb::Needs, [_, orders, bill]) => Some(Command::Needs {
            orders,
            bill: file(bill),
        }),
        (Verb::Make, [_, seed, goods, suppliers]) => Some(Command::Make {
            seed: number(seed),
            goods: number(goods),
            suppliers: number(suppliers),
        }),
        (Verb::Requote, [_, orders, bill, offers, terms, old, tree]) => Some(Command::Requote {
            files: job_files(orders, bill, offers, terms),
            old,
            tree: file(tree),
        }),
        (Verb::Scenarios, [_, orders, bill, offers, words @ ..]) => {
            Some(compared(orders, bill, offers, words))
        }
        (Verb::Winners, [_, orders, bill, offers, terms, option @ ..]) => Some(Command::Winners {
            files: job_files(orders, bill, offers, terms),
            workers: workers(option),
        }),
        (Verb::BreakEven, [_, orders, bill, offers, terms, supplier]) => Some(Command::BreakEven {
            files: job_files(orders, bill, offers, terms),
            supplier,
        }),
        _ => None,
    }
}

/// The command that the words are, or None where they are of none of the forms.
///
/// Words are read by position: `solve ORDERS BILL OFFERS TERMS TREE`, with one worker or with `--workers N` behind it;
/// `check ORDERS BILL OFFERS TERMS TREE`; `needs ORDERS BILL`; `make SEED GOODS SUPPLIERS`; `requote ORDERS BILL OFFERS
/// TERMS OLD TREE`; `scenarios ORDERS BILL OFFERS` with 1 to 16 TERMS behind it, and `winners ORDERS BILL OFFERS
/// TERMS`, both with workers as `solve`; `break-even ORDERS BILL OFFERS TERMS SUPPLIER`. A file is any word but the
/// empty one, and `-` stands for no file, where there may be none: as BILL, as TERMS, and as the TREE of `solve` and
/// `requote`. A supplier is any word but the empty one.
#[tactic(auto, unfolding(crate::specs::Words::command_of))]
pub fn read_words(words: &[String]) -> Option<Command<'_>>
    ensures { option_map asked result ≡ command_of (map string_bytes words.now) }
{
    let verb = verb_of(words)?;
    command_by(verb, words)
}
