//! The lines of a tree as texts.
ghost use Rattle.std.specs.Prelude.{◌≡◌, ◌+◌, ◌<◌, ◌≤◌, ◌∷◌, ◌++◌, [], map, length, replicate, pos, decimal, IfOk, OnOk};
ghost use Rattle.std.specs.Fmt.{signed_decimal};
ghost use Rattle.tqd_instance.specs.Job.{suppliers};
ghost use Rattle.tqd_base.specs.declared.limits.TheConstants.{SUPPLIERS_MAX};
ghost use Rattle.interval_box.specs.Ranges.{low_of, high_of, IsBoxOf};
ghost use Rattle.bound_tree.specs.declared.line.TreeLine.TheVariants.{Row as SlotRow};
ghost use Rattle.bound_tree.specs.Prices.{count_of, places_to, Fits};
ghost use Rattle.bound_tree.specs.OtherBox.{prices_from, widened, root_places};
ghost use Rattle.bound_tree.specs.OtherPlaces.{price_from_or_zero};
ghost use Rattle.bound_tree.specs.LineText.{counts_text, prices_text, fields_text};
ghost use Rattle.bound_tree.specs.TreeText.{all_prices, node_line, ended};

use crate::leaf::{Leaf, TreeNode};
use crate::places::count_of;
use crate::row::Row;
use crate::word::Word;
use interval_box::IntervalBox;
use money::{write_count, write_signed};
use std::alloc::Global;
use tqd_base::Memory;
use tqd_instance::Job;

// What is added to a text. Where memory is wanting, the text is dropped.

#[tactic(auto, using(crate::proofs::Texts::appends))]
fn add_field(text: &mut Vec<u8>, field: &[u8]) -> Result<(), Memory>
    ensures { OnOk result (text.new.items ≡ text.old.items ++ 32 ∷ field.now) }
{
    text.push(b' ')?;
    text.extend_from_slice(field)?;
    Ok(())
}

#[tactic(auto, using(crate::proofs::Texts::fields))]
fn add_prices(alloc: Global, text: &mut Vec<u8>, prices: &[i64]) -> Result<(), Memory>
    ensures { OnOk result (text.new.items ≡ text.old.items ++ fields_text (map signed_decimal prices.now)) }
{
    for price in prices {
        let field = write_signed(alloc, i128::from(*price))?;
        add_field(text, &field)?;
    }
    Ok(())
}

/// The line of a word and counts.
pub(crate) fn counts_line(alloc: Global, word: Word, counts: &[u128]) -> Result<Vec<u8>, Memory>
    ensures { IfOk result (λ text. text.items ≡ counts_text word counts.now ++ 10 ∷ []) }
{
    let mut text = begin_line(alloc, word, counts)?;
    text.push(b'\n')?;
    Ok(text)
}

// A word and counts, without a line feed.
#[tactic(auto, using(crate::proofs::Texts::fields))]
fn begin_line(alloc: Global, word: Word, counts: &[u128]) -> Result<Vec<u8>, Memory>
    ensures { IfOk result (λ text. text.items ≡ counts_text word counts.now) }
{
    let mut text = Vec::from_slice(alloc, word.text().as_bytes())?;
    for count in counts {
        let field = write_count(alloc, *count)?;
        add_field(&mut text, &field)?;
    }
    Ok(text)
}

#[tactic(auto, using(crate::proofs::Texts::fields))]
fn row_line(alloc: Global, word: Word, row: &Row) -> Result<Vec<u8>, Memory>
    ensures { IfOk result (λ text. text.items ≡ prices_text word (all_prices row.now) ++ 10 ∷ []) }
{
    let mut text = Vec::from_slice(alloc, word.text().as_bytes())?;
    add_prices(alloc, &mut text, row.goods())?;
    add_prices(alloc, &mut text, row.places())?;
    text.push(b'\n')?;
    Ok(text)
}

/// The line of a row of a box that is put into a slot as a row of the root: price 0 stands at all places that the box
/// does not have.
pub(crate) fn slot_line(
    alloc: Global,
    job: &Job,
    slot: usize,
    area: &IntervalBox,
    row: &Row,
) -> Result<Vec<u8>, Memory>
    requires of_job { IsBoxOf job.now area.now }
    requires fits { Fits job.now area.now row.now }
    ensures { IfOk result (λ text. text.items ≡ ended (SlotRow slot (all_prices (widened job.now area.now row.now)))) }
{
    let mut text = begin_line(alloc, Word::Row, &[slot as u128])?;
    add_prices(alloc, &mut text, row.goods())?;
    add_root_places(alloc, &mut text, job, area, row.places())?;
    text.push(b'\n')?;
    Ok(text)
}

// The prices at the places of a box, and 0 at all other places of the root.
fn add_root_places(
    alloc: Global,
    text: &mut Vec<u8>,
    job: &Job,
    area: &IntervalBox,
    places: &[i64],
) -> Result<(), Memory>
    requires of_job { IsBoxOf job.now area.now }
    requires places { length places.now ≡ places_to area.now (suppliers job.now) }
    ensures { OnOk result (text.new.items ≡ text.old.items
        ++ fields_text (map signed_decimal (root_places job.now area.now places.now))) }
{
    let mut at = 0;
    for i in 0..job.suppliers() {
        add_root_range(alloc, text, job.segments(i), area, places, at, i)?;
        at += count_of(area, i);
    }
    Ok(())
}

// The same of a supplier of so many segments, whose places in the box are those from `at` on.
#[tactic(auto, unfolding(crate::specs::Prices::first_of, crate::specs::Prices::count_of))]
fn add_root_range(
    alloc: Global,
    text: &mut Vec<u8>,
    segments: u8,
    area: &IntervalBox,
    places: &[i64],
    at: usize,
    i: usize,
) -> Result<(), Memory>
    requires supplier { i < SUPPLIERS_MAX }
    requires ordered { low_of area.now i ≤ high_of area.now i }
    requires within { high_of area.now i ≤ segments }
    requires few { segments ≤ 16 }
    requires places { at + count_of area.now i ≤ length places.now }
    ensures { OnOk result (text.new.items ≡ text.old.items
        ++ fields_text (map signed_decimal (prices_from 1 segments (price_from_or_zero area.now places.now at i)))) }
{
    add_zeros(text, area.low_of(i).max(1) - 1)?;
    add_prices(alloc, text, &places[at..at + count_of(area, i)])?;
    add_zeros(text, segments - area.high_of(i))?;
    Ok(())
}

// So many prices of 0.
#[tactic(auto, using(crate::proofs::Texts::fields))]
fn add_zeros(text: &mut Vec<u8>, count: u8) -> Result<(), Memory>
    ensures { OnOk result (text.new.items ≡ text.old.items ++ fields_text (map signed_decimal (replicate count (pos 0)))) }
{
    for _place in 0..count {
        add_field(text, b"0")?;
    }
    Ok(())
}

/// The line of a node.
#[tactic(auto, unfolding(crate::specs::LineText::line_text))]
pub(crate) fn node_line(alloc: Global, node: &TreeNode) -> Result<Vec<u8>, Memory>
    ensures { IfOk result (λ text. text.items ≡ ended (node_line node.now)) }
{
    match node {
        TreeNode::Split { supplier, at } => counts_line(
            alloc,
            Word::Split,
            &[u128::from(*supplier), u128::from(*at)],
        ),
        TreeNode::Leaf(Leaf::Bound(row)) => row_line(alloc, Word::Bound, row),
        TreeNode::Leaf(Leaf::Empty(row)) => row_line(alloc, Word::Empty, row),
        TreeNode::Leaf(Leaf::Winners) => counts_line(alloc, Word::Winners, &[]),
    }
}
