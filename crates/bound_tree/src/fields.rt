ghost use Rattle.std.specs.Prelude.{◌≡◌, ◌==◌, ◌<◌, position, length, IfSome};
ghost use Rattle.bound_tree.specs.Fields.{CutsAt};

use crate::word::Word;
use money::{read_count, read_signed};
use std::marker::Model;

/// Where the first byte of this kind stands in a text, if there is one.
fn place_of(text: &[u8], byte: u8) -> Option<usize>
    ensures value { result ≡ position (λ b. b == byte) text.now }
    ensures bound { IfSome result (λ at. at < length text.now) }
{
    text.iter().position(|b| *b == byte)
}

/// What stands in a text before the first byte of this kind, and what stands after it, where there is one.
pub(crate) fn cut_at(text: &[u8], byte: u8) -> (&[u8], Option<&[u8]>)
    ensures { CutsAt byte text.now result.0.now result.1 }
{
    match place_of(text, byte) {
        None => (text, None),
        Some(at) => (&text[..at], Some(&text[at + 1..])),
    }
}

/// The fields of a line that are still to be read.
#[derive(Drop)]
pub(crate) struct Fields<'a> {
    left: Option<&'a [u8]>,
}

impl<'a> Model for Fields<'a> {
    ghost use Rattle.std.specs.Prelude.{List};
    ghost use Rattle.tqd_base.specs.World.{Bytes};
    ghost use Rattle.bound_tree.specs.Fields.{fields_in};

    ghost Value = { List Bytes };

    ghost view = { λ f. fields_in f.left };
}

impl<'a> Fields<'a> {
    ghost use Rattle.std.specs.Prelude.{◌≡◌, ◌<◌, ◌≤◌, ◌∷◌, length, Option, IsSome};
    ghost use Rattle.std.specs.Option.{option_map, option_and_then};
    ghost use Rattle.money.specs.Number.{count_of, signed_of};
    ghost use Rattle.bound_tree.specs.Words.{words, numbers_of};
    ghost use Rattle.bound_tree.specs.Fields.{TakesField, exactly, after_slot, price_fields, price_words};

    /// The first word of a line, and the fields after it.
    pub(crate) fn of(line: &'a [u8]) -> (&'a [u8], Fields<'a>)
        ensures { words line.now ≡ result.0.now ∷ result.1 }
    {
        let (word, left) = cut_at(line, b' ');
        (word, Fields { left })
    }

    /// The fields that write the prices of a row: those after the word, and in a `row` line after the slot.
    #[tactic(auto, unfolding(crate::specs::Fields::price_words))]
    pub(crate) fn of_prices(line: &'a [u8]) -> Fields<'a>
        ensures { result ≡ price_words (words line.now) }
    {
        let (word, fields) = Fields::of(line);
        match Word::of(word) {
            Some(word) => fields.of_word(word),
            None => fields,
        }
    }

    // Of the fields after a word, those that write prices.
    fn of_word(self, word: Word) -> Fields<'a>
        ensures { result ≡ price_fields word self.entry }
    {
        match word {
            Word::Row => self.after_slot(),
            _ => self,
        }
    }

    // The fields after the first one.
    fn after_slot(self) -> Fields<'a>
        ensures { result ≡ after_slot self.entry }
    {
        let mut fields = self;
        let _slot = fields.next();
        fields
    }

    /// The next field, if there is one.
    pub(crate) fn next(&mut self) -> Option<&'a [u8]>
        ensures { TakesField self.old self.new result }
    {
        let (field, left) = cut_at(self.left?, b' ');
        self.left = left;
        Some(field)
    }

    /// The counts that the fields write, where there are N of them.
    pub(crate) fn counts<const N: usize>(self) -> Option<[u128; N]>
        ensures { result ≡ option_and_then (exactly N) (numbers_of count_of self.entry) }
    {
        let mut fields = self;
        let mut counts = [0; N];
        for place in &mut counts {
            *place = read_count(fields.next()?)?;
        }
        match fields.next() {
            None => Some(counts),
            Some(_) => None,
        }
    }

    /// How many prices the fields write, where they are prices.
    pub(crate) fn price_count(self) -> Option<u64>
        requires { length self ≤ 65537 }
        ensures { result ≡ option_map length (numbers_of signed_of self.entry) }
    {
        let mut fields = self;
        let mut count = 0;
        while let Some(field) = fields.next() {
            read_signed(field)?;
            count += 1;
        }
        Some(count)
    }

    /// The next price, where the fields that are left write prices.
    pub(crate) fn next_price(&mut self) -> i128
        requires some { 0 < length self.old }
        requires prices { IsSome (numbers_of signed_of self.old) }
        ensures { numbers_of signed_of self.old
            ≡ option_map (λ prices. result ∷ prices) (numbers_of signed_of self.new) }
    {
        let field = self.next().unwrap();
        read_signed(field).unwrap()
    }
}
