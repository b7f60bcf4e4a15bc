ghost use Rattle.std.specs.Prelude.{◌≡◌, ◌≢◌, ◌<◌, ◌^◌, [], Some, None, length, slice_index_or, IfOk, OnOk, OnErr};
ghost use Rattle.std.specs.List.{AllPairs};
ghost use Rattle.bom_reader.specs.Names.{number_of, with_name};

use std::alloc::Global;
use std::collections::BTreeMap;
use std::marker::Model;
use tqd_base::Memory;

/// Names without repeats, numbered from 0 in the order in which they were added.
///
/// Contracts see it as the list of its names, and a name as the list of its bytes. A look-up
/// compares as many names as the logarithm of their number, whatever the names are: they come from
/// files of others, and a table of hashes would be slow on names that were chosen to share one.
#[derive(Drop)]
pub struct NameList {
    /// The names in the order of their numbers.
    names: Vec<String>,
    /// The number of each name.
    numbers: BTreeMap<String, u32>,
}

impl Model for NameList {
    ghost use Rattle.std.specs.Prelude.{ℕ, List, map};
    ghost use Rattle.std.specs.String.{string_bytes};
    ghost use Rattle.bom_reader.specs.Names.{AreNumbered};

    ghost Value = { List (List ℕ) };

    ghost view = { λ list. map string_bytes list.names.items };

    ghost invariant = { λ list. AreNumbered (map string_bytes list.names.items) list.numbers };
}

impl NameList {
    /// A list of no names. It takes no memory.
    pub fn empty(alloc: Global) -> NameList
        ensures { result ≡ [] }
    {
        NameList {
            names: Vec::new(alloc),
            numbers: BTreeMap::new(alloc),
        }
    }

    /// How many names there are.
    pub fn len(&self) -> usize
        ensures value { result ≡ length self.now }
        ensures small { result < 2 ^ 32 }
        ensures distinct { AllPairs (λ a b. a ≢ b) self.now }
    {
        self.names.len()
    }

    /// The name with a number.
    pub fn name(&self, n: usize) -> &str
        requires { n < length self.now }
        ensures { result.now ≡ slice_index_or self.now n [] }
    {
        self.names[n].as_str()
    }

    /// The number of a name, where it is in the list.
    pub fn number(&self, name: &str) -> Option<u32>
        ensures { result ≡ number_of self.now name.now }
    {
        self.numbers.get(name).copied()
    }

    /// Adds a name, last, where it is not in the list yet, and answers its number. A list that holds
    /// 2^32 - 1 names has no memory for one more.
    pub fn add(&mut self, name: &str) -> Result<u32, Memory>
        ensures names { OnOk result (self.new ≡ with_name self.old name.now) }
        ensures number { IfOk result (λ n. number_of self.new name.now ≡ Some n) }

        // A name that is there takes no memory.
        ensures absent { OnErr result (number_of self.old name.now ≡ None) }
        ensures err { OnErr result (self.new ≡ self.old) }
    {
        match self.number(name) {
            Some(n) => Ok(n),
            None => self.add_new(name),
        }
    }

    fn add_new(&mut self, name: &str) -> Result<u32, Memory>
        requires { number_of self.old name.now ≡ None }
        ensures names { OnOk result (self.new ≡ with_name self.old name.now) }
        ensures number { IfOk result (λ n. number_of self.new name.now ≡ Some n) }
        ensures err { OnErr result (self.new ≡ self.old) }
    {
        let n = self.names.len();
        if n >= u32::MAX as usize {
            return Err(Memory);
        }
        let alloc = *self.names.allocator();
        let text = String::from_str(alloc, name)?;
        let key = String::from_str(alloc, name)?;
        self.names.reserve(1)?;
        self.numbers.insert(key, n as u32)?;
        self.names.push(text)?;
        Ok(n as u32)
    }
}
