//! The least of many numbers, by the matches of a tournament (Knuth, The Art of Computer Programming, volume 3, 1998,
//! section 5.2.3).

ghost use Rattle.std.specs.Prelude.{◌≡◌, ◌≢◌, ℕ, ◌+◌, ◌*◌, ◌<◌, ◌≤◌, length, IfOk};
ghost use Rattle.mcf_lower.specs.declared.net.TheConstants.{NODES_MAX};
ghost use Rattle.mcf_lower.specs.Tournament.{key_of, HasPlaces, IsTournament};

use std::alloc::Global;
use tqd_base::Memory;

/// A key for each place, by which the places play against one another, the lesser key winning.
///
/// The keys of the places stand from index `places` on. Below, from index 1 on, stand the keys of the winners: at each
/// index the lesser of the keys at twice that index and one further, so that the least of all is at index 1.
#[derive(Drop)]
pub(crate) struct Tournament {
    pub places: usize,
    pub keys: Vec<u64>,
}

impl Tournament {
    /// A tournament of so many places, in which each key is 0.
    pub(crate) fn new(alloc: Global, places: usize) -> Result<Tournament, Memory>
        requires { places ≤ NODES_MAX }
        ensures { IfOk result (λ t. HasPlaces places t) }
    {
        Ok(Tournament {
            places,
            keys: vec![in alloc; 0u64; 2 * places]?,
        })
    }

    /// Makes each key this one.
    pub(crate) fn fill(&mut self, key: u64)
        requires { HasPlaces self.old.places self.old }
        ensures tournament { IsTournament self.new }
        ensures places { self.new.places ≡ self.old.places }
        ensures keys { (v : ℕ) → v < self.new.places → key_of self.new v ≡ key }
    {
        self.keys.fill(key);
    }

    /// The key of a place.
    pub(crate) fn key(&self, place: u32) -> u64
        requires tournament { IsTournament self.now }
        requires inside { place < self.now.places }
        ensures { result ≡ key_of self.now place }
    {
        self.keys[self.places + place as usize]
    }

    /// Changes the key of a place, and plays its matches until one ends as before.
    pub(crate) fn set(&mut self, place: u32, key: u64)
        requires tournament { IsTournament self.old }
        requires inside { place < self.old.places }
        ensures tournament { IsTournament self.new }
        ensures places { self.new.places ≡ self.old.places }
        ensures set { key_of self.new place ≡ key }
        ensures others { (v : ℕ) → v < self.old.places → v ≢ place → key_of self.new v ≡ key_of self.old v }
    {
        let mut i = self.places + place as usize;
        self.keys[i] = key;
        while i > 1 {
            i /= 2;
            let least = self.keys[2 * i].min(self.keys[2 * i + 1]);
            if self.keys[i] == least {
                return;
            }
            self.keys[i] = least;
        }
    }

    /// A place with the least key.
    pub(crate) fn least(&self) -> u32
        requires tournament { IsTournament self.now }
        requires some { 1 ≤ self.now.places }
        requires few { self.now.places ≤ NODES_MAX }
        ensures inside { result < self.now.places }
        ensures least { (v : ℕ) → v < self.now.places → key_of self.now result ≤ key_of self.now v }
    {
        let mut i = 1;
        while i < self.places {
            i = if self.keys[2 * i] <= self.keys[2 * i + 1] {
                2 * i
            } else {
                2 * i + 1
            };
        }
        (i - self.places) as u32
    }
}
