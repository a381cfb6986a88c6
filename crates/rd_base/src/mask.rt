ghost use Rattle.std.specs.Prelude.{◌≡◌, ◌<◌, ◌≤◌, ◌++◌, [], ◌∷◌, List, ℕ, length, slice_get, Some, All};

use arrayvec::ArrayVec;
use std::marker::Model;

/// The masked places of an agreed unit: at most 64, rising.
#[derive(Drop)]
pub struct Mask {
    places: ArrayVec<u32, 64>,
}

impl Model for Mask {
    ghost Value = { List ℕ };

    ghost view = { λ m. m.places.items };
}

impl Mask {
    /// No place.
    pub fn new() -> Mask
        ensures { result ≡ [] }
    {
        Mask {
            places: ArrayVec::new(),
        }
    }

    /// Adds a place behind the others.
    pub fn push(&mut self, place: u32)
        requires room { length self.old < 64 }
        requires rising { All (λ p. p < place) self.old }
        ensures { self.new ≡ self.old ++ place ∷ [] }
    {
        self.places.push(place);
    }

    /// The number of places, at most 64.
    pub fn len(&self) -> usize
        ensures count { result ≡ length self.now }
        ensures most { result ≤ 64 }
    {
        self.places.len()
    }

    /// The place that stands there, from 0.
    pub fn at(&self, index: usize) -> u32
        requires { index < length self.now }
        ensures { slice_get self.now index ≡ Some result }
    {
        self.places.as_slice()[index]
    }
}
