//! Where the slots of all functions live, and where things stand in the code.

ghost use Rattle.std.specs.Prelude.{◌≡◌, ◌^◌, ◌<◌, ◌≤◌, All, slice_get, slice_index};
ghost use Rattle.rv_form.specs.Program.{numbers_or_none, reach_or_long};
ghost use Rattle.rv_emit.specs.Near.{IsNear};
ghost use Rattle.rv_regs.specs.Homes.{home_at};
ghost use Rattle.rv_emit_ops.specs.Plans.{homes_or_none, homes_of, Near, AreNear};

use al_items::Items;
use rv_code::{Home, Reach};
use rv_emit_acts::homes::home_of;
use rv_regs::Homes;

/// A plan of the code of a program: the homes of the slots of each function; the first words of functions, of their
/// operations, of dispatchers and of the routines of division; and how far the jumps of each function go.
#[derive(Drop)]
pub struct Plan {
    pub homes: Items<Homes>,
    pub entries: Items<u32>,
    pub starts: Items<Items<u32>>,
    pub dispatchers: Items<u32>,
    pub routines: Items<u32>,
    pub reaches: Items<Reach>,
}

/// A place of a list, 0 past its end.
pub fn place_in(places: &[u32], at: usize) -> u32
    requires { All Near places.now }
    ensures value { result ≡ slice_index places.now at }
    ensures near { result ≤ 2 ^ 24 }
{
    match places.get(at) {
        Some(place) => *place,
        None => 0,
    }
}

impl Plan {
    /// The home of a function's slot.
    pub fn home(&self, f: u32, slot: u32) -> Home
        requires { slot < 2 ^ 20 }
        ensures value { result ≡ homes_of self.now.homes f slot }
        ensures near { IsNear result }
    {
        match self.homes.get(f as usize) {
            Some(homes) => home_of(homes, slot),
            None => Home::Frame(slot),
        }
    }

    /// The first word of a function's operation.
    pub fn start(&self, f: u32, pc: usize) -> u32
        requires { AreNear self.now }
        ensures value { result ≡ slice_index (numbers_or_none (slice_get self.now.starts f)) pc }
        ensures near { result ≤ 2 ^ 24 }
    {
        match self.starts.get(f as usize) {
            Some(places) => place_in(places.as_slice(), pc),
            None => 0,
        }
    }

    /// The first word of a function.
    pub fn entry(&self, f: u32) -> u32
        requires { AreNear self.now }
        ensures value { result ≡ slice_index self.now.entries f }
        ensures near { result ≤ 2 ^ 24 }
    {
        place_in(self.entries.as_slice(), f as usize)
    }

    /// The first word of a class's dispatcher.
    pub fn dispatcher(&self, class: u32) -> u32
        requires { AreNear self.now }
        ensures value { result ≡ slice_index self.now.dispatchers class }
        ensures near { result ≤ 2 ^ 24 }
    {
        place_in(self.dispatchers.as_slice(), class as usize)
    }

    /// How far the jumps of a function go.
    pub fn reach(&self, f: u32) -> Reach
        ensures { result ≡ reach_or_long (slice_get self.now.reaches f) }
    {
        match self.reaches.get(f as usize) {
            Some(reach) => *reach,
            None => Reach::Long,
        }
    }
}
