ghost use Rattle.std.specs.Prelude.{◌≡◌, ◌<◌, ◌++◌, [], ◌∷◌, IfOk, false, length, drop};
ghost use Rattle.al_world.specs.Channels.{Channel, new_channel, without_values};

use al_base::NoMemory;
use al_event::Words;
use std::alloc::Global;
use std::collections::VecDeque;
use std::marker::Model;

// A channel, with room for all that it may hold.
#[derive(Drop)]
pub struct Chan {
    capacity: u32,
    words: u32,
    given_up: bool,
    held: VecDeque<Words>,
}

impl Model for Chan {
    ghost use Rattle.std.specs.Prelude.{◌≡◌, ◌≤◌, false, length};
    ghost use Rattle.std.specs.VecDeque.{deque_capacity};
    ghost use Rattle.al_world.specs.Channels.{Channel};

    ghost Value = { Channel };

    ghost view = { λ c. record { capacity = c.capacity; words = c.words; held = c.held.items; given_up = c.given_up } };

    ghost invariant = { λ c. record {
      few : length c.held.items ≤ c.capacity;
      room : c.given_up ≡ false → c.capacity ≤ deque_capacity c.held;
    } };
}

impl Chan {
    // A channel that holds nothing.
    pub fn new(alloc: Global, capacity: u32, words: u32) -> Result<Chan, NoMemory>
        ensures { IfOk result (λ c. c ≡ new_channel capacity words) }
    {
        let held = VecDeque::with_capacity(alloc, capacity as usize)?;
        Ok(Chan {
            capacity,
            words,
            given_up: false,
            held,
        })
    }

    // How many values it may hold.
    pub fn capacity(&self) -> u32
        ensures { result ≡ self.now.capacity }
    {
        self.capacity
    }

    // The words of each value.
    pub fn words(&self) -> u32
        ensures { result ≡ self.now.words }
    {
        self.words
    }

    // How many values it holds.
    pub fn held(&self) -> u32
        ensures { result ≡ length self.now.held }
    {
        let _capacity = self.capacity;
        self.held.len() as u32
    }

    pub fn is_given_up(&self) -> bool
        ensures { result ≡ self.now.given_up }
    {
        self.given_up
    }

    // Gives the channel up, with what it holds and the room for it.
    pub fn give_up(&mut self, alloc: Global)
        ensures { self.new ≡ without_values self.old }
    {
        self.held = VecDeque::new(alloc);
        self.given_up = true;
    }

    // Puts a value behind those that it holds.
    pub fn put(&mut self, words: Words)
        requires room { length self.old.held < self.old.capacity }
        requires usable { self.old.given_up ≡ false }
        ensures { self.new ≡ record self.old { held = self.old.held ++ words ∷ [] } }
    {
        if let Err(_) = self.held.push_back(words) {
            unreachable!();
        }
    }

    // Takes the oldest value out.
    pub fn take(&mut self) -> Words
        requires { 0 < length self.old.held }
        ensures oldest { self.old.held ≡ result ∷ self.new.held }
        ensures rest { self.new ≡ record self.old { held = drop 1 self.old.held } }
    {
        match self.held.pop_front() {
            Some(words) => words,
            None => unreachable!(),
        }
    }
}
