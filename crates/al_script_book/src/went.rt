// What went through channels.

use crate::names::TalkName;
use al_event::Words;
use al_items::Items;
use std::marker::Model;

/// Words that went, or values that were given up with their channel.
#[derive(Debug, Drop)]
pub enum Passage {
    /// From a send to a receive, on an unbuffered channel.
    Transfer {
        chan: u32,
        sender: TalkName,
        receiver: TalkName,
        words: Words,
    },
    /// From a send into a buffer.
    Put {
        chan: u32,
        sender: TalkName,
        words: Words,
    },
    /// From a buffer to a receive.
    Get {
        chan: u32,
        receiver: TalkName,
        words: Words,
    },
    /// Given up with the channel.
    Lost {
        chan: u32,
        values: Items<Words>,
    },
}

/// One thing that went.
#[derive(Debug, Drop)]
pub struct Went {
    pub passage: Passage,
}

impl Model for Went {
    ghost use Rattle.al_world.specs.Talks.{Went as View};
    ghost use Rattle.al_world.specs.World.{TalkName as Name};
    ghost use Rattle.al_script_book.specs.Passages.{went_of};

    ghost Value = { View Name };

    ghost view = { λ w. went_of w.passage };
}

/// A blocked talk that goes with another's: which of its branches went, and the words that it received.
#[derive(Debug, Drop)]
pub struct Woken {
    pub by: TalkName,
    pub branch: u32,
    pub words: Words,
}

impl Model for Woken {
    ghost use Rattle.al_world.specs.Talks.{Woken as View};
    ghost use Rattle.al_world.specs.World.{TalkName as Name};

    ghost Value = { View Name };

    ghost view = { λ w. record { by = w.by; branch = w.branch; words = w.words } };
}
