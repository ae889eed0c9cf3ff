ghost use Rattle.std.specs.Prelude.{◌≡◌, ◌<◌, ◌++◌, [], ◌∷◌, Some, true, false, length, drop, option_map};
ghost use Rattle.std.specs.Option.{option_copied};
ghost use Rattle.al_world.specs.Channels.{Channel, channel, with_channel, without_values, held_of, is_open};
ghost use Rattle.al_world.specs.Talks.{with_held};
ghost use Rattle.chan_book.specs.Book.{IsOpen, IsHolding, IsThere};

use crate::chan::Chan;
use al_event::{Branch, Words};
use std::alloc::Global;

// The channel of a number; none where it is nil or was never given.
pub fn channel(channels: &[Chan], chan: u32) -> Option<&Chan>
    ensures { option_copied result ≡ channel channels.now chan }
{
    channels.get((chan as usize).checked_sub(1)?)
}

// Whether a buffer has room for a send, or a value for a receive.
pub fn is_open(channel: &Chan, branch: &Branch) -> bool
    ensures { result ≡ is_open channel.now branch.now.send }
{
    match branch.send {
        None => channel.held() > 0,
        Some(_) => channel.held() < channel.capacity(),
    }
}

// Gives a channel up, with what it holds.
pub fn give_up(channels: &mut [Chan], alloc: Global, chan: u32)
    requires { IsThere channels.old chan }
    ensures { channels.new ≡ with_channel chan without_values channels.old }
{
    channels[chan as usize - 1].give_up(alloc);
}

// Puts a value into a channel, behind those that it holds.
pub fn put(channels: &mut [Chan], chan: u32, words: Words)
    requires { IsOpen channels.old chan }
    ensures { channels.new ≡ with_held chan (λ held. held ++ words ∷ []) channels.old }
{
    channels[chan as usize - 1].put(words);
}

// Takes the oldest value out of a channel.
pub fn take(channels: &mut [Chan], chan: u32) -> Words
    requires { IsHolding channels.old chan }
    ensures taken { channels.new ≡ with_held chan (λ held. drop 1 held) channels.old }
    ensures oldest { held_of (channel channels.old chan) ≡ result ∷ drop 1 (held_of (channel channels.old chan)) }
{
    channels[chan as usize - 1].take()
}
