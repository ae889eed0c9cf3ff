//! Channels, with the tasks that are blocked on them.
ghost use Rattle.std.specs.Prelude.{◌≡◌, ◌++◌, ◌+◌, ◌<◌, ◌≤◌, ◌^◌, length, slice_get, take, OnOk};
ghost use Rattle.std.specs.List.{list_any};
ghost use Rattle.al_step_text.specs.StepText as spec;

use al_base::NoMemory;
use al_event::Bytes;
use al_script_book::{Book, Channel, Offer, TaskName, same_task};
use al_value_text::put_decimal;

/// Whether some of these branches on a channel is of that task.
fn has_by(chan: u64, task: TaskName, offers: &[Offer]) -> bool
    ensures { result ≡ list_any (spec.is_by chan task) offers.now }
{
    offers.iter().any(|o| u64::from(o.branch.chan) == chan && same_task(task, o.by.task))
}

/// Whether the branch at that place is the first of its task on the channel.
fn is_first(chan: u64, waiting: &[Offer], at: usize) -> bool
    requires { at < length waiting.now }
    ensures { result ≡ spec.is_first chan waiting.now at }
{
    let offer = &waiting[at];
    u64::from(offer.branch.chan) == chan && !has_by(chan, offer.by.task, &waiting[..at])
}

/// How many tasks have a branch on a channel.
#[tactic(auto, using(crate::proofs::RangesAre::counts_are))]
fn waiting_on(chan: u64, waiting: &[Offer]) -> usize
    ensures { result ≡ spec.waiting_on chan waiting.now (length waiting.now) }
{
    let mut count = 0;
    for at in 0..waiting.len() {
        if is_first(chan, waiting, at) {
            count += 1;
        }
    }
    count
}

fn put_channel(
    out: &mut Bytes,
    chan: u64,
    waiting: &[Offer],
    channel: &Channel,
) -> Result<(), NoMemory>
    ensures { OnOk result (out.new ≡ out.old ++ spec.channel_line chan waiting.now channel.now) }
{
    if channel.given_up {
        return Ok(());
    }
    out.extend_from_slice(b"chan ")?;
    put_decimal(out, chan)?;
    out.extend_from_slice(b" capacity ")?;
    put_decimal(out, u64::from(channel.capacity))?;
    out.extend_from_slice(b" held ")?;
    put_decimal(out, channel.held.len() as u64)?;
    out.extend_from_slice(b" waiting ")?;
    put_decimal(out, waiting_on(chan, waiting) as u64)?;
    out.extend_from_slice(b"\n")
}

#[tactic(auto, using(crate::proofs::FirstItems::elements_at))]
fn put_channel_at(out: &mut Bytes, book: &Book, number: usize) -> Result<(), NoMemory>
    requires { number < length book.now.channels }
    ensures { OnOk result (out.new ≡ out.old ++ spec.channel_at book.now.waiting book.now.channels number) }
{
    let channels = book.channels.as_slice();
    put_channel(
        out,
        number as u64 + 1,
        book.waiting.as_slice(),
        &channels[number],
    )
}

/// Puts the lines of the channels that were not given up.
#[tactic(auto, using(crate::proofs::RangesAre::channels_are))]
pub(crate) fn put_channels(out: &mut Bytes, book: &Book) -> Result<(), NoMemory>
    ensures { OnOk result (out.new ≡ out.old ++ spec.channel_lines book.now.waiting book.now.channels (length book.now.channels)) }
{
    for number in 0..book.channels.len() {
        put_channel_at(out, book, number)?;
    }
    Ok(())
}
