ghost use Rattle.std.specs.Prelude.{◌≡◌, ◌+◌, ◌<◌, ◌≤◌, true, false, length, min, slice_get, IfOk, IfErr, OnOk};
ghost use Rattle.al_world.specs.Channels.{Book, is_bad, has_bad, ready, pairs_at, pairs_from, channel};
ghost use Rattle.alt_select.specs.Place.{IsPairAt};

use al_event::Branch;
use chan_book::{Book, ChanFault};

// As many pairs are looked at.
const MOST_PAIRS: usize = 65_536;

// Whether a branch traps: on nil, on a channel that was given up, or on one made for another number of words.
fn is_bad(book: &Book, branch: &Branch) -> bool
    ensures { result ≡ is_bad book.now.book.channels branch.now }
{
    match book.channel(branch.chan) {
        Some(channel) => channel.is_given_up() || channel.words() != branch.words,
        None => true,
    }
}

/// How many pairs of a branch and its partner, or the buffer, can go; at most 65,536 are counted. It traps where a branch
/// is on nil, on a channel that was given up, or on one made for another number of words.
pub fn ready(book: &Book, branches: &[Branch]) -> Result<u32, ChanFault>
    ensures count { IfOk result (λ count. count ≡ length (ready book.now.book branches.now)) }
    ensures ok { OnOk result (has_bad book.now.book branches.now ≡ false) }
    ensures err { IfErr result (λ fault. (fault ≡ ChanFault.Chan) × (has_bad book.now.book branches.now ≡ true)) }
{
    let mut count = 0;
    for branch in branches {
        if is_bad(book, branch) {
            return Err(ChanFault::Chan);
        }
        count += book.pairs(branch, MOST_PAIRS - count);
    }
    Ok(count as u32)
}

// The number of the branch of a pair, and its place among the pairs of that branch.
pub fn locate(book: &Book, branches: &[Branch], pick: usize) -> (usize, usize)
    requires { pick < length (ready book.now.book branches.now) }
    ensures { IsPairAt book.now.book branches.now pick result.0 result.1 }
{
    let mut place = pick;
    for (number, branch) in branches.iter().enumerate() {
        let here = book.pairs(branch, place + 1);
        if place < here {
            return (number, place);
        }
        place -= here;
    }
    unreachable!()
}
