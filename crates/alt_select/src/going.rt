ghost use Rattle.std.specs.Prelude.{◌≡◌, ℕ, List, ◌==◌, ◌<◌, ◌++◌, [], ◌∷◌, Some, None, true, false, length, slice_get, option_map, option_and_then, unwrap_or, nat_eq};
ghost use Rattle.al_event.specs.declared.act.Branch.{Branch};
ghost use Rattle.al_world.specs.Channels.{Offer, Pair, channel, held_of, pairs_at};
ghost use Rattle.al_world.specs.Talks.{meets, hands_over, puts_in, takes_out, lets_in, sends, receives, goes_with};
ghost use Rattle.chan_book.specs.Book.{IsOpen, IsThere};
ghost use Rattle.chan_book.specs.Named.{waiter_of};
ghost use Rattle.alt_select.specs.Answer.{IsFired, IsOf, Waits, IsFilled, receivers, senders, is_full, is_buffered, CanGo};

use crate::answer::{Fired, Woke};
use al_event::{Branch, Branches, Words};
use chan_book::{Book, Waiter};

// The words that a branch of a talk sends; `none` where it receives.
fn words_sent(talk: Branches, number: u32, none: Words) -> Words
    requires { number < length talk }
    ensures { (b : Branch) → slice_get talk number ≡ Some b → result ≡ unwrap_or b.send none }
{
    let mut branches = talk.into_vec();
    let branch = branches.swap_remove(number as usize);
    branch.send.unwrap_or(none)
}

// Whether a channel holds nothing.
fn is_empty(book: &Book, chan: u32) -> bool
    ensures { result ≡ (length (held_of (channel book.now.book.channels chan)) == 0) }
{
    match book.channel(chan) {
        Some(channel) => channel.held() == 0,
        None => true,
    }
}

// Whether a channel holds as much as it may.
fn is_full(book: &Book, chan: u32) -> bool
    ensures { result ≡ is_full (channel book.now.book.channels chan) }
{
    match book.channel(chan) {
        Some(channel) => channel.held() == channel.capacity(),
        None => false,
    }
}

// A branch goes with one that waits, on an unbuffered channel.
pub fn meet(book: &mut Book, number: u32, branch: Branch, waiter: Waiter) -> Fired
    requires { Waits book.old.book waiter }
    ensures met { (offer : Offer ℕ) → IsOf book.old.book waiter offer → (t : ℕ) → IsFired (Some (meets nat_eq book.old.book t number branch.chan branch.send offer)) book.new.book result }
    ensures room { book.new.room ≡ book.old.room }
{
    let talk = book.withdraw(waiter.task);
    let none = book.no_words();
    match branch.send {
        Some(words) => woken_by(number, none, waiter, words),
        None => woken_by(
            number,
            words_sent(talk, waiter.number, none),
            waiter,
            book.no_words(),
        ),
    }
}

// A talk went by this branch and received these words, and the one that waited received those.
fn woken_by(branch: u32, got: Words, waiter: Waiter, given: Words) -> Fired
    ensures { result ≡ record { branch = branch; got = got; woke = Some (record { task = waiter.task; branch = waiter.number; got = given }) } }
{
    let woke = Some(Woke {
        task: waiter.task,
        branch: waiter.number,
        got: given,
    });
    Fired { branch, got, woke }
}

// A send to an empty buffer is handed to a receive that waits.
fn hand_over(book: &mut Book, number: u32, words: Words, waiter: Waiter) -> Fired
    requires { Waits book.old.book waiter }
    ensures handed { (offer : Offer ℕ) → IsOf book.old.book waiter offer → (t c : ℕ) → IsFired (Some (hands_over nat_eq book.old.book t number c words offer)) book.new.book result }
    ensures room { book.new.room ≡ book.old.room }
{
    let _talk = book.withdraw(waiter.task);
    let got = book.no_words();
    woken_by(number, got, waiter, words)
}

// A send into the buffer.
fn put_in(book: &mut Book, number: u32, chan: u32, words: Words) -> Fired
    requires { IsOpen book.old.book.channels chan }
    ensures put { (t : ℕ) → IsFired (Some (puts_in nat_eq book.old.book t number chan words)) book.new.book result }
    ensures room { book.new.room ≡ book.old.room }
{
    book.put(chan, words);
    let got = book.no_words();
    Fired {
        branch: number,
        got,
        woke: None,
    }
}

// A send on a buffered channel, by the first receive that waits.
fn send(book: &mut Book, number: u32, chan: u32, words: Words, waiter: Option<Waiter>) -> Fired
    requires first { waiter ≡ option_map waiter_of (slice_get (receivers chan book.old.book) 0) }
    requires open { IsOpen book.old.book.channels chan }
    ensures sent { (t : ℕ) → IsFired (Some (sends nat_eq book.old.book t number chan words (held_of (channel book.old.book.channels chan)) (receivers chan book.old.book))) book.new.book result }
    ensures room { book.new.room ≡ book.old.room }
{
    if is_empty(book, chan) {
        match waiter {
            Some(waiter) => hand_over(book, number, words, waiter),
            None => put_in(book, number, chan, words),
        }
    } else {
        put_in(book, number, chan, words)
    }
}

// A receive of the oldest value.
fn take_out(book: &mut Book, number: u32, chan: u32) -> Fired
    requires { IsFilled book.old.book.channels chan }
    ensures taken { (t : ℕ) (oldest : List ℕ) (later : List (List ℕ)) → held_of (channel book.old.book.channels chan) ≡ oldest ∷ later → IsFired (Some (takes_out nat_eq book.old.book t number chan oldest)) book.new.book result }
    ensures room { book.new.room ≡ book.old.room }
{
    let got = book.take(chan);
    Fired {
        branch: number,
        got,
        woke: None,
    }
}

// A receive of the oldest value of a full buffer; the words of a send that waits come in.
fn let_in(book: &mut Book, number: u32, chan: u32, waiter: Waiter) -> Fired
    requires waits { Waits book.old.book waiter }
    requires filled { IsFilled book.old.book.channels chan }
    requires full { is_full (channel book.old.book.channels chan) ≡ true }
    ensures let_in { (offer : Offer ℕ) → IsOf book.old.book waiter offer → (t : ℕ) (oldest : List ℕ) (later : List (List ℕ)) → held_of (channel book.old.book.channels chan) ≡ oldest ∷ later → IsFired (Some (lets_in nat_eq book.old.book t number chan oldest offer)) book.new.book result }
    ensures room { book.new.room ≡ book.old.room }
{
    let got = book.take(chan);
    let none = book.no_words();
    let talk = book.withdraw(waiter.task);
    let words = words_sent(talk, waiter.number, none);
    book.put(chan, words);
    let given = book.no_words();
    woken_by(number, got, waiter, given)
}

// A receive from a buffered channel, by the first send that waits.
fn receive(book: &mut Book, number: u32, chan: u32, waiter: Option<Waiter>) -> Fired
    requires first { waiter ≡ option_map waiter_of (slice_get (senders chan book.old.book) 0) }
    requires filled { IsFilled book.old.book.channels chan }
    ensures received { (t : ℕ) → IsFired (receives nat_eq book.old.book t number chan (is_full (channel book.old.book.channels chan)) (held_of (channel book.old.book.channels chan)) (senders chan book.old.book)) book.new.book result }
    ensures room { book.new.room ≡ book.old.room }
{
    if is_full(book, chan) {
        match waiter {
            Some(waiter) => let_in(book, number, chan, waiter),
            None => take_out(book, number, chan),
        }
    } else {
        take_out(book, number, chan)
    }
}

// A branch goes with its partner at a place, or with the buffer.
pub fn go(book: &mut Book, number: u32, branch: Branch, place: usize) -> Fired
    requires { CanGo book.old.book branch place }
    ensures gone { (t : ℕ) → IsFired (option_and_then (λ (p : Pair ℕ). goes_with nat_eq book.old.book t p.number p.branch p.partner) (slice_get (pairs_at book.old.book.waiting number branch (channel book.old.book.channels branch.chan)) place)) book.new.book result }
    ensures room { book.new.room ≡ book.old.room }
{
    let chan = branch.chan;
    if is_buffered(book, chan) {
        let first = book.opposite(&branch, 0);
        match branch.send {
            Some(words) => send(book, number, chan, words, first),
            None => receive(book, number, chan, first),
        }
    } else {
        match book.opposite(&branch, place) {
            Some(waiter) => meet(book, number, branch, waiter),
            None => unreachable!(),
        }
    }
}

// Whether a channel has a buffer.
fn is_buffered(book: &Book, chan: u32) -> bool
    requires { IsThere book.now.book.channels chan }
    ensures { result ≡ is_buffered (channel book.now.book.channels chan) }
{
    match book.channel(chan) {
        Some(channel) => channel.capacity() != 0,
        None => false,
    }
}
