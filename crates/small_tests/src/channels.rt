use chan_book::{Book, ChanFault, Shape};
use std::test::Fail;

fn crosses_threads<T: Send + Drop>(_value: T) {}

#[test]
fn channels_are_made_asked_and_given_up(rt: HostRuntime) -> Result<(), Fail> {
    let mut book = Book::new(rt.alloc(), 4)?;
    assert_eq!(rt; book.room(), 4);
    assert_eq!(rt; book.made(), 0);
    assert_eq!(rt; book.make(2, 1)?, 1);
    assert!(rt; book.made() < u32::MAX);
    assert_eq!(rt; book.make(0, 3)?, 2);
    assert_eq!(rt; book.made(), 2);
    let shape = Shape {
        capacity: 2,
        held: 0,
        waiting: 0,
    };
    assert_eq!(rt; book.shape(1), Some(shape));
    // what can be received and sent, by number
    let chan = Err(ChanFault::Chan);
    let table = [
        (0, chan, chan),
        (1, Ok(false), Ok(true)),
        (2, Ok(false), Ok(false)),
        (3, chan, chan),
    ];
    for (number, receive, send) in table {
        assert_eq!(rt; book.can_recv(number), receive, "receive {number}");
        assert_eq!(rt; book.can_send(number), send, "send {number}");
    }
    assert_eq!(rt; book.give_up(1), Ok(()));
    assert_eq!(rt; book.give_up(1), Err(ChanFault::Chan));
    assert_eq!(rt; book.give_up(0), Ok(()));
    assert_eq!(rt; book.give_up(3), Ok(()));
    assert_eq!(rt; book.can_send(1), chan);
    assert_eq!(rt; book.shape(1), None);
    assert_eq!(rt; book.shape(0), None);
    crosses_threads(book);
    Ok(())
}
