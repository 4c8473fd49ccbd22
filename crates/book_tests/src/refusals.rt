use crate::states::{CHOICE, INNER, SHEET, table};
use book::book::{Book, Slip};
use book::fault::BookFault;
use std::test::Fail;

// The number of a refusal, or 0.
fn number(answer: Result<(), BookFault>) -> u8 {
    answer.err().map_or(0, |fault| fault.report().number)
}

// The number of a refusal, or 0 if a slip was given, which is spent at once.
fn proposal(book: &mut Book, answer: Result<Slip, BookFault>) -> u8 {
    let closed = answer.map(|slip| book.close(slip));
    number(closed.map(|_| ()))
}

#[test]
fn entering_asks_socket_state_and_room_in_order(rt: HostRuntime) -> Result<(), Fail> {
    let system = table(rt.alloc())?;
    let mut book = Book::new();
    assert_eq!(rt; number(book.enter(&system, 0, 4)), 22);
    assert_eq!(rt; number(book.enter(&system, 17, CHOICE)), 22);
    assert_eq!(rt; number(book.enter(&system, 1, 4)), 19);
    assert_eq!(rt; number(book.enter(&system, 1, CHOICE)), 0);
    assert_eq!(rt; number(book.enter(&system, 1, 4)), 19);
    assert_eq!(rt; number(book.enter(&system, 1, INNER)), 23);
    assert_eq!(rt; book.first(1), Some(CHOICE));
    Ok(())
}

#[test]
fn proposing_asks_socket_state_and_socket_in_order(rt: HostRuntime) -> Result<(), Fail> {
    let system = table(rt.alloc())?;
    let mut book = Book::new();
    assert!(rt; book.enter(&system, 5, CHOICE).is_ok());
    let no_socket = book.propose(&system, 17, 4);
    assert_eq!(rt; proposal(&mut book, no_socket), 22);
    let no_state = book.propose(&system, 6, 4);
    assert_eq!(rt; proposal(&mut book, no_state), 19);
    let vacant = book.propose(&system, 6, CHOICE);
    assert_eq!(rt; proposal(&mut book, vacant), 24);
    assert_eq!(rt; book.proposed(), 0);
    let slip = book.propose(&system, 5, INNER)?;
    let again = book.propose(&system, 5, INNER);
    let second = proposal(&mut book, again);
    let _ = book.close(slip);
    assert_eq!(rt; second, 25);
    Ok(())
}

#[test]
fn proving_a_change_that_is_not_open_names_the_socket(rt: HostRuntime) -> Result<(), Fail> {
    let system = table(rt.alloc())?;
    let mut book = Book::new();
    let mut other = Book::new();
    assert!(rt; book.enter(&system, 9, CHOICE).is_ok());
    let slip = book.propose(&system, 9, INNER)?;
    let answer = other.prove(&system, &slip, &SHEET);
    let _ = book.close(slip);
    let report = answer
        .err()
        .ok_or("proved in a book that has no such change")?
        .report();
    assert_eq!(rt; report.number, 27);
    assert_eq!(rt; report.place, 9);
    Ok(())
}

#[test]
fn the_book_holds_65535_proposals(rt: HostRuntime) -> Result<(), Fail> {
    let system = table(rt.alloc())?;
    let mut book = Book::new();
    assert!(rt; book.enter(&system, 3, CHOICE).is_ok());
    for _ in 0..65535 {
        let proposed = book.propose(&system, 3, INNER);
        assert_eq!(rt; proposal(&mut book, proposed), 0);
    }
    assert_eq!(rt; book.dropped(), 65535);
    let over = book.propose(&system, 3, INNER);
    assert_eq!(rt; proposal(&mut book, over), 26);
    Ok(())
}
