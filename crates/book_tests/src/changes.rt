use crate::states::{CHOICE, INNER, NO_SHEET, SHEET, VISIBLE, table};
use book::book::{Book, Closed, replay};
use book::fault::BookFault;
use book::request::Request;
use certificates::fault::SheetFault;
use std::test::Fail;

#[test]
fn a_proved_change_is_taken(rt: HostRuntime) -> Result<(), Fail> {
    let system = table(rt.alloc())?;
    let mut book = Book::new();
    assert!(rt; book.enter(&system, 1, CHOICE).is_ok());
    let slip = book.propose(&system, 1, INNER)?;
    let answer = book.prove(&system, &slip, &SHEET);
    let closed = book.close(slip);
    assert_eq!(rt; answer, Ok(()));
    assert_eq!(rt; closed, Closed::Taken);
    assert_eq!(rt; book.first(1), Some(CHOICE));
    assert_eq!(rt; book.current(1), Some(INNER));
    assert_eq!(rt; book.proposed(), 1);
    assert_eq!(rt; book.taken(), 1);
    assert_eq!(rt; book.dropped(), 0);
    Ok(())
}

#[test]
fn a_change_that_is_not_proved_is_dropped(rt: HostRuntime) -> Result<(), Fail> {
    let system = table(rt.alloc())?;
    let mut book = Book::new();
    assert!(rt; book.enter(&system, 16, CHOICE).is_ok());
    let slip = book.propose(&system, 16, VISIBLE)?;
    let answer = book.prove(&system, &slip, &NO_SHEET);
    let closed = book.close(slip);
    let unanswered = SheetFault::Unanswered {
        row: 1,
        side: 0,
        k: 0,
    };
    assert_eq!(rt; answer, Err(BookFault::Sheet(unanswered)));
    assert_eq!(rt; closed, Closed::Dropped);
    assert_eq!(rt; book.current(16), Some(CHOICE));
    assert_eq!(rt; book.taken(), 0);
    assert_eq!(rt; book.dropped(), 1);
    Ok(())
}

// A slip stands for its two numbers, whichever book gave it.
#[test]
fn a_slip_of_another_book_closes_the_change(rt: HostRuntime) -> Result<(), Fail> {
    let system = table(rt.alloc())?;
    let mut book = Book::new();
    let mut other = Book::new();
    assert!(rt; book.enter(&system, 2, CHOICE).is_ok());
    assert!(rt; other.enter(&system, 2, INNER).is_ok());
    let mine = book.propose(&system, 2, INNER)?;
    let theirs = other.propose(&system, 2, INNER);
    let first = theirs.map(|slip| book.close(slip));
    let second = book.close(mine);
    assert_eq!(rt; first, Ok(Closed::Dropped));
    assert_eq!(rt; second, Closed::Nothing);
    assert_eq!(rt; book.dropped(), 1);
    Ok(())
}

#[test]
fn a_list_of_requests_is_replayed(rt: HostRuntime) -> Result<(), Fail> {
    let system = table(rt.alloc())?;
    let rows = SHEET.to_vec(rt.alloc())?;
    let requests = [
        Request::Enter {
            socket: 3,
            state: CHOICE,
        },
        Request::Propose {
            socket: 3,
            state: INNER,
        },
        Request::Prove {
            socket: 3,
            number: 1,
            rows,
        },
        Request::Close {
            socket: 3,
            number: 1,
        },
        Request::Propose {
            socket: 3,
            state: VISIBLE,
        },
        Request::Close {
            socket: 3,
            number: 2,
        },
    ];
    let book = replay(&system, &requests);
    assert_eq!(rt; book.current(3), Some(INNER));
    assert_eq!(rt; book.proposed(), 2);
    assert_eq!(rt; book.taken(), 1);
    assert_eq!(rt; book.dropped(), 1);
    Ok(())
}
