use comparison::comparison::{Open, Refusal, Settled, Step, Verdict};
use example_tables::choice::{EARLY, LATE};
use example_tables::small::LOOP;
use layers::standing::Standing;
use std::test::Fail;
use systems::table::Table;

// Sweeps to the end a comparison that a test began, and may have written into: 13 sweeps are enough for 12 pairs.
fn settled(
    open: Open<Standing>,
    left: &Table,
    right: &Table,
    cells: &mut [u32],
) -> Result<Settled<Standing>, Fail> {
    let mut current = open;
    for _ in 0..13 {
        let step = current.sweep(left, right, cells);
        match step.map_err(|refused| refused.0)? {
            Step::Again(next) => current = next,
            Step::Done(done) => return Ok(done),
        }
    }
    Err(Fail::new("not settled"))
}

#[test]
fn an_early_choice_differs_in_round_2(rt: HostRuntime) -> Result<(), Fail> {
    let left = Table::new(rt.alloc(), 3, &LATE)?;
    let right = Table::new(rt.alloc(), 4, &EARLY)?;
    let mut cells = [7; 14];
    let open = Open::<Standing>::begin(&left, &right, &mut cells)?;
    let done = settled(open, &left, &right, &mut cells)?;
    assert_eq!(rt; done.sweeps(), 3);
    assert_eq!(rt;
        done.verdict(&left, &right, &cells, 2, 3)?,
        Verdict::Different(2)
    );
    assert_eq!(rt; done.verdict(&left, &right, &cells, 0, 0)?, Verdict::Equal);
    assert_eq!(rt;
        done.verdict(&left, &right, &cells, 3, 0),
        Err(Refusal::NoSuchState)
    );
    assert_eq!(rt;
        done.verdict(&right, &left, &cells, 0, 0),
        Err(Refusal::OtherSizes)
    );
    assert_eq!(rt; cells[12], 7);
    assert_eq!(rt; cells[13], 7);
    Ok(())
}

#[test]
fn too_few_cells_are_refused(rt: HostRuntime) -> Result<(), Fail> {
    let left = Table::new(rt.alloc(), 3, &LATE)?;
    let right = Table::new(rt.alloc(), 4, &EARLY)?;
    let mut cells = [7; 11];
    let begun = Open::<Standing>::begin(&left, &right, &mut cells);
    assert_eq!(rt; begun.err().map(|refusal| refusal.number()), Some(11));
    assert_eq!(rt; cells[0], 7);
    Ok(())
}

#[test]
fn an_outsize_system_is_refused(rt: HostRuntime) -> Result<(), Fail> {
    let left = Table::new(rt.alloc(), 0, &LATE)?;
    let right = Table::new(rt.alloc(), 4, &EARLY)?;
    let mut cells = [7; 12];
    let begun = Open::<Standing>::begin(&left, &right, &mut cells);
    assert_eq!(rt; begun.err().map(|refusal| refusal.number()), Some(10));
    assert_eq!(rt; cells[0], 7);
    Ok(())
}

#[test]
fn cells_that_others_wrote_stay(rt: HostRuntime) -> Result<(), Fail> {
    let left = Table::new(rt.alloc(), 3, &LATE)?;
    let right = Table::new(rt.alloc(), 4, &EARLY)?;
    let mut cells = [0; 12];
    let open = Open::<Standing>::begin(&left, &right, &mut cells)?;
    cells[11] = 2147483648;
    cells[5] = 1;
    let done = settled(open, &left, &right, &mut cells)?;
    assert_eq!(rt; cells[11], 2147483648);
    assert_eq!(rt;
        done.verdict(&left, &right, &cells, 2, 3)?,
        Verdict::Different(2147483648)
    );
    Ok(())
}

#[test]
fn a_refused_sweep_gives_the_comparison_back(rt: HostRuntime) -> Result<(), Fail> {
    let left = Table::new(rt.alloc(), 3, &LATE)?;
    let right = Table::new(rt.alloc(), 4, &EARLY)?;
    let mut cells = [0; 12];
    let open = Open::<Standing>::begin(&left, &right, &mut cells)?;
    let swept = open.sweep(&right, &left, &mut cells);
    let refused = swept.err().ok_or("swept")?;
    assert_eq!(rt; refused.0, Refusal::OtherSizes);
    assert_eq!(rt; cells[4], 0);
    let done = settled(refused.1, &left, &right, &mut cells)?;
    assert_eq!(rt; done.sweeps(), 3);
    Ok(())
}

fn swept(open: Open<Standing>, left: &Table, right: &Table) -> Result<Open<Standing>, Refusal> {
    let mut cells = [0; 1];
    let step = open.sweep(left, right, &mut cells);
    match step.map_err(|refused| refused.0)? {
        Step::Again(next) => Ok(next),
        Step::Done(_) => Err(Refusal::Outsize),
    }
}

// One state with a transition to itself, and one with none: their pair is struck in every round that finds its cell zero.
#[test]
fn no_more_sweeps_are_made_than_pairs_and_one(rt: HostRuntime) -> Result<(), Fail> {
    let left = Table::new(rt.alloc(), 1, &[LOOP])?;
    let right = Table::new(rt.alloc(), 1, &[])?;
    let mut cells = [0; 1];
    let open = Open::<Standing>::begin(&left, &right, &mut cells)?;
    let once = swept(open, &left, &right)?;
    let twice = swept(once, &left, &right)?;
    let thrice = swept(twice, &left, &right);
    assert_eq!(rt; thrice.err().map(|refusal| refusal.number()), Some(13));
    Ok(())
}
