use actions::action::Action;
use actions::pair::ChannelPair;
use actions::renaming::Renaming;
use std::process::Abort;
use std::test::Fail;
use systems::system::System;

pub fn action(code: u16) -> Result<Action, Fail> {
    Action::from_code(code).ok_or_else(|| Fail::new("no action"))
}

pub fn pair(first: u64, second: u64) -> Result<ChannelPair, Fail> {
    ChannelPair::new(first, second).ok_or_else(|| Fail::new("no channel pair"))
}

pub fn renaming(class: u16, from: u64, to: u64) -> Result<Renaming, Fail> {
    Renaming::new(class, from, to).ok_or_else(|| Fail::new("no renaming"))
}

// The state has exactly these transitions, in this order.
pub fn check_moves<S: System>(
    rt: &impl Abort,
    system: &S,
    s: usize,
    expected: &[(u8, usize)],
) -> Result<(), Fail> {
    assert_eq!(rt; system.count(s), expected.len());
    for (k, transition) in expected.iter().enumerate() {
        let m = system
            .nth(s, k)
            .ok_or_else(|| Fail::new("too few transitions"))?;
        assert_eq!(rt; (m.0.code(), m.1), *transition);
    }
    assert!(rt; system.nth(s, expected.len()).is_none());
    Ok(())
}
