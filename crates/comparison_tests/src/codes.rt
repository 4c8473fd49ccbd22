use actions::action::Action;
use actions::pair::ChannelPair;
use actions::renaming::Renaming;

#[test]
fn codes_at_the_limits(rt: HostRuntime) {
    for code in [0, 1, 4, 243] {
        assert!(rt; Action::from_code(code).is_some());
    }
    for code in [2, 3, 244, 65535] {
        assert!(rt; Action::from_code(code).is_none());
    }
}

#[test]
fn words_hold_channels_1_to_60(rt: HostRuntime) {
    assert!(rt; ChannelPair::new(2, 1 << 60).is_some());
    assert!(rt; ChannelPair::new(1, 0).is_none());
    assert!(rt; ChannelPair::new(0, 1 << 61).is_none());
    assert!(rt; Renaming::new(1, 60, 1).is_some());
    assert!(rt; Renaming::new(2, 1, 1).is_none());
    assert!(rt; Renaming::new(0, 0, 1).is_none());
    assert!(rt; Renaming::new(0, 1, 61).is_none());
}
