use rate_io::{Clock, FixedClock, HostClock};
use rate_types::Seconds;

#[test]
fn clocks_tell_the_time(rt: HostRuntime) {
    assert_eq!(rt; FixedClock::new(Seconds::capped(65)).now().get(), 65);
    let mut clock = HostClock::new(rt);
    let now = clock.now();
    let later = clock.now();
    assert!(rt; 1_700_000_000 < now.get() && now.get() <= later.get());
}
