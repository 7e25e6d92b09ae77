// The numbers of refusals and the limits, compared with those that docs/FORMATS.md, the README and `--help` tell.
use rate_types::{limits, refusals};

const REFUSALS: &[(u32, u32)] = &[
    (refusals::BAD_JSON, 1),
    (refusals::NOT_OBJECT, 2),
    (refusals::UNKNOWN_FIELD, 3),
    (refusals::TWO_NAMES, 4),
    (refusals::WRONG_KIND, 5),
    (refusals::NUMBER_FORM, 6),
    (refusals::NUMBER_RANGE, 7),
    (refusals::UNKNOWN_NAME, 8),
    (refusals::NOT_BUILT, 9),
    (refusals::EMPTY_DOMAIN, 10),
    (refusals::TWO_DOMAINS, 11),
    (refusals::EMPTY_KEY, 12),
    (refusals::TWO_NODES, 13),
    (refusals::UNIT_MISSING, 14),
    (refusals::UNIT_WITH_UNLIMITED, 15),
    (refusals::TOO_DEEP, 16),
    (refusals::TOO_MANY_NODES, 17),
    (refusals::TEXT_TOO_LONG, 18),
    (refusals::REQUEST_EMPTY_DOMAIN, 20),
    (refusals::NO_DESCRIPTORS, 21),
    (refusals::TOO_MANY_DESCRIPTORS, 22),
    (refusals::NO_ENTRIES, 23),
    (refusals::REQUEST_EMPTY_KEY, 24),
    (refusals::TOO_MANY_ENTRIES, 25),
    (refusals::REQUEST_TEXT_TOO_LONG, 26),
    (refusals::NO_EVENT, 27),
    (refusals::TWO_EVENTS, 28),
    (refusals::SELF_REPLACE, 29),
    (refusals::TOO_MANY_REPLACES, 30),
    (refusals::INTERVAL_ZERO, 31),
    (refusals::NO_BUCKET_ID, 32),
    (refusals::PART_KIND, 33),
    (refusals::TWO_OF_ONE, 34),
    (refusals::NO_ACTION, 35),
    (refusals::NO_TIME, 36),
    (refusals::TOO_MANY_PARTS, 37),
    (refusals::TIME_BACK, 39),
    (refusals::BAD_DURATION, 40),
    (refusals::TOO_FINE, 41),
    (refusals::DURATION_TOO_LONG, 42),
    (refusals::NO_TOKENS, 44),
    (refusals::NO_FILL, 45),
    (refusals::FILL_ZERO, 46),
    (refusals::TIMEOUT_ZERO, 47),
    (refusals::TWO_POOLS, 48),
    (refusals::NO_LIFETIME, 49),
    (refusals::NO_CLIENT, 50),
    (refusals::OTHER_DOMAIN, 51),
];

const COUNTS: &[(u32, u32)] = &[
    (limits::MOST_LINES, 1_048_576),
    (limits::MOST_CELLS, 1_048_576),
    (limits::DEFAULT_CELLS, 262_144),
    (limits::MOST_HITS, 4_294_967_295),
    (limits::MOST_VERSIONS, 1_048_576),
    (limits::MOST_WORKERS, 64),
    (limits::DEFAULT_WORKERS, 4),
    (limits::MOST_CONNECTIONS, 1_048_576),
    (limits::MOST_CHECKS, 1_048_576),
    (limits::MOST_PASSES, 1_024),
    (limits::MOST_PINS, 32),
    (limits::DEEPEST_LEVEL, 32),
    (limits::MOST_NODES, 65_536),
];

const SIZES: &[(usize, usize)] = &[
    (limits::LONGEST_TEXT, 1_024),
    (limits::MOST_DESCRIPTORS, 32),
    (limits::MOST_ENTRIES, 32),
    (limits::MOST_REPLACED, 32),
    (limits::MOST_PARTS, 32),
];

const LARGE: &[(u64, u64)] = &[
    (limits::MOST_BYTES, 67_108_864),
    (limits::MOST_CLAIMS, 33_554_432),
    (limits::MOST_CLAIM_NUMBERS, 1_099_511_627_776),
    (limits::LATEST_MOMENT, 1_000_000_000_000),
    (limits::LONGEST_DURATION, 1_000_000_000),
];

#[test]
fn refusals_have_these_numbers(rt: HostRuntime) {
    assert_eq!(rt; REFUSALS.len(), 48);
    for &(number, want) in REFUSALS {
        assert_eq!(rt; number, want);
    }
}

#[test]
fn limits_are_these(rt: HostRuntime) {
    for &(limit, want) in COUNTS {
        assert_eq!(rt; limit, want);
    }
    for &(limit, want) in SIZES {
        assert_eq!(rt; limit, want);
    }
    for &(limit, want) in LARGE {
        assert_eq!(rt; limit, want);
    }
}
