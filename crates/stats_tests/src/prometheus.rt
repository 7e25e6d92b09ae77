// The text that Prometheus reads.
use config_json::read_config;
use descriptor_tree::Config;
use prometheus_text::{labels_of, put_counter, put_gauge, put_metrics};
use rate_types::{Blob, Blobs};
use rule_stats::RuleNumbers;
use std::alloc::Global;
use std::test::Fail;

// Two files, of which the first has names that need an escape.
const FIRST: &str = r#"{"domain":"a \"b\"\\c\nd","descriptors":[
    {"key":"path","value":"/a\"b","rateLimit":{"requestsPerUnit":5,"unit":"MINUTE"},"descriptors":[
        {"key":"user","rateLimit":{"requestsPerUnit":5,"unit":"MINUTE"}},
        {"key":"user","value":"c:\\n","rateLimit":{"requestsPerUnit":5,"unit":"MINUTE"}}]},
    {"key":"grün","value":"ü*","rateLimit":{"requestsPerUnit":5,"unit":"MINUTE"}}]}"#;

const SECOND: &str =
    r#"{"domain":"plain","descriptors":[{"key":"k","value":"","descriptors":[{"key":"l"}]}]}"#;

// The configuration of these files.
fn config_of(alloc: Global, texts: &[&str]) -> Result<Config, Fail> {
    let mut files = Vec::new(alloc);
    for text in texts {
        files.push(Blob::of(Vec::from_slice(alloc, text.as_bytes())?))?;
    }
    match read_config(alloc, &Blobs::of(files)) {
        Ok(config) => Ok(config),
        Err(_) => Err("the configuration is refused".into()),
    }
}

// Numbers that differ, from one on.
fn numbers_from(first: u64) -> RuleNumbers {
    RuleNumbers {
        total: first,
        within: first.saturating_add(1),
        near: first.saturating_add(2),
        over: first.saturating_add(3),
        seen: first.saturating_add(4),
        shadow: first.saturating_add(5),
    }
}

#[test]
fn each_node_has_its_domain_and_its_path(rt: HostRuntime) -> Result<(), Fail> {
    let alloc = rt.alloc();
    let labels = labels_of(alloc, &config_of(alloc, &[FIRST, SECOND])?)?;
    const ROWS: &[(&str, &str)] = &[
        ("a \"b\"\\c\nd", "path_/a\"b"),
        ("a \"b\"\\c\nd", "path_/a\"b.user"),
        ("a \"b\"\\c\nd", "path_/a\"b.user_c:\\n"),
        ("a \"b\"\\c\nd", "grün_ü*"),
        ("plain", "k"),
        ("plain", "k.l"),
    ];
    assert_eq!(rt; labels.len(), ROWS.len());
    for row in 0..ROWS.len() {
        assert_eq!(rt; labels[row].domain.as_str(), ROWS[row].0);
        assert_eq!(rt; labels[row].path.as_str(), ROWS[row].1);
    }
    Ok(())
}

const EXPECTED: &str = r#"# HELP ratelimit_service_rate_limit_total_hits Hits of the rule.
# TYPE ratelimit_service_rate_limit_total_hits counter
ratelimit_service_rate_limit_total_hits{domain="a \"b\"\\c\nd",path="path_/a\"b"} 100
ratelimit_service_rate_limit_total_hits{domain="a \"b\"\\c\nd",path="path_/a\"b.user_c:\\n"} 9223372036854775808
ratelimit_service_rate_limit_total_hits{domain="a \"b\"\\c\nd",path="grün_ü*"} 1
# HELP ratelimit_service_rate_limit_within_limit Hits with which the counter stood at most at the limit.
# TYPE ratelimit_service_rate_limit_within_limit counter
ratelimit_service_rate_limit_within_limit{domain="a \"b\"\\c\nd",path="path_/a\"b"} 101
ratelimit_service_rate_limit_within_limit{domain="a \"b\"\\c\nd",path="path_/a\"b.user_c:\\n"} 9223372036854775809
ratelimit_service_rate_limit_within_limit{domain="a \"b\"\\c\nd",path="grün_ü*"} 2
# HELP ratelimit_service_rate_limit_near_limit Hits within the limit with which the counter stood above four fifths of it.
# TYPE ratelimit_service_rate_limit_near_limit counter
ratelimit_service_rate_limit_near_limit{domain="a \"b\"\\c\nd",path="path_/a\"b"} 102
ratelimit_service_rate_limit_near_limit{domain="a \"b\"\\c\nd",path="path_/a\"b.user_c:\\n"} 9223372036854775810
ratelimit_service_rate_limit_near_limit{domain="a \"b\"\\c\nd",path="grün_ü*"} 3
# HELP ratelimit_service_rate_limit_over_limit Hits with which the counter stood above the limit, and hits that were not charged.
# TYPE ratelimit_service_rate_limit_over_limit counter
ratelimit_service_rate_limit_over_limit{domain="a \"b\"\\c\nd",path="path_/a\"b"} 103
ratelimit_service_rate_limit_over_limit{domain="a \"b\"\\c\nd",path="path_/a\"b.user_c:\\n"} 9223372036854775811
ratelimit_service_rate_limit_over_limit{domain="a \"b\"\\c\nd",path="grün_ü*"} 4
# HELP ratelimit_service_rate_limit_over_limit_with_local_cache Hits that were not charged, since the counter was seen above the limit.
# TYPE ratelimit_service_rate_limit_over_limit_with_local_cache counter
ratelimit_service_rate_limit_over_limit_with_local_cache{domain="a \"b\"\\c\nd",path="path_/a\"b"} 104
ratelimit_service_rate_limit_over_limit_with_local_cache{domain="a \"b\"\\c\nd",path="path_/a\"b.user_c:\\n"} 9223372036854775812
ratelimit_service_rate_limit_over_limit_with_local_cache{domain="a \"b\"\\c\nd",path="grün_ü*"} 5
# HELP ratelimit_service_rate_limit_shadow_mode Hits over the limit that a shadow rule let pass.
# TYPE ratelimit_service_rate_limit_shadow_mode counter
ratelimit_service_rate_limit_shadow_mode{domain="a \"b\"\\c\nd",path="path_/a\"b"} 105
ratelimit_service_rate_limit_shadow_mode{domain="a \"b\"\\c\nd",path="path_/a\"b.user_c:\\n"} 9223372036854775813
ratelimit_service_rate_limit_shadow_mode{domain="a \"b\"\\c\nd",path="grün_ü*"} 6
"#;

#[test]
fn the_text_has_the_rules_that_counted_metric_by_metric(rt: HostRuntime) -> Result<(), Fail> {
    let alloc = rt.alloc();
    let labels = labels_of(alloc, &config_of(alloc, &[FIRST])?)?;
    let mut numbers = Vec::new(alloc);
    numbers.push(numbers_from(100))?;
    numbers.push(RuleNumbers::nothing())?;
    numbers.push(numbers_from(9_223_372_036_854_775_808))?;
    numbers.push(numbers_from(1))?;
    assert_eq!(rt; labels.len(), numbers.len());
    let mut text = String::new(alloc);
    put_metrics(&mut text, &labels, &numbers)?;
    assert_eq!(rt; text.as_str(), EXPECTED);
    Ok(())
}

#[test]
fn a_single_number_has_a_head_and_a_line(rt: HostRuntime) -> Result<(), Fail> {
    let mut text = String::new(rt.alloc());
    put_gauge(&mut text, "ratelimit_cells_in_use", "Cells in use.", 0)?;
    put_counter(
        &mut text,
        "ratelimit_connections_accepted",
        "Connections that were accepted.",
        18_446_744_073_709_551_615,
    )?;
    assert_eq!(rt;
        text.as_str(),
        "# HELP ratelimit_cells_in_use Cells in use.\n\
         # TYPE ratelimit_cells_in_use gauge\n\
         ratelimit_cells_in_use 0\n\
         # HELP ratelimit_connections_accepted Connections that were accepted.\n\
         # TYPE ratelimit_connections_accepted counter\n\
         ratelimit_connections_accepted 18446744073709551615\n"
    );
    Ok(())
}
