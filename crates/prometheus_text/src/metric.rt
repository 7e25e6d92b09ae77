// The six metrics of rules.
ghost use Rattle.std.specs.Prelude.{◌≡◌};
ghost use Rattle.prometheus_text.specs.Metrics as spec;

use rule_stats::RuleNumbers;

/// A metric of rules, of which each stands for one of the six numbers of a rule.
#[derive(Clone, Copy)]
pub enum Metric {
    TotalHits,
    WithinLimit,
    NearLimit,
    OverLimit,
    OverLimitWithLocalCache,
    ShadowMode,
}

/// The metric's name, which envoyproxy/ratelimit's statistics have too.
pub(crate) fn name_of(metric: Metric) -> &'static str
    ensures { result.now ≡ spec.name_of metric }
{
    match metric {
        Metric::TotalHits => "ratelimit_service_rate_limit_total_hits",
        Metric::WithinLimit => "ratelimit_service_rate_limit_within_limit",
        Metric::NearLimit => "ratelimit_service_rate_limit_near_limit",
        Metric::OverLimit => "ratelimit_service_rate_limit_over_limit",
        Metric::OverLimitWithLocalCache => {
            "ratelimit_service_rate_limit_over_limit_with_local_cache"
        }
        Metric::ShadowMode => "ratelimit_service_rate_limit_shadow_mode",
    }
}

/// What it counts, in plain words.
pub(crate) fn help_of(metric: Metric) -> &'static str
    ensures { result.now ≡ spec.help_of metric }
{
    match metric {
        Metric::TotalHits => "Hits of the rule.",
        Metric::WithinLimit => "Hits with which the counter stood at most at the limit.",
        Metric::NearLimit => {
            "Hits within the limit with which the counter stood above four fifths of it."
        }
        Metric::OverLimit =>
            "Hits with which the counter stood above the limit, and hits that were not charged.",
        Metric::OverLimitWithLocalCache => {
            "Hits that were not charged, since the counter was seen above the limit."
        }
        Metric::ShadowMode => "Hits over the limit that a shadow rule let pass.",
    }
}

/// Its number among those of a rule.
pub(crate) fn number_of(metric: Metric, numbers: &RuleNumbers) -> u64
    ensures { result ≡ spec.number_of metric numbers.now }
{
    match metric {
        Metric::TotalHits => numbers.total,
        Metric::WithinLimit => numbers.within,
        Metric::NearLimit => numbers.near,
        Metric::OverLimit => numbers.over,
        Metric::OverLimitWithLocalCache => numbers.seen,
        Metric::ShadowMode => numbers.shadow,
    }
}
