// The kinds of metrics.
ghost use Rattle.std.specs.Prelude.{◌≡◌};
ghost use Rattle.prometheus_text.specs.Text as spec;

/// The kind of a metric.
#[derive(Clone, Copy)]
pub enum Kind {
    /// A number that never falls while the process runs.
    Counter,
    /// A number that rises and falls.
    Gauge,
}

/// The kind, as a head line names it.
pub(crate) fn kind_word(kind: Kind) -> &'static str
    ensures { result.now ≡ spec.kind_word kind }
{
    match kind {
        Kind::Counter => "counter",
        Kind::Gauge => "gauge",
    }
}
