// The parts of a record.
ghost use Rattle.std.specs.Prelude.{◌≡◌};

use rate_types::Seconds;
use reply_text::Record;

/// Its worker.
pub fn worker_of(rec: &Record) -> u32
    ensures { result ≡ rec.now.worker }
{
    rec.worker
}

/// Its moment.
pub fn moment_of(rec: &Record) -> Seconds
    ensures { result ≡ rec.now.moment }
{
    rec.moment
}

/// Its version.
pub fn version_of(rec: &Record) -> u32
    ensures { result ≡ rec.now.version }
{
    rec.version
}
