// Threads share settings, and each of them owns the attributes of its requests.
use quota_settings::{Attributes, Settings};
use std::test::Fail;

fn needs_send<T: Send>() {}

fn needs_sync<T: Sync>() {}

#[test]
fn settings_cross_threads(_rt: HostRuntime) -> Result<(), Fail> {
    needs_send::<Settings>();
    needs_sync::<Settings>();
    needs_send::<Attributes>();
    Ok(())
}
