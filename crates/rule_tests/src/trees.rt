use descriptor_tree::Config;
use std::test::Fail;

fn is_shared<T: Send + Sync>(value: T) -> T {
    value
}

#[test]
fn a_configuration_is_shared_by_workers(rt: HostRuntime) -> Result<(), Fail> {
    match Config::build(rt.alloc(), Vec::new(rt.alloc())) {
        Ok(config) => assert_eq!(rt; is_shared(config).trees().len(), 0),
        Err(_) => assert!(rt; false),
    }
    Ok(())
}
