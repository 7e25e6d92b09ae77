use proto_json::FormFault;
use quota_pools::read_pools;
use rate_types::refusals::{NO_LIFETIME, TWO_POOLS};
use std::test::Fail;

#[test]
fn pools_are_refused_at_their_places(rt: HostRuntime) -> Result<(), Fail> {
    let one =
        r#"{"bucketId":{"bucket":{"name":"b"}},"timeUnit":"DAY","assignmentTimeToLive":"1s"}"#;
    let twin = r#"{"bucketId":{"bucket":{"name":"b"}},"timeUnit":"DAY"}"#;
    let other =
        r#"{"bucketId":{"bucket":{"name":"c"}},"timeUnit":"DAY","assignmentTimeToLive":"0s"}"#;
    for (second, number) in [(twin, TWO_POOLS), (other, NO_LIFETIME)] {
        let text = format!(in rt.alloc(); r#"{{"domain":"q","pools":[{one},{second}]}}"#)?;
        let Err(FormFault::Refused(refused)) = read_pools(rt.alloc(), text.as_bytes()) else {
            return Err(Fail::new("a refusal"));
        };
        assert_eq!(rt; (refused.at.as_str(), refused.number), ("/pools/1", number));
    }
    Ok(())
}
