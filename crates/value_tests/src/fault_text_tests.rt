//! What faults print.
use header_match::PatternFault;
use std::test::Fail;
use weight_pick::WeightFault;
use xc_base::Text;
use xds_bootstrap::BootFault;

#[test]
fn faults_are_printed(rt: HostRuntime) -> Result<(), Fail> {
    let alloc = rt.alloc();
    let text = format!(in alloc; "{}, {}", WeightFault::OutOfRange, PatternFault::Refused)?;
    assert_eq!(rt;
        text.as_str(),
        "the sum of the weights is out of range, the pattern is refused"
    );
    let missing = BootFault::Missing(Text::from_str(alloc, "node")?);
    let text = format!(in alloc; "{missing}, {}", BootFault::NotJson)?;
    assert_eq!(rt; text.as_str(), "no node, not a JSON object");
    Ok(())
}
