//! Choice by weight.
use weight_pick::{DropRule, Fraction, cumulate};
use xc_base::Text;

#[test]
fn weights_are_summed(rt: HostRuntime) {
    assert!(rt; cumulate(rt.alloc(), &[0, 1, 4_294_967_294]).is_ok());
}

#[test]
fn drop_rules_are_copied(rt: HostRuntime) {
    let rule = DropRule {
        category: Text::new(),
        fraction: Fraction { n: 1, of: 100 },
    };
    assert!(rt; rule.clone().is_ok());
}
