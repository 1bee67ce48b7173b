//! A resource that passed its checks.
use xc_base::Text;
use xds_config::Value;

/// A resource that passed its checks. Its name is canonical.
#[derive(Debug, Drop)]
pub struct Checked {
    pub name: Text,
    pub value: Value,
}
