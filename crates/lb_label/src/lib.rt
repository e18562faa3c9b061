//! Label-based access control by the rule set DB2LBACRULES: security label components, the components of a policy,
//! labels, exemptions, and label texts.
#![tactic(auto)]

mod access;
mod component;
mod exemption;
mod kind;
mod laws;
mod shape;
mod text;

pub use access::{Fail, grant_fits, read_fail, write_fail};
pub use component::{Component, ElementFault};
pub use exemption::Exempt;
pub use kind::{Access, ComponentKind};
pub use laws::parts_are_told_by_their_elements;
pub use shape::{COMPONENT_LIMIT, Shape, ShapeFault};
pub use text::{BadLabel, print_text, read_text};
