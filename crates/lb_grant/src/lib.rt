//! Grants and revokes, roles and SECADM authority: what each statement leaves.
#![tactic(auto)]

mod exemption;
mod holding;
mod label;
mod privilege;
mod role;
mod secadm;
mod user;

pub use exemption::{grant_exemption, revoke_exemption};
pub use label::{grant_label, revoke_label};
pub use privilege::{grant_privileges, revoke_privileges};
pub use role::{create_role, drop_role, grant_role, revoke_role};
pub use secadm::{grant_secadm, revoke_secadm};
