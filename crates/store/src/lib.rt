// Mount and format in code: each equal to its definition, on every input.
#![tactic(auto)]

mod mends;
mod mounts;

pub use mounts::{format, format_core, mount, mount_core};
