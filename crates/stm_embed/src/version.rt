//! The version for C.

use stm_command_line::version::VERSION;

/// The version's bytes, and a byte 0.
#[repr(C)]
pub struct VersionText {
    pub bytes: [u8; VERSION.len() + 1],
}

/// The version that `stm_command_line` states: the contract of `stmdesk_version` says that they are the same.
pub static VERSION_TEXT: VersionText = VersionText {
    bytes: *b"0.30.0\0",
};
