//! The rows of the table of control messages: the tag of each, which is its first element, and how
//! many elements it has. (ERTS User's Guide, Distribution Protocol, Protocol between Connected Nodes
//! and New Link Protocol.)

/// LINK is `{1, From, To}`.
pub const LINK: u64 = 1;
/// With its tag.
pub const LINK_ARITY: u32 = 3;

/// SEND is `{2, Unused, To}`, and a message follows it.
pub const SEND: u64 = 2;
/// With its tag.
pub const SEND_ARITY: u32 = 3;

/// REG_SEND is `{6, From, Unused, ToName}`, and a message follows it.
pub const REG_SEND: u64 = 6;
/// With its tag.
pub const REG_SEND_ARITY: u32 = 4;

/// EXIT is `{3, From, To, Reason}`.
pub const EXIT: u64 = 3;
/// With its tag.
pub const EXIT_ARITY: u32 = 4;

/// EXIT2 is `{8, From, To, Reason}`.
pub const EXIT2: u64 = 8;
/// With its tag.
pub const EXIT2_ARITY: u32 = 4;

/// MONITOR_P is `{19, From, To, Ref}`. To can be a registered name.
pub const MONITOR_P: u64 = 19;
/// With its tag.
pub const MONITOR_P_ARITY: u32 = 4;

/// DEMONITOR_P is `{20, From, To, Ref}`. To can be a registered name.
pub const DEMONITOR_P: u64 = 20;
/// With its tag.
pub const DEMONITOR_P_ARITY: u32 = 4;

/// MONITOR_P_EXIT is `{21, From, To, Ref, Reason}`. From can be a registered name.
pub const MONITOR_P_EXIT: u64 = 21;
/// With its tag.
pub const MONITOR_P_EXIT_ARITY: u32 = 5;

/// UNLINK_ID is `{35, Id, From, To}`.
pub const UNLINK_ID: u64 = 35;
/// With its tag.
pub const UNLINK_ID_ARITY: u32 = 4;

/// UNLINK_ID_ACK is `{36, Id, From, To}`.
pub const UNLINK_ID_ACK: u64 = 36;
/// With its tag.
pub const UNLINK_ID_ACK_ARITY: u32 = 4;

/// PAYLOAD_EXIT is `{24, From, To}`, and the reason follows it: the second spelling of EXIT.
pub const PAYLOAD_EXIT: u64 = 24;
/// With its tag.
pub const PAYLOAD_EXIT_ARITY: u32 = 3;

/// PAYLOAD_EXIT2 is `{26, From, To}`, and the reason follows it: the second spelling of EXIT2.
pub const PAYLOAD_EXIT2: u64 = 26;
/// With its tag.
pub const PAYLOAD_EXIT2_ARITY: u32 = 3;

/// PAYLOAD_MONITOR_P_EXIT is `{28, From, To, Ref}`, and the reason follows it: the second spelling
/// of MONITOR_P_EXIT.
pub const PAYLOAD_MONITOR_P_EXIT: u64 = 28;
/// With its tag.
pub const PAYLOAD_MONITOR_P_EXIT_ARITY: u32 = 4;
