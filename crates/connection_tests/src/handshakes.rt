//! The flags, and the laws of messages. The messages that are read and written are vectors.
use erl_handshake::{
    Flag, Flags, digests, flags_by_bits, one_answer, one_message, read_again, short_messages,
    written_is_shake,
};
use std::test::*;

/// The flags that each node offers.
const MANDATORY: u64 = 0x4_0305_010C;

/// Flags, each with true if a node has to offer it.
const FLAGS: &[(Flag, bool)] = &[
    (Flag::UnlinkId, true),
    (Flag::ExitPayload, false),
    (Flag::DistMonitorName, false),
];

#[test]
fn flags_have_names(rt: HostRuntime) {
    let mandatory = Flags::mandatory();
    assert!(rt; mandatory.bits() == MANDATORY && Flag::V4Nc.value() == 0x4_0000_0000);
    for (flag, is_mandatory) in FLAGS {
        assert!(rt; mandatory.offers(*flag) == *is_mandatory, "{flag:?}");
    }
}

/// More flags than the mandatory ones, some of no name, and one too few.
#[test]
fn flags_with_others(rt: HostRuntime) {
    let mandatory = Flags::mandatory();
    let more = Flags::from_bits(0xF_0FFF_FFFF_FFFF);
    assert!(rt; more.bits() == 0xF_0FFF_FFFF_FFFF);
    assert!(rt; more.has_all_of(mandatory) && !mandatory.has_all_of(more));
    let fewer = Flags::from_bits(0x4_0105_010C);
    assert!(rt; !fewer.has_all_of(mandatory) && mandatory.has_all_of(fewer));
    assert!(rt; fewer != mandatory);
}

/// The laws of messages, flags and digests.
#[test]
fn laws() {
    one_answer();
    one_message();
    read_again();
    short_messages();
    written_is_shake();
    flags_by_bits();
    digests();
}
