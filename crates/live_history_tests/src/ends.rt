//! Why talks end before their input does.

use crate::host::Host;
use devices::SendError;
use live_history::TalkError;
use sample_dumps::DUMPED;
use std::test::Fail;
use svn_dump::DumpError;
use svn_report::RunError;

const READY: &[u8] = b"ready 3\n\n";

#[test]
fn an_input_may_not_end_within_a_turn(rt: HostRuntime) {
    for input in [
        b"segments\t/b@3".as_slice(),
        b"piece 10",
        b"piece 10\nNode-path",
    ] {
        let (said, ended) = Host::usual().talk(&rt, rt.alloc(), DUMPED, input);
        assert!(rt; matches!(ended, Err(TalkError::Cut)));
        assert_eq!(rt; said.as_slice(), READY);
    }
}

#[test]
fn a_refused_piece_ends_a_talk(rt: HostRuntime) {
    let (said, ended) = Host::usual().talk(&rt, rt.alloc(), DUMPED, b"piece 6\nwrong\n");
    assert!(rt;
        matches!(
            ended,
            Err(TalkError::Run(RunError::Dump(DumpError::Refused { .. })))
        )
    );
    assert_eq!(rt; said.as_slice(), READY);
}

#[test]
fn a_failed_output_ends_a_talk(rt: HostRuntime) {
    let host = Host {
        most: 12,
        ..Host::usual()
    };
    let (said, ended) = host.talk(&rt, rt.alloc(), DUMPED, b"segments\t/b@3\n");
    assert!(rt; matches!(ended, Err(TalkError::Unsent(SendError { sent: 3 }))));
    assert_eq!(rt; said.as_slice(), b"ready 3\n\n#1 ".as_slice());
}
