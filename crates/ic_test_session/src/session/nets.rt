// Sessions with one net after the other.
use crate::session::running::{plain, run};
use ic_session::{Fault, MAX_READS, Mode, Status};
use std::alloc::Global;
use std::sync::Wait;
use std::test::Fail;
use std::thread::Threads;

/// A session that explains itself, and how it is to end with which text.
struct Nets {
    /// Whether it goes on behind a net that is refused.
    retries: bool,
    input: &'static [u8],
    status: Status,
    text: &'static [u8],
}

/// How such a session ends, and what is written.
fn session<R: Threads + Wait + Sync>(
    rt: &R,
    alloc: Global,
    retries: bool,
    input: &[u8],
    reads: u32,
) -> (Result<Status, Fault>, Vec<u8>) {
    let mode = Mode {
        explains: true,
        retries,
        ..plain(1)
    };
    let mut reader = input;
    let mut writer = Vec::new(alloc);
    let end = run(rt, alloc, mode, reads, &mut reader, &mut writer);
    (end, writer)
}

/// Whether the session ends so, with this text.
fn is_as_said<R: Threads + Wait + Sync>(rt: &R, alloc: Global, nets: &Nets) -> bool {
    let (end, written) = session(rt, alloc, nets.retries, nets.input, MAX_READS);
    end == Ok(nets.status) && written.as_slice() == nets.text
}

/// Events and marks of one net, and none of another; `new` at the end, and twice; another net that is refused; a refused net and
/// another behind it; the same where no net is to be typed again; a refused net without a bar.
const NETS: [Nets; 7] = [
    Nets {
        retries: false,
        input: b"G(x,a) = D(x,b);\n---\nfire 0 1\nmark m\nnew\nE = E;\n---\nmarks\njournal\nfire 0 1\nback m\n",
        status: Status::Ended,
        text: b"fired 0 1\nmarked m 1\nmarks 0\njournal 0\nfired 0 1\nrefused 41 no mark\n",
    },
    Nets {
        retries: false,
        input: b"---\nnew",
        status: Status::Ended,
        text: b"",
    },
    Nets {
        retries: true,
        input: b"---\n new \r\n---\nnew\nE = E;\n---\nactive\nquit\nnew\n",
        status: Status::Ended,
        text: b"active 1\n0 1\n",
    },
    Nets {
        retries: false,
        input: b"E = E;\n---\nactive\nnew\nE = ;\n---\nactive\n",
        status: Status::NetRefused,
        text: b"active 1\n0 1\nrefused 3 at 4\n",
    },
    Nets {
        retries: true,
        input: b"E = ;\n---\nE = E;\n---\nactive\n",
        status: Status::Ended,
        text: b"refused 3 at 4\nactive 1\n0 1\n",
    },
    Nets {
        retries: false,
        input: b"E = ;\n---\nE = E;\n---\nactive\n",
        status: Status::NetRefused,
        text: b"refused 3 at 4\n",
    },
    Nets {
        retries: true,
        input: b"E = ;\nE = E;\n",
        status: Status::NetRefused,
        text: b"refused 3 at 4\n",
    },
];

#[test]
fn another_net_comes_behind_new_or_a_refused_one(rt: HostRuntime) {
    for nets in &NETS {
        assert!(rt; is_as_said(&rt, rt.alloc(), nets));
    }
}

#[test]
fn a_list_takes_the_word_new(rt: HostRuntime) -> Result<(), Fail> {
    let input = b"E = E;\n---\nabsorb 1\nnew\nactive\n".as_slice();
    let (end, written) = session(&rt, rt.alloc(), false, input, MAX_READS);
    assert_eq!(rt; end, Ok(Status::Ended));
    assert!(rt; written.as_slice() == b"refused 40 command\nactive 1\n0 1\n".as_slice());
    Ok(())
}

#[test]
fn what_was_written_of_an_earlier_net_stays(rt: HostRuntime) {
    let (end, written) = session(
        &rt,
        rt.alloc(),
        false,
        b"E = E;\n---\nactive\nnew\nE = E;\n",
        1,
    );
    assert_eq!(rt; end, Err(Fault::Read));
    assert!(rt; written.as_slice() == b"active 1\n0 1\n".as_slice());
}
