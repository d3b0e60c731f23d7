use ic_net::Net;
use ic_start::Start;
use ic_text::{print_net, read_net};
use std::alloc::Global;

/// The printed text of the net of a start.
fn printed(alloc: Global, start: &Start) -> Option<Vec<u8>> {
    let net = Net::of_start(alloc, start).ok()?;
    print_net(alloc, &net, start.names()).ok()
}

/// Whether the net of a text is printed so.
fn is_printed(alloc: Global, text: &[u8], wanted: &[u8]) -> Option<bool> {
    let start = read_net(alloc, text).ok()?;
    let found = printed(alloc, &start)?;
    Some(found.as_slice() == wanted)
}

/// Texts of nets, and how the nets are printed.
const PRINTED: [(&[u8], &[u8]); 6] = [
    (
        b"G(x,a) = D(x,b);",
        b"# agents 2 wires 4 rings 0\nG(_0,a) = _1;\nD(_0,b) = _1;\n",
    ),
    (
        b"x = x; y = y;",
        b"# agents 0 wires 0 rings 2\n_0 = _0;\n_1 = _1;\n",
    ),
    (
        b"z = y; b = a;",
        b"# agents 0 wires 2 rings 0\na = b;\ny = z;\n",
    ),
    (b"", b"# agents 0 wires 0 rings 0\n"),
    (
        b"@straight; G(a,b) = G(c,d);",
        b"# agents 2 wires 5 rings 0\n@straight;\nG(a,b) = _0;\nG(c,d) = _0;\n",
    ),
    (b"@straight;", b"# agents 0 wires 0 rings 0\n@straight;\n"),
];

#[test]
fn nets_are_printed(rt: HostRuntime) {
    for (text, wanted) in &PRINTED {
        assert_eq!(rt; is_printed(rt.alloc(), text, wanted), Some(true));
    }
}
