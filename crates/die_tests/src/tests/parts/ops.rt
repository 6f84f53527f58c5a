//! The codes of requests.
use promises::stream::Op;

const OPS: [(u8, Option<Op>); 8] = [
    (0, None),
    (1, Some(Op::Read)),
    (2, Some(Op::Write)),
    (3, Some(Op::Trim)),
    (4, Some(Op::Flush)),
    (5, Some(Op::Turn)),
    (6, None),
    (255, None),
];

#[test]
fn ops_have_their_codes(rt: HostRuntime) {
    for (code, op) in OPS {
        assert!(rt; Op::from_code(code) == op, "at {code}");
        if let Some(op) = op {
            assert!(rt; op.code() == code, "at {code}");
        }
    }
}
