use crate::runs::{limits, run_out, script_of, transcript_of};
use rd_dialect::Line;
use rd_toy::Toy;
use std::test::Fail;

/// The callers' log-in, query and farewell go out once each, and the backend's replies to each caller as they are.
#[test]
fn calls_of_a_small_dialect(rt: HostRuntime) -> Result<(), Fail> {
    let alloc = rt.alloc();
    let pieces = [
        (2, "u me\n"),
        (0, "u me\n"),
        (1, "u me\n"),
        (3, "+hi\ny ok\n"),
        (1, "q 1\nx\n"),
        (0, "q 1\nx\n"),
        (2, "q 1\n"),
        (3, "= 1\n"),
        (2, "x\n"),
    ];
    let sends = [
        (3, 3, "u me\n"),
        (4, 0, "+hi\ny ok\n"),
        (4, 1, "+hi\ny ok\n"),
        (4, 2, "+hi\ny ok\n"),
        (7, 3, "q 1\n"),
        (8, 0, "= 1\n"),
        (8, 1, "= 1\n"),
        (8, 2, "= 1\n"),
        (9, 3, "x\n"),
    ];
    let script = script_of(alloc, "outgoing", &pieces, "")?;
    let want = transcript_of(alloc, &sends, "end Done\n")?;
    let text = run_out(alloc, Toy, limits(false, false), script.as_str())?;
    assert_eq!(rt; text.as_str(), want.as_str());
    Ok(())
}

/// The last call of eight, whether the call goes out, and the last line.
#[test]
fn eight_callers(rt: HostRuntime) -> Result<(), Fail> {
    let alloc = rt.alloc();
    for (last, agreed, ending) in [
        ("u me\n", true, "live\n"),
        ("u em\n", false, "end Disagree exchange 1 copy 7 place 2\n"),
    ] {
        let mut pieces = Vec::new(alloc);
        for link in 0..8 {
            pieces.push((link, if link == 7 { last } else { "u me\n" }))?;
        }
        let mut sends = Vec::new(alloc);
        if agreed {
            sends.push((8, 8, "u me\n"))?;
        }
        let script = script_of(alloc, "outgoing", pieces.as_slice(), "")?;
        let want = transcript_of(alloc, sends.as_slice(), ending)?;
        let text = run_out(alloc, Toy, limits(true, false), script.as_str())?;
        assert_eq!(rt; text.as_str(), want.as_str());
    }
    Ok(())
}

/// One exchange is all that there may be: what the third caller says next, and how the session ends.
#[test]
fn what_stands_behind_the_last_call(rt: HostRuntime) -> Result<(), Fail> {
    let alloc = rt.alloc();
    for (next, ending) in [
        ("q 1\nx ", "end Retired\n"),
        ("q 1\ny ", "end Disagree exchange 2 copy 2 place 0\n"),
        ("q 1\ny", "end Retired\n"),
    ] {
        let pieces = [(0, "q 1\nx "), (1, "q 1\nx "), (2, next), (3, "r\n")];
        let sends = [(3, 3, "q 1\n"), (4, 0, "r\n"), (4, 1, "r\n"), (4, 2, "r\n")];
        let script = script_of(alloc, "outgoing", &pieces, "")?;
        let want = transcript_of(alloc, &sends, ending)?;
        let text = run_out(alloc, Line, limits(false, true), script.as_str())?;
        assert_eq!(rt; text.as_str(), want.as_str());
    }
    Ok(())
}

/// The same of the small dialect, in whose next phase the second calls begin.
#[test]
fn a_call_that_differs_behind_the_last_one(rt: HostRuntime) -> Result<(), Fail> {
    let alloc = rt.alloc();
    for (next, ending) in [
        ("u me\nq x ", "end Retired\n"),
        ("u me\nq y ", "end Disagree exchange 2 copy 2 place 2\n"),
        ("u me\n!", "end Unsupported link 2 code 7\n"),
    ] {
        let pieces = [(0, "u me\nq x "), (1, "u me\nq x "), (2, next), (3, "y\n")];
        let sends = [
            (3, 3, "u me\n"),
            (4, 0, "y\n"),
            (4, 1, "y\n"),
            (4, 2, "y\n"),
        ];
        let script = script_of(alloc, "outgoing", &pieces, "")?;
        let want = transcript_of(alloc, &sends, ending)?;
        let text = run_out(alloc, Toy, limits(false, true), script.as_str())?;
        assert_eq!(rt; text.as_str(), want.as_str());
    }
    Ok(())
}
