use crate::runs::{limits, run_in, script_of, transcript_of};
use rd_dialect::Line;
use rd_toy::Toy;
use std::test::Fail;

const LOGGED_IN: [(u8, &str); 4] = [
    (3, "u me\n"),
    (0, "+hi\ny ok\n"),
    (1, "+hi\ny ok\n"),
    (2, "+hi\ny ok\n"),
];

const LOG_IN_SENT: [(u32, u8, &str); 4] = [
    (1, 0, "u me\n"),
    (1, 1, "u me\n"),
    (1, 2, "u me\n"),
    (4, 3, "y ok\n"),
];

/// Early lines aren't shown. A query follows in the next phase, and a farewell ends the session.
#[test]
fn two_phases_and_a_farewell(rt: HostRuntime) -> Result<(), Fail> {
    let alloc = rt.alloc();
    let mut pieces = Vec::from_slice(alloc, &LOGGED_IN)?;
    for piece in [
        (3, "q 1\n"),
        (0, "= 1\n"),
        (2, "= 1\n"),
        (1, "= 1\n"),
        (3, "x\n"),
    ] {
        pieces.push(piece)?;
    }
    let mut sends = Vec::from_slice(alloc, &LOG_IN_SENT)?;
    for send in [
        (5, 0, "q 1\n"),
        (5, 1, "q 1\n"),
        (5, 2, "q 1\n"),
        (8, 3, "= 1\n"),
        (9, 0, "x\n"),
        (9, 1, "x\n"),
        (9, 2, "x\n"),
    ] {
        sends.push(send)?;
    }
    let script = script_of(alloc, "incoming", pieces.as_slice(), "")?;
    let want = transcript_of(alloc, sends.as_slice(), "end Done\n")?;
    let text = run_in(alloc, Toy, limits(false, false), script.as_str())?;
    assert_eq!(rt; text.as_str(), want.as_str());
    Ok(())
}

/// What the client says behind its farewell, in one piece with it, and how the session then ends.
#[test]
fn a_byte_behind_a_farewell(rt: HostRuntime) -> Result<(), Fail> {
    let alloc = rt.alloc();
    for (last, ending) in [("x\n", "end Done\n"), ("x\nq", "end Malformed link 3\n")] {
        let mut pieces = Vec::from_slice(alloc, &LOGGED_IN)?;
        pieces.push((3, last))?;
        let mut sends = Vec::from_slice(alloc, &LOG_IN_SENT)?;
        for link in 0..3 {
            sends.push((5, link, "x\n"))?;
        }
        let script = script_of(alloc, "incoming", pieces.as_slice(), "")?;
        let want = transcript_of(alloc, sends.as_slice(), ending)?;
        let text = run_in(alloc, Toy, limits(false, false), script.as_str())?;
        assert_eq!(rt; text.as_str(), want.as_str());
    }
    Ok(())
}

/// One exchange is all that there may be. What stands behind its request is still looked at before that ends the session.
#[test]
fn what_stands_behind_the_last_request(rt: HostRuntime) -> Result<(), Fail> {
    let alloc = rt.alloc();
    for (first, ending) in [
        ("u me\n", "end Retired\n"),
        ("u me\n!", "end Unsupported link 3 code 7\n"),
        ("u me\n#", "end TooBig link 3\n"),
        ("u me\n?", "end Malformed link 3\n"),
        ("u me\nq", "end Retired\n"),
    ] {
        let mut pieces = Vec::from_slice(alloc, &[(3, first)])?;
        for link in 0..3 {
            pieces.push((link, "+hi\ny ok\n"))?;
        }
        let script = script_of(alloc, "incoming", pieces.as_slice(), "")?;
        let want = transcript_of(alloc, &LOG_IN_SENT, ending)?;
        let text = run_in(alloc, Toy, limits(false, true), script.as_str())?;
        assert_eq!(rt; text.as_str(), want.as_str());
    }
    Ok(())
}

/// A reply that is read until its link ends is whole in the step of the last end.
#[test]
fn a_reply_until_its_link_ends(rt: HostRuntime) -> Result<(), Fail> {
    let alloc = rt.alloc();
    let mut pieces = Vec::from_slice(alloc, &LOGGED_IN)?;
    for piece in [(3, "r all\n"), (0, "abc"), (1, "abc"), (2, "abc")] {
        pieces.push(piece)?;
    }
    let mut sends = Vec::from_slice(alloc, &LOG_IN_SENT)?;
    for link in 0..3 {
        sends.push((5, link, "r all\n"))?;
    }
    let open = script_of(alloc, "incoming", pieces.as_slice(), "0 end 0\n0 end 2\n")?;
    let still = transcript_of(alloc, sends.as_slice(), "live\n")?;
    let before = run_in(alloc, Toy, limits(false, false), open.as_str())?;
    assert_eq!(rt; before.as_str(), still.as_str());
    sends.push((11, 3, "abc"))?;
    let over = script_of(
        alloc,
        "incoming",
        pieces.as_slice(),
        "0 end 0\n0 end 2\n0 end 1\n",
    )?;
    let want = transcript_of(alloc, sends.as_slice(), "end Closed link 0\n")?;
    let after = run_in(alloc, Toy, limits(false, false), over.as_str())?;
    assert_eq!(rt; after.as_str(), want.as_str());
    Ok(())
}

/// What each instance says before it is asked is the front of its next reply.
#[test]
fn lines_before_a_request_are_no_trouble(rt: HostRuntime) -> Result<(), Fail> {
    let alloc = rt.alloc();
    let pieces = [
        (0, "+m\n"),
        (2, "+m\n"),
        (1, "+m\n"),
        (3, "u me\n"),
        (0, "y\n"),
        (1, "y\n"),
        (2, "y\n"),
    ];
    let sends = [
        (4, 0, "u me\n"),
        (4, 1, "u me\n"),
        (4, 2, "u me\n"),
        (7, 3, "y\n"),
    ];
    let script = script_of(alloc, "incoming", &pieces, "")?;
    let want = transcript_of(alloc, &sends, "live\n")?;
    let text = run_in(alloc, Toy, limits(false, false), script.as_str())?;
    assert_eq!(rt; text.as_str(), want.as_str());
    Ok(())
}

/// The first reply to a log-in, and how the session then ends.
#[test]
fn replies_that_are_refused(rt: HostRuntime) -> Result<(), Fail> {
    let alloc = rt.alloc();
    for (reply, ending) in [
        ("!", "end Unsupported link 1 code 9\n"),
        ("#", "end TooBig link 1\n"),
        ("z", "end Malformed link 1\n"),
        ("y", "live\n"),
    ] {
        let script = script_of(alloc, "incoming", &[(3, "u me\n"), (1, reply)], "")?;
        let sends = [(1, 0, "u me\n"), (1, 1, "u me\n"), (1, 2, "u me\n")];
        let want = transcript_of(alloc, &sends, ending)?;
        let text = run_in(alloc, Toy, limits(false, false), script.as_str())?;
        assert_eq!(rt; text.as_str(), want.as_str());
    }
    Ok(())
}

/// The last reply of eight, whether it is shown, and the last line.
#[test]
fn eight_instances(rt: HostRuntime) -> Result<(), Fail> {
    let alloc = rt.alloc();
    for (last, agreed, ending) in [
        ("y ok\n", true, "live\n"),
        ("y ko\n", false, "end Disagree exchange 1 copy 7 place 2\n"),
    ] {
        let mut pieces = Vec::from_slice(alloc, &[(8, "u me\n")])?;
        let mut sends = Vec::new(alloc);
        for link in 0..8 {
            pieces.push((link, if link == 7 { last } else { "y ok\n" }))?;
            sends.push((1, link, "u me\n"))?;
        }
        if agreed {
            sends.push((9, 8, "y ok\n"))?;
        }
        let script = script_of(alloc, "incoming", pieces.as_slice(), "")?;
        let want = transcript_of(alloc, sends.as_slice(), ending)?;
        let text = run_in(alloc, Toy, limits(true, false), script.as_str())?;
        assert_eq!(rt; text.as_str(), want.as_str());
    }
    Ok(())
}

/// Plain lines, with one exchange for a session.
#[test]
fn a_session_of_one_exchange(rt: HostRuntime) -> Result<(), Fail> {
    let alloc = rt.alloc();
    let pieces = [(3, "get a\n"), (0, "ok\n"), (1, "ok\n"), (2, "ok\n")];
    let sends = [
        (1, 0, "get a\n"),
        (1, 1, "get a\n"),
        (1, 2, "get a\n"),
        (4, 3, "ok\n"),
    ];
    let script = script_of(alloc, "incoming", &pieces, "0 stop\n")?;
    let want = transcript_of(alloc, &sends, "end Retired\n")?;
    let text = run_in(alloc, Line, limits(false, true), script.as_str())?;
    assert_eq!(rt; text.as_str(), want.as_str());
    Ok(())
}
