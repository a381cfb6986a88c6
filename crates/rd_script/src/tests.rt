ghost use Rattle.std.specs.Prelude.{◌<◌, length};

use crate::script::{Script, ScriptRefusal, read_script};
use crate::{generate, last_line, send_line};
use rd_base::{Ending, Link, Side, What, Which};
use std::alloc::Global;
use std::test::Fail;

/// The first bad line among three copies, 0 for a script.
fn bad_line(alloc: Global, text: &[u8]) -> Result<u32, ScriptRefusal> {
    match read_script(alloc, 3, text) {
        Ok(_) => Ok(0),
        Err(ScriptRefusal::BadLine(number)) => Ok(number),
        Err(ScriptRefusal::NoMemory) => Err(ScriptRefusal::NoMemory),
    }
}

#[test]
fn names_the_first_bad_line(rt: HostRuntime) -> Result<(), Fail> {
    let seventh =
        b"side incoming\n0 piece 3 6765\n5 piece 0 6f\n6 piece 1 6f\n7 piece 2 6f\n8 end 3\n9 piece 4 00\n";
    let cases = [
        (seventh.as_slice(), 7),
        (b"", 1),
        (b"\n", 1),
        (b"side incoming", 1),
        (b"side incoming ", 1),
        (b"side outgoing\n", 0),
        (b"side outgoing \n", 1),
        (b"side sideways\n", 1),
        (b"side  incoming\n", 1),
        (b"Side incoming\n", 1),
        (b"side incoming\r\n", 1),
        (b"0 end 3\n", 1),
        (b"\xff\xfe\n", 1),
        (b"side incoming\n", 0),
        (b"side incoming\n\n", 2),
        (b"side incoming\nside incoming\n", 2),
        (b"side incoming\n0 end 3", 2),
        (b"side incoming\n0 end 3\n0 end 2\n", 0),
        (b"side incoming\n0 end 3\n0 end 3\n", 3),
        (b"side incoming\n0 end 3\n0 piece 3 00\n", 3),
        (b"side incoming\n0 end 4\n", 2),
        (b"side incoming\n0 end 3 \n", 2),
        (b"side incoming\n 0 end 3\n", 2),
        (b"side incoming\n00 end 3\n", 2),
        (b"side incoming\n0 end 03\n", 2),
        (b"side incoming\n+1 end 3\n", 2),
        (b"side incoming\n-1 end 3\n", 2),
        (b"side incoming\n18446744073709551615 end 3\n", 0),
        (b"side incoming\n18446744073709551616 end 3\n", 2),
        (b"side incoming\n0 piece 3 0aff\n", 0),
        (b"side incoming\n0 piece 3 0AFF\n", 2),
        (b"side incoming\n0 piece 3 0af\n", 2),
        (b"side incoming\n0 piece 3 \n", 2),
        (b"side incoming\n0 piece 3\n", 2),
        (b"side incoming\n0 piece 3 0a 0a\n", 2),
        (b"side incoming\n0 piece 3 0g\n", 2),
        (b"side incoming\n0 end 4\n0 end 5\n", 2),
    ];
    for (text, line) in cases {
        assert_eq!(rt; bad_line(rt.alloc(), text)?, line, "{text:?}");
    }
    Ok(())
}

#[test]
fn names_a_bad_fault(rt: HostRuntime) -> Result<(), Fail> {
    let cases = [
        (b"side incoming\n0 readfail 3\n".as_slice(), 0),
        (b"side outgoing\n0 readfail 0\n", 0),
        (b"side incoming\n0 readfail 4\n", 2),
        (b"side incoming\n0 readfail 00\n", 2),
        (b"side incoming\n0 readfail\n", 2),
        (b"side incoming\n0 readfail \n", 2),
        (b"side incoming\n0 readfail 0 0\n", 2),
        (b"side incoming\n0 writefail 3\n", 0),
        (b"side incoming\n0 writefail 4\n", 2),
        (b"side incoming\n0 writefail\n", 2),
        (b"side incoming\n0 writefail 0 00\n", 2),
        (b"side incoming\n0 readfail 3\n0 readfail 3\n", 3),
        (b"side incoming\n0 readfail 3\n0 end 3\n", 3),
        (b"side incoming\n0 readfail 3\n0 piece 3 00\n", 3),
        (b"side incoming\n0 end 3\n0 readfail 3\n", 3),
        (b"side incoming\n0 end 3\n0 writefail 3\n", 0),
        (b"side incoming\n0 readfail 3\n0 writefail 3\n", 0),
        (
            b"side incoming\n0 writefail 3\n0 writefail 3\n0 piece 3 00\n",
            0,
        ),
    ];
    for (text, line) in cases {
        assert_eq!(rt; bad_line(rt.alloc(), text)?, line, "{text:?}");
    }
    Ok(())
}

#[test]
fn names_a_bad_look_or_stop(rt: HostRuntime) -> Result<(), Fail> {
    let cases = [
        (b"side incoming\n0 timer\n".as_slice(), 0),
        (b"side outgoing\n18446744073709551615 timer\n", 0),
        (b"side incoming\n18446744073709551616 timer\n", 2),
        (b"side incoming\n01 timer\n", 2),
        (b"side incoming\n0 timer \n", 2),
        (b"side incoming\n0 timer 0\n", 2),
        (b"side incoming\n0 Timer\n", 2),
        (b"side incoming\ntimer\n", 2),
        (b"side incoming\n0 stop\n0 stop\n", 0),
        (b"side incoming\n0 stop 3\n", 2),
        (b"side incoming\n0 stops\n", 2),
        (b"side incoming\n0 pause\n", 2),
        (b"side incoming\n0 timer", 2),
    ];
    for (text, line) in cases {
        assert_eq!(rt; bad_line(rt.alloc(), text)?, line, "{text:?}");
    }
    Ok(())
}

/// The first bad line among three copies, 0 for a script, where these lines follow `side incoming`.
fn bad_told_line(alloc: Global, lines: &str) -> Result<u32, Fail> {
    let text = format!(in alloc; "side incoming\n{lines}")?;
    Ok(bad_line(alloc, text.as_bytes())?)
}

#[test]
fn names_a_bad_row(rt: HostRuntime) -> Result<(), Fail> {
    let cases = [
        (
            "told 61616161616161616161616161616161 62626262626262626262626262626262 63636363636363636363636363636363\n0 stop\n",
            0,
        ),
        (
            "told 62626262626262626262626262626262 61616161616161616161616161616161 61616161616161616161616161616161\n0 stop\n",
            0,
        ),
        (
            "told 61616161616161616161616161616161 62626262626262626262626262626262\n0 stop\n",
            2,
        ),
        (
            "told 61616161616161616161616161616161 62626262626262626262626262626262 63636363636363636363636363636363 61616161616161616161616161616161\n0 stop\n",
            2,
        ),
        (
            "told 61616161616161616161616161616161 62626262626262626262626262626262 63636363636363636363636363636363 \n0 stop\n",
            2,
        ),
        (
            "told  61616161616161616161616161616161 62626262626262626262626262626262 63636363636363636363636363636363\n0 stop\n",
            2,
        ),
        (
            "told 61616161616161616161616161616161 62626262626262626262626262626262 3c3c3c3c3c3c3c3c3c3c3c3c3c3c3c3c\n0 stop\n",
            2,
        ),
        (
            "told 61616161616161616161616161616161 62626262626262626262626262626262 4D4D4D4D4D4D4D4D4D4D4D4D4D4D4D4D\n0 stop\n",
            2,
        ),
        (
            "told 61616161616161616161616161616161 62626262626262626262626262626262 636363636363636363636363636363\n0 stop\n",
            2,
        ),
        (
            "told 61616161616161616161616161616161 6262626262626262626262626262626 63636363636363636363636363636363\n0 stop\n",
            2,
        ),
        ("told\n0 stop\n", 2),
        ("told \n0 stop\n", 2),
        (
            "0 told 61616161616161616161616161616161 62626262626262626262626262626262 63636363636363636363636363636363\n0 stop\n",
            2,
        ),
        (
            "Told 61616161616161616161616161616161 62626262626262626262626262626262 63636363636363636363636363636363\n0 stop\n",
            2,
        ),
    ];
    for (lines, number) in cases {
        assert_eq!(rt; bad_told_line(rt.alloc(), lines)?, number, "{lines}");
    }
    Ok(())
}

#[test]
fn names_a_row_that_no_happening_follows(rt: HostRuntime) -> Result<(), Fail> {
    let cases = [
        (
            "told 61616161616161616161616161616161 62626262626262626262626262626262 63636363636363636363636363636363\n",
            2,
        ),
        (
            "told 61616161616161616161616161616161 62626262626262626262626262626262 63636363636363636363636363636363\ntold 62626262626262626262626262626262 61616161616161616161616161616161 63636363636363636363636363636363\n",
            2,
        ),
        (
            "0 stop\ntold 61616161616161616161616161616161 62626262626262626262626262626262 63636363636363636363636363636363\ntold 62626262626262626262626262626262 61616161616161616161616161616161 63636363636363636363636363636363\ntold 63636363636363636363636363636363 61616161616161616161616161616161 62626262626262626262626262626262\n",
            3,
        ),
        (
            "told 61616161616161616161616161616161 62626262626262626262626262626262 63636363636363636363636363636363\n0 stop\ntold 61616161616161616161616161616161 62626262626262626262626262626262 63636363636363636363636363636363\n",
            4,
        ),
        (
            "told 61616161616161616161616161616161 62626262626262626262626262626262 63636363636363636363636363636363\n0 stop 3\n",
            3,
        ),
        (
            "told 61616161616161616161616161616161 62626262626262626262626262626262 63636363636363636363636363636363\n\n",
            3,
        ),
        (
            "told 61616161616161616161616161616161 62626262626262626262626262626262 63636363636363636363636363636363\n0 stop",
            3,
        ),
        (
            "told 61616161616161616161616161616161 62626262626262626262626262626262 63636363636363636363636363636363\ntold 61616161616161616161616161616161 62626262626262626262626262626262 63636363636363636363636363636363",
            3,
        ),
        (
            "told 61616161616161616161616161616161 62626262626262626262626262626262 63636363636363636363636363636363",
            2,
        ),
    ];
    for (lines, number) in cases {
        assert_eq!(rt; bad_told_line(rt.alloc(), lines)?, number, "{lines}");
    }
    Ok(())
}

#[test]
fn refuses_a_row_on_the_outgoing_side(rt: HostRuntime) -> Result<(), Fail> {
    let text =
        b"side outgoing\n0 timer\ntold 61616161616161616161616161616161 62626262626262626262626262626262 63636363636363636363636363636363\n0 stop\n";
    assert_eq!(rt; bad_line(rt.alloc(), text)?, 3);
    Ok(())
}

#[test]
fn reads_rows_of_the_longest_words(rt: HostRuntime) -> Result<(), Fail> {
    let long = "61".repeat(rt.alloc(), 128)?;
    let text = format!(in rt.alloc(); "told {long} {long} {long}\n0 stop\n")?;
    assert_eq!(rt; bad_told_line(rt.alloc(), text.as_str())?, 0);
    let longer = format!(in rt.alloc(); "told {long} {long}61 {long}\n0 stop\n")?;
    assert_eq!(rt; bad_told_line(rt.alloc(), longer.as_str())?, 2);
    Ok(())
}

/// Copy `copy`'s word in the row in a place of those told to a happening; no bytes where there is none.
fn told_word(script: &Script, happening: usize, place: usize, copy: u8) -> &[u8]
    requires { happening < length script.now.entries }
{
    let rows = script.told(happening);
    if place < rows.len() && copy < rows.at(place).len() {
        rows.at(place).own(copy)
    } else {
        &[]
    }
}

#[test]
fn reads_rows(rt: HostRuntime) -> Result<(), Fail> {
    let text =
        b"side incoming\n0 timer\ntold 61616161616161616161616161616161 62626262626262626262626262626262 63636363636363636363636363636363\ntold 63636363636363636363636363636363 61616161616161616161616161616161 62626262626262626262626262626262\n7 stop\n";
    let script = read_script(rt.alloc(), 3, text)?;
    assert_eq!(rt; script.len(), 2);
    let a = b"aaaaaaaaaaaaaaaa".as_slice();
    let b = b"bbbbbbbbbbbbbbbb".as_slice();
    assert_eq!(rt; script.told(0).len(), 0);
    assert_eq!(rt; script.told(1).len(), 2);
    assert_eq!(rt; told_word(&script, 1, 0, 1), b);
    assert_eq!(rt; told_word(&script, 1, 1, 1), a);
    assert_eq!(rt; script.happening(1).at, 7);
    Ok(())
}

fn is_piece(what: &What, link: u8, text: &str) -> bool {
    match what {
        What::Piece(of, bytes) => of.0 == link && bytes.as_slice() == text.as_bytes(),
        _ => false,
    }
}

#[test]
fn generates_two_exchanges(rt: HostRuntime) -> Result<(), Fail> {
    let pieces = [
        (3, "get 1\n"),
        (1, "1 59559187 000000005955"),
        (1, "9188\n"),
        (2, "1 59559187 000000005955"),
        (2, "9189\n"),
        (0, "1 59559187 000000005955"),
        (0, "9187\n"),
        (3, "get 2 0000000059559187\n"),
        (2, "2 1495354192 000000149"),
        (2, "5354194\n"),
        (0, "2 1495354192 000000149"),
        (0, "5354192\n"),
        (1, "2 1495354192 000000149"),
        (1, "5354193\n"),
    ];
    let script = generate(rt.alloc(), 3, 2)?;
    assert_eq!(rt; script.len(), 15);
    for (place, (link, text)) in pieces.iter().enumerate() {
        assert!(rt;
            is_piece(&script.happening(place).what, *link, text),
            "{place}"
        );
    }
    assert!(rt; matches!(&script.happening(14).what, What::End(Link(3))));
    Ok(())
}

#[test]
fn generates_as_many_happenings(rt: HostRuntime) -> Result<(), Fail> {
    let cases = [
        (3, 1, 5),
        (8, 2, 35),
        (5, 3, 34),
        (4, 7, 60),
        (3, 20, 141),
        (8, 100, 1685),
    ];
    for (copies, number, happenings) in cases {
        assert_eq!(rt;
            generate(rt.alloc(), copies, number)?.len(),
            happenings,
            "{copies} {number}"
        );
    }
    Ok(())
}

#[test]
fn reads_a_script(rt: HostRuntime) -> Result<(), Fail> {
    let text = b"side incoming\n0 piece 3 67657420610a\n5 end 0\n";
    let script = read_script(rt.alloc(), 3, text)?;
    assert_eq!(rt; script.side(), Side::Incoming);
    assert_eq!(rt; script.len(), 2);
    let first = script.happening(0);
    assert_eq!(rt; first.at, 0);
    match &first.what {
        What::Piece(link, bytes) => {
            assert_eq!(rt; *link, Link(3));
            assert_eq!(rt; bytes.as_slice(), b"get a\n".as_slice());
        }
        _ => assert!(rt; false),
    }
    let second = script.happening(1);
    assert_eq!(rt; second.at, 5);
    assert!(rt; matches!(&second.what, What::End(Link(0))));
    Ok(())
}

#[test]
fn prints_the_lines_of_a_transcript(rt: HostRuntime) -> Result<(), Fail> {
    let sent = send_line(rt.alloc(), 4, Link(3), b"ok 1\n")?;
    assert_eq!(rt; sent.as_str(), "4 to 3 6f6b20310a\n");
    let live = last_line(rt.alloc(), None)?;
    assert_eq!(rt; live.as_str(), "live\n");
    let cases = [
        (Ending::Done, "end Done\n"),
        (Ending::Retired, "end Retired\n"),
        (Ending::Stopped, "end Stopped\n"),
        (Ending::FullLog, "end FullLog\n"),
        (Ending::Closed { link: Link(2) }, "end Closed link 2\n"),
        (
            Ending::Malformed { link: Link(3) },
            "end Malformed link 3\n",
        ),
        (Ending::TooBig { link: Link(3) }, "end TooBig link 3\n"),
        (
            Ending::Unsolicited { link: Link(2) },
            "end Unsolicited link 2\n",
        ),
        (Ending::Broken { link: Link(0) }, "end Broken link 0\n"),
        (
            Ending::LinkFault { link: Link(1) },
            "end LinkFault link 1\n",
        ),
        (
            Ending::Disagree {
                exchange: 1,
                copy: 2,
                place: 4,
            },
            "end Disagree exchange 1 copy 2 place 4\n",
        ),
        (
            Ending::Noise {
                exchange: 1,
                place: 128,
            },
            "end Noise exchange 1 place 128\n",
        ),
        (
            Ending::Unsupported {
                link: Link(0),
                code: 10,
            },
            "end Unsupported link 0 code 10\n",
        ),
        (Ending::Late { which: Which::Idle }, "end Late Idle\n"),
        (
            Ending::Late {
                which: Which::Request,
            },
            "end Late Request\n",
        ),
        (
            Ending::Late {
                which: Which::Gather,
            },
            "end Late Gather\n",
        ),
        (
            Ending::Late {
                which: Which::Reply,
            },
            "end Late Reply\n",
        ),
    ];
    for (ending, line) in cases {
        let printed = last_line(rt.alloc(), Some(ending))?;
        assert_eq!(rt; printed.as_str(), line);
    }
    Ok(())
}
