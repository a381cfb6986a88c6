use crate::replay::replay_main;
use rd_base::{MemFiles, MemSink, PushFault};
use std::alloc::{AllocError, Global};
use std::test::Fail;

/// What a run came to.
#[derive(Drop)]
pub struct Answer {
    pub status: u8,
    pub text: String,
    pub read_faults: u64,
    pub write_faults: u64,
}

fn words_of(alloc: Global, words: &[&str]) -> Result<Vec<String>, AllocError> {
    let mut all = Vec::new(alloc);
    for word in words {
        all.push(word.to_string(alloc)?)?;
    }
    Ok(all)
}

fn text_of(alloc: Global, bytes: &[u8]) -> Result<String, Fail> {
    let text = str::from_utf8(bytes)?;
    Ok(text.to_string(alloc)?)
}

/// The answer to these words over these files, and an output of which these pushes fail.
pub fn answer_to(
    alloc: Global,
    words: &[&str],
    named: &[(&str, &str)],
    failing: Vec<PushFault>,
) -> Result<Answer, Fail> {
    let words = words_of(alloc, words)?;
    let mut files = MemFiles::new(alloc, Vec::new(alloc));
    for (name, text) in named {
        files.add(name, text.as_bytes())?;
    }
    let mut out = MemSink::new(alloc, 0, 0, failing);
    let status = replay_main(alloc, words.as_slice(), &mut files, &mut out);
    Ok(Answer {
        status,
        text: text_of(alloc, out.as_slice())?,
        read_faults: files.faults(),
        write_faults: out.faults(),
    })
}

/// What a replay of a script comes to.
fn replayed(alloc: Global, script: &str) -> Result<Answer, Fail> {
    answer_to(alloc, &["replay", "s"], &[("s", script)], Vec::new(alloc))
}

/// A script of a client's session of these pieces, all at moment 0.
pub fn script_of(alloc: Global, pieces: &[(u8, &str)]) -> Result<String, AllocError> {
    script_on(alloc, "incoming", pieces)
}

fn script_on(alloc: Global, side: &str, pieces: &[(u8, &str)]) -> Result<String, AllocError> {
    let mut script = format!(in alloc; "side {side}\n")?;
    for (link, text) in pieces {
        let hex = hex::encode(alloc, text.as_bytes())?;
        let line = format!(in alloc; "0 piece {link} {hex}\n")?;
        script.push_str(line.as_str())?;
    }
    Ok(script)
}

/// A transcript of these sends, which ends by this line.
pub fn transcript_of(
    alloc: Global,
    sends: &[(u32, u8, &str)],
    last: &str,
) -> Result<String, AllocError> {
    let mut text = String::new(alloc);
    for (step, link, bytes) in sends {
        let hex = hex::encode(alloc, bytes.as_bytes())?;
        let line = format!(in alloc; "{step} to {link} {hex}\n")?;
        text.push_str(line.as_str())?;
    }
    text.push_str(last)?;
    Ok(text)
}

pub const THREE_EQUAL: &str = "side incoming
0 piece 3 67657420610a
5 piece 0 6f6b20310a
6 piece 1 6f6b20310a
7 piece 2 6f6b20310a
";

pub const REQUESTS: &str = "1 to 0 67657420610a\n1 to 1 67657420610a\n1 to 2 67657420610a\n";

/// What follows row three equal replies in a script, what follows the client's reply in the transcript, and the status.
#[test]
fn three_equal_replies_go_out_once(rt: HostRuntime) -> Result<(), Fail> {
    let alloc = rt.alloc();
    let cases = [
        ("", "live\n", 0),
        // a byte that nobody asked for
        ("8 piece 2 58\n", "end Unsolicited link 2\n", 1),
        ("9 end 2\n", "end Closed link 2\n", 0),
        ("9 end 3\n", "end Done\n", 0),
    ];
    for (more, last, status) in cases {
        let script = format!(in alloc; "{THREE_EQUAL}{more}")?;
        let want = format!(in alloc; "{REQUESTS}4 to 3 6f6b20310a\n{last}")?;
        let run = replayed(alloc, script.as_str())?;
        assert_eq!(rt; run.text.as_str(), want.as_str());
        assert_eq!(rt; run.status, status);
    }
    Ok(())
}

/// The request `get a`, and a reply of each copy: the client's send in step 4, if any, the last line and the status.
#[test]
fn replies_agree_or_end_the_session(rt: HostRuntime) -> Result<(), Fail> {
    let alloc = rt.alloc();
    let zeros = "id 00000000000000000000000000000000 ok\n";
    let ones = "id 11111111111111111111111111111111 ok\n";
    let twos = "id 22222222222222222222222222222222 ok\n";
    let no = "id 22222222222222222222222222222222 no\n";
    let cases = [
        // a masked word
        (zeros, ones, twos, true, "live\n", 0),
        // another word beside it differs in the third copy
        (
            zeros,
            ones,
            no,
            false,
            "end Disagree exchange 1 copy 2 place 4\n",
            1,
        ),
        // a byte that is in no word is never masked
        (
            "a:b\n",
            "a;b\n",
            "a:b\n",
            false,
            "end Disagree exchange 1 copy 1 place 1\n",
            1,
        ),
        // a token more
        (
            "ok\n",
            "ok\n",
            "ok 1\n",
            false,
            "end Disagree exchange 1 copy 2 place 1\n",
            1,
        ),
        // a byte behind a reply, in the piece that ends it
        (
            "ok 1\n",
            "ok 1\n",
            "ok 1\nX",
            false,
            "end Unsolicited link 2\n",
            1,
        ),
    ];
    for (first, second, third, agreed, last, status) in cases {
        let script = script_of(
            alloc,
            &[(3, "get a\n"), (0, first), (1, second), (2, third)],
        )?;
        let mut want = REQUESTS.to_string(alloc)?;
        if agreed {
            want.push_str(transcript_of(alloc, &[(4, 3, first)], "")?.as_str())?;
        }
        want.push_str(last)?;
        let run = replayed(alloc, script.as_str())?;
        assert_eq!(rt; run.text.as_str(), want.as_str());
        assert_eq!(rt; run.status, status);
    }
    Ok(())
}

/// A copy's reply of so many words, joined by single spaces: word i of copy k is `wikk`.
fn words_reply(alloc: Global, copy: u8, count: u8) -> Result<String, AllocError> {
    let mut reply = "w0k".to_string(alloc)?;
    reply.push_str(copy.to_string(alloc)?.as_str())?;
    for i in 1..count {
        reply.push_str(format!(in alloc; " w{i}k{copy}")?.as_str())?;
    }
    reply.push_str("\n")?;
    Ok(reply)
}

#[test]
fn masks_64_words_and_no_more(rt: HostRuntime) -> Result<(), Fail> {
    let alloc = rt.alloc();
    for (count, status, last) in [
        (64, 0, "live\n"),
        (65, 1, "end Noise exchange 1 place 128\n"),
    ] {
        let first = words_reply(alloc, 0, count)?;
        let second = words_reply(alloc, 1, count)?;
        let third = words_reply(alloc, 2, count)?;
        let pieces = [
            (3, "get a\n"),
            (0, first.as_str()),
            (1, second.as_str()),
            (2, third.as_str()),
        ];
        let script = script_of(alloc, &pieces)?;
        let mut want = REQUESTS.to_string(alloc)?;
        if status == 0 {
            want.push_str(transcript_of(alloc, &[(4, 3, first.as_str())], "")?.as_str())?;
        }
        want.push_str(last)?;
        let run = replayed(alloc, script.as_str())?;
        assert_eq!(rt; run.text.as_str(), want.as_str());
        assert_eq!(rt; run.status, status);
    }
    Ok(())
}

/// Two exchanges. The word of the first reply differs in each copy, so the second request goes out with each copy's own.
#[test]
fn a_shown_word_is_swapped_for_each_copy(rt: HostRuntime) -> Result<(), Fail> {
    let alloc = rt.alloc();
    let pieces = [
        (3, "get 1\n"),
        (1, "1 59559187 000000005955"),
        (1, "9188\n"),
        (2, "1 59559187 000000005955"),
        (2, "9189\n"),
        (0, "1 59559187 000000005955"),
        (0, "9187\n"),
        (3, "get 2 0000000059559187\n"),
        (2, "2 1495354192 000000149"),
        (2, "5354194\n"),
        (0, "2 1495354192 000000149"),
        (0, "5354192\n"),
        (1, "2 1495354192 000000149"),
        (1, "5354193\n"),
    ];
    let mut script = script_of(alloc, &pieces)?;
    script.push_str("0 end 3\n")?;
    let sends = [
        (1, 0, "get 1\n"),
        (1, 1, "get 1\n"),
        (1, 2, "get 1\n"),
        (7, 3, "1 59559187 0000000059559187\n"),
        (8, 0, "get 2 0000000059559187\n"),
        (8, 1, "get 2 0000000059559188\n"),
        (8, 2, "get 2 0000000059559189\n"),
        (14, 3, "2 1495354192 0000001495354192\n"),
    ];
    let want = transcript_of(alloc, &sends, "end Done\n")?;
    let run = replayed(alloc, script.as_str())?;
    assert_eq!(rt; run.text.as_str(), want.as_str());
    assert_eq!(rt; run.status, 0);
    Ok(())
}

#[test]
fn short_scripts_and_bad_ones(rt: HostRuntime) -> Result<(), Fail> {
    let alloc = rt.alloc();
    let seventh = format!(in alloc; "{THREE_EQUAL}8 end 0\n9 piece 4 00\n")?;
    let cases = [
        ("side incoming\n", "live\n", 0),
        ("side incoming\n0 end 3\n", "end Done\n", 0),
        ("", "script: BadLine 1\n", 3),
        (seventh.as_str(), "script: BadLine 7\n", 3),
    ];
    for (script, text, status) in cases {
        let run = replayed(alloc, script)?;
        assert_eq!(rt; run.text.as_str(), text);
        assert_eq!(rt; run.status, status);
    }
    Ok(())
}

/// What is heard beside pieces: what a script has behind its first line, the last line and the status.
#[test]
fn clocks_faults_and_stops(rt: HostRuntime) -> Result<(), Fail> {
    let alloc = rt.alloc();
    for (lines, text, status) in [
        (
            "0 piece 3 61\n29999 timer\n30000 timer\n",
            "end Late Request\n",
            1,
        ),
        ("0 piece 3 61\n29999 timer\n", "live\n", 0),
        ("60000 timer\n", "end Late Idle\n", 1),
        ("0 stop\n", "end Stopped\n", 1),
        ("0 readfail 1\n", "end LinkFault link 1\n", 1),
        ("0 writefail 2\n0 stop\n", "end LinkFault link 2\n", 1),
    ] {
        let script = format!(in alloc; "side incoming\n{lines}")?;
        let run = replayed(alloc, script.as_str())?;
        assert_eq!(rt; run.text.as_str(), text);
        assert_eq!(rt; run.status, status);
    }
    Ok(())
}

/// A request that not all reply to in time.
#[test]
fn a_late_reply(rt: HostRuntime) -> Result<(), Fail> {
    let alloc = rt.alloc();
    let script = "side incoming\n100 piece 3 67657420610a\n5099 timer\n5100 timer\n";
    let want = format!(in alloc; "{REQUESTS}end Late Gather\n")?;
    let run = replayed(alloc, script)?;
    assert_eq!(rt; run.text.as_str(), want.as_str());
    assert_eq!(rt; run.status, 1);
    Ok(())
}

/// Outgoing: what a script has behind its first line, the last line and the status.
#[test]
fn callers_that_end_and_callers_that_are_late(rt: HostRuntime) -> Result<(), Fail> {
    let alloc = rt.alloc();
    let late = "100 piece 0 7120310a\n200 piece 1 7120310a\n5099 timer\n";
    let later = format!(in alloc; "{late}5100 timer\n")?;
    for (lines, text, status) in [
        ("0 end 0\n0 end 1\n0 end 2\n", "end Done\n", 0),
        (late, "live\n", 0),
        (later.as_str(), "end Late Gather\n", 1),
    ] {
        let script = format!(in alloc; "side outgoing\n{lines}")?;
        let run = replayed(alloc, script.as_str())?;
        assert_eq!(rt; run.text.as_str(), text);
        assert_eq!(rt; run.status, status);
    }
    Ok(())
}

/// The callers' bytes in this order: caller k's n-th byte comes where k stands for the n-th time.
fn calls_in_order(alloc: Global, order: &[u8; 12]) -> Result<String, AllocError> {
    let mut script = "side outgoing\n".to_string(alloc)?;
    let mut said = [0_usize; 3];
    for caller in order {
        let place = said.get(*caller as usize).copied().unwrap_or(0);
        let byte = ["71", "20", "31", "0a"].get(place).copied().unwrap_or("");
        script.push_str(format!(in alloc; "0 piece {caller} {byte}\n")?.as_str())?;
        if let Some(count) = said.get_mut(*caller as usize) {
            *count = place.wrapping_add(1);
        }
    }
    script.push_str("0 piece 3 72\n0 piece 3 0a\n")?;
    Ok(script)
}

/// However the callers' bytes come, one call goes out, with the last byte, and each caller gets its reply.
#[test]
fn merged_calls(rt: HostRuntime) -> Result<(), Fail> {
    let alloc = rt.alloc();
    for order in [
        [0, 0, 0, 0, 1, 1, 1, 1, 2, 2, 2, 2],
        [2, 2, 2, 2, 1, 1, 1, 1, 0, 0, 0, 0],
        [0, 1, 2, 0, 1, 2, 0, 1, 2, 0, 1, 2],
        [1, 1, 1, 1, 0, 2, 0, 2, 0, 2, 0, 2],
        [0, 0, 0, 1, 1, 1, 1, 2, 2, 2, 2, 0],
    ] {
        let script = calls_in_order(alloc, &order)?;
        let run = replayed(alloc, script.as_str())?;
        assert_eq!(rt;
            run.text.as_str(),
            "12 to 3 7120310a\n14 to 0 720a\n14 to 1 720a\n14 to 2 720a\nlive\n"
        );
        assert_eq!(rt; run.status, 0);
    }
    Ok(())
}

/// What the copies have said before their units are whole, a further line, and how the session then stands.
#[test]
fn a_disagreement_ends_a_session_early(rt: HostRuntime) -> Result<(), Fail> {
    let alloc = rt.alloc();
    for (first, second, third, more, last, status) in [
        (
            "ok 1\n",
            "ok 1\n",
            "no ",
            "",
            "end Disagree exchange 1 copy 2 place 0\n",
            1,
        ),
        ("ok 1\n", "ok 1\n", "no", "", "live\n", 0),
        (
            "ok 1\n",
            "ok 1\n",
            "no ",
            "5000 timer\n",
            "end Disagree exchange 1 copy 2 place 0\n",
            1,
        ),
        ("a;", "a:", "", "", "live\n", 0),
    ] {
        let mut pieces = vec![in alloc; (3, "get a\n"), (0, first), (1, second)]?;
        if !third.is_empty() {
            pieces.push((2, third))?;
        }
        let mut script = script_of(alloc, pieces.as_slice())?;
        script.push_str(more)?;
        let want = format!(in alloc; "{REQUESTS}{last}")?;
        let run = replayed(alloc, script.as_str())?;
        assert_eq!(rt; run.text.as_str(), want.as_str());
        assert_eq!(rt; run.status, status);
    }
    Ok(())
}

#[test]
fn calls_that_differ_end_a_session_early(rt: HostRuntime) -> Result<(), Fail> {
    let alloc = rt.alloc();
    let pieces = [(0, "q 1\n"), (1, "q 1\n"), (2, "r ")];
    let script = script_on(alloc, "outgoing", &pieces)?;
    let run = replayed(alloc, script.as_str())?;
    assert_eq!(rt;
        run.text.as_str(),
        "end Disagree exchange 1 copy 2 place 0\n"
    );
    assert_eq!(rt; run.status, 1);
    Ok(())
}

/// A row told to the client's request: each copy's own word; and what makes its line a bad one.
#[test]
fn rows_told_to_a_request(rt: HostRuntime) -> Result<(), Fail> {
    let alloc = rt.alloc();
    let a = hex::encode(alloc, b"aaaaaaaaaaaaaaaa")?;
    let b = hex::encode(alloc, b"bbbbbbbbbbbbbbbb")?;
    let c = hex::encode(alloc, b"cccccccccccccccc")?;
    let told = format!(in alloc; "side incoming\ntold {a} {b} {c}\n0 piece 3 67657420{a}0a\n")?;
    let want = format!(in alloc;
        "1 to 0 67657420{a}0a\n1 to 1 67657420{b}0a\n1 to 2 67657420{c}0a\nlive\n"
    )?;
    let two = format!(in alloc; "side incoming\ntold {a} {b}\n0 piece 3 67657420{a}0a\n")?;
    let last = format!(in alloc; "side incoming\n0 piece 3 67\ntold {a} {b} {c}\n")?;
    for (script, text, status) in [
        (told.as_str(), want.as_str(), 0),
        (two.as_str(), "script: BadLine 2\n", 3),
        (last.as_str(), "script: BadLine 3\n", 3),
    ] {
        let run = replayed(alloc, script)?;
        assert_eq!(rt; run.text.as_str(), text);
        assert_eq!(rt; run.status, status);
    }
    Ok(())
}

/// Copies' words of 15 bytes give no row: the second request goes out as it is.
#[test]
fn a_word_of_15_bytes_is_not_swapped(rt: HostRuntime) -> Result<(), Fail> {
    let alloc = rt.alloc();
    let pieces = [
        (3, "get a\n"),
        (0, "is aaaaaaaaaaaaaaa\n"),
        (1, "is bbbbbbbbbbbbbbb\n"),
        (2, "is ccccccccccccccc\n"),
        (3, "get aaaaaaaaaaaaaaa\n"),
    ];
    let sends = [
        (4, 3, "is aaaaaaaaaaaaaaa\n"),
        (5, 0, "get aaaaaaaaaaaaaaa\n"),
        (5, 1, "get aaaaaaaaaaaaaaa\n"),
        (5, 2, "get aaaaaaaaaaaaaaa\n"),
    ];
    let script = script_of(alloc, &pieces)?;
    let after = transcript_of(alloc, &sends, "live\n")?;
    let want = format!(in alloc; "{REQUESTS}{after}")?;
    let run = replayed(alloc, script.as_str())?;
    assert_eq!(rt; run.text.as_str(), want.as_str());
    Ok(())
}

const USAGE: &str =
    "usage: rddr check SETTINGS\n       rddr replay SCRIPT\n       rddr replay SETTINGS SCRIPT\n       rddr gen SETTINGS NUMBER\n       rddr run SETTINGS\n";

#[test]
fn other_words_print_the_usage(rt: HostRuntime) -> Result<(), Fail> {
    let none: [&str; 0] = [];
    let cases = [
        none.as_slice(),
        &["replay"],
        &["s"],
        &["Replay", "s"],
        &["check"],
        &["check", "s", "s"],
        &["replay", "s", "s", "s"],
        &["gen", "s"],
        &["gen", "s", "0"],
        &["gen", "s", "01"],
        &["gen", "s", "+1"],
        &["gen", "s", "10000"],
        &["gen", "s", ""],
        &["run", "s"],
    ];
    for words in cases {
        let files = [("s", THREE_EQUAL)];
        let run = answer_to(rt.alloc(), words, &files, Vec::new(rt.alloc()))?;
        assert_eq!(rt; run.text.as_str(), USAGE);
        assert_eq!(rt; run.status, 2);
    }
    Ok(())
}

#[test]
fn a_file_that_is_not_there_is_a_fault(rt: HostRuntime) -> Result<(), Fail> {
    let run = answer_to(
        rt.alloc(),
        &["replay", "t"],
        &[("s", THREE_EQUAL)],
        Vec::new(rt.alloc()),
    )?;
    assert_eq!(rt; run.text.as_str(), "");
    assert_eq!(rt; run.status, 4);
    assert_eq!(rt; run.read_faults, 1);
    Ok(())
}

/// The third line fails behind its first four bytes.
#[test]
fn an_output_that_fails_holds_a_prefix(rt: HostRuntime) -> Result<(), Fail> {
    let alloc = rt.alloc();
    let failing = vec![in alloc; PushFault { call: 2, after: 4 }]?;
    let run = answer_to(alloc, &["replay", "s"], &[("s", THREE_EQUAL)], failing)?;
    assert_eq!(rt;
        run.text.as_str(),
        "1 to 0 67657420610a\n1 to 1 67657420610a\n1 to"
    );
    assert_eq!(rt; run.status, 5);
    assert_eq!(rt; run.write_faults, 1);
    Ok(())
}
