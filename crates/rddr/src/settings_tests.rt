use crate::tests::{Answer, REQUESTS, THREE_EQUAL, answer_to, script_of};
use std::alloc::Global;
use std::test::Fail;

/// The answer to these words over the settings `c` and the script `s`.
pub fn answer_under(
    alloc: Global,
    words: &[&str],
    settings: &str,
    script: &str,
) -> Result<Answer, Fail> {
    let files = [("c", settings), ("s", script)];
    answer_to(alloc, words, &files, Vec::new(alloc))
}

/// Settings, and what `check` prints of them.
const CHECKED: [(&str, &str, u8); 10] = [
    ("version = 1\n", "ok\n", 0),
    (
        "version = 1\ncopies = 9\n",
        "settings: OutOfRange copies\n",
        3,
    ),
    ("copies = 3\n", "settings: Missing version\n", 3),
    (
        "version = 1\nmasked_max = 3\n",
        "settings: Unknown masked_max\n",
        3,
    ),
    ("version = 3\n", "settings: OutOfRange version\n", 3),
    ("version\n", "settings: NotToml\n", 3),
    ("version = \"1\"\n", "settings: WrongKind version\n", 3),
    // a blank, the byte 7F and a letter of two bytes
    (
        "version = 1\n\"a b\\u007f\u{e9}\" = 1\n",
        "settings: Unknown a?b???\n",
        3,
    ),
    (
        "version = 1\nports.zeta = 1\n",
        "settings: Unknown ports.zeta\n",
        3,
    ),
    ("version = 1\n\"\" = 1\n", "settings: Unknown \n", 3),
];

#[test]
fn settings_are_checked(rt: HostRuntime) -> Result<(), Fail> {
    for (settings, text, status) in CHECKED {
        let run = answer_under(rt.alloc(), &["check", "c"], settings, "")?;
        assert_eq!(rt; run.text.as_str(), text);
        assert_eq!(rt; run.status, status);
    }
    Ok(())
}

#[test]
fn settings_of_65536_bytes(rt: HostRuntime) -> Result<(), Fail> {
    let alloc = rt.alloc();
    for (padding, text, status) in [(65_523, "ok\n", 0), (65_524, "settings: too long\n", 3)] {
        let padding = "x".repeat(alloc, padding)?;
        let settings = format!(in alloc; "version = 1\n#{padding}")?;
        let run = answer_under(alloc, &["check", "c"], settings.as_str(), "")?;
        assert_eq!(rt; run.text.as_str(), text);
        assert_eq!(rt; run.status, status);
    }
    Ok(())
}

/// Settings, a number, and what generated sessions of so many exchanges come to: copies, exchanges, events, bytes to the
/// client and to the instances, masked places, the last line and the status.
const GENERATED: [(&str, &str, [u32; 6], &str, u8); 5] = [
    ("version = 1\n", "2", [3, 2, 15, 58, 87, 2], "end Done", 0),
    ("version = 1\n", "1", [3, 1, 5, 30, 18, 1], "end Done", 0),
    (
        "version = 1\ncopies = 8\n",
        "2",
        [8, 2, 35, 58, 232, 2],
        "end Done",
        0,
    ),
    // what follows the ending isn't taken
    (
        "version = 1\nexchanges_max = 1\n",
        "2",
        [3, 1, 7, 28, 18, 1],
        "end Retired",
        0,
    ),
    (
        "version = 2\nmasked_max = 0\n",
        "2",
        [3, 0, 7, 0, 18, 0],
        "end Noise exchange 1 place 4",
        1,
    ),
];

#[test]
fn generated_sessions_are_summed_up(rt: HostRuntime) -> Result<(), Fail> {
    let alloc = rt.alloc();
    for (settings, number, counts, last, status) in GENERATED {
        let [copies, exchanges, events, client, instances, masked] = counts;
        let want = format!(in alloc;
            "copies {copies}\nexchanges {exchanges}\nevents {events}\nto client {client}\nto instances {instances}\nmasked {masked}\n{last}\n"
        )?;
        let run = answer_under(alloc, &["gen", "c", number], settings, "")?;
        assert_eq!(rt; run.text.as_str(), want.as_str());
        assert_eq!(rt; run.status, status);
    }
    Ok(())
}

/// Settings, what the transcript has behind the client's three sends, and the status.
#[test]
fn scripts_are_replayed_under_settings(rt: HostRuntime) -> Result<(), Fail> {
    let alloc = rt.alloc();
    let mask = script_of(
        alloc,
        &[
            (3, "get a\n"),
            (0, "id 00000000000000000000000000000000 ok\n"),
            (1, "id 11111111111111111111111111111111 ok\n"),
            (2, "id 22222222222222222222222222222222 ok\n"),
        ],
    )?;
    for (settings, script, last, status) in [
        (
            "version = 1\nexchanges_max = 1\n",
            THREE_EQUAL,
            "4 to 3 6f6b20310a\nend Retired\n",
            0,
        ),
        (
            "version = 2\nmasked_max = 0\n",
            mask.as_str(),
            "end Noise exchange 1 place 2\n",
            1,
        ),
    ] {
        let want = format!(in alloc; "{REQUESTS}{last}")?;
        let run = answer_under(alloc, &["replay", "c", "s"], settings, script)?;
        assert_eq!(rt; run.text.as_str(), want.as_str());
        assert_eq!(rt; run.status, status);
    }
    Ok(())
}

/// Words, settings and a script, of which the words come first, then the settings, then the script.
#[test]
fn the_first_of_two_faults_is_told(rt: HostRuntime) -> Result<(), Fail> {
    let alloc = rt.alloc();
    let bad = "version = 3\n";
    let good = "version = 1\ncopies = 4\n";
    for (words, settings, text, status, faults) in [
        (
            ["replay", "c", "s"].as_slice(),
            bad,
            "settings: OutOfRange version\n",
            3,
            0,
        ),
        (
            &["replay", "c", "t"],
            bad,
            "settings: OutOfRange version\n",
            3,
            0,
        ),
        (&["replay", "t", "s"], good, "", 4, 1),
        (&["replay", "c", "t"], good, "", 4, 1),
        (&["replay", "c", "s"], good, "script: BadLine 2\n", 3, 0),
        (&["check", "t"], good, "", 4, 1),
        (&["gen", "t", "1"], good, "", 4, 1),
        (
            &["gen", "c", "1"],
            bad,
            "settings: OutOfRange version\n",
            3,
            0,
        ),
    ] {
        let run = answer_under(alloc, words, settings, "side incoming\n0 end 5\n")?;
        assert_eq!(rt; run.text.as_str(), text);
        assert_eq!(rt; run.status, status);
        assert_eq!(rt; run.read_faults, faults);
    }
    Ok(())
}
