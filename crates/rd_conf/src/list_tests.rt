use crate::tests::{compare, told};
use std::alloc::{AllocError, Global};
use std::process::Abort;
use std::test::Fail;

/// An array of so many texts of so many bytes.
fn texts(alloc: Global, count: usize, bytes: usize) -> Result<String, AllocError> {
    let text = "x".repeat(alloc, bytes)?;
    let mut array = "[".to_string(alloc)?;
    for _ in 0..count {
        array.push('"')?;
        array.push_str(text.as_str())?;
        array.push_str("\",")?;
    }
    array.push(']')?;
    Ok(array)
}

/// A line of version 2 and a key with so many texts of so many bytes, and what is read of it.
type TextsCase = (&'static str, usize, usize, &'static str);

fn compare_texts(rt: &impl Abort, alloc: Global, cases: &[TextsCase]) -> Result<(), AllocError> {
    for (key, count, bytes, wanted) in cases {
        let array = texts(alloc, *count, *bytes)?;
        let text = format!(in alloc; "version = 2\n{key} = {array}\n")?;
        let found = told(alloc, text.as_bytes())?;
        assert_eq!(rt; found.as_str(), *wanted, "{key} {count} {bytes}");
    }
    Ok(())
}

const NAMES: [TextsCase; 18] = [
    ("http_pass", 0, 0, "ok"),
    ("http_pass", 32, 1, "ok"),
    ("http_pass", 1, 64, "ok"),
    ("http_pass", 33, 1, "OutOfRange http_pass"),
    ("http_pass", 1, 0, "OutOfRange http_pass"),
    ("http_pass", 1, 65, "OutOfRange http_pass"),
    ("firm_names", 0, 0, "ok"),
    ("firm_names", 32, 1, "ok"),
    ("firm_names", 1, 64, "ok"),
    ("firm_names", 33, 1, "OutOfRange firm_names"),
    ("firm_names", 1, 0, "OutOfRange firm_names"),
    ("firm_names", 1, 65, "OutOfRange firm_names"),
    ("free_names", 0, 0, "ok"),
    ("free_names", 32, 1, "ok"),
    ("free_names", 1, 64, "ok"),
    ("free_names", 33, 1, "OutOfRange free_names"),
    ("free_names", 1, 0, "OutOfRange free_names"),
    ("free_names", 1, 65, "OutOfRange free_names"),
];

#[test]
fn at_most_32_names_of_64_bytes(rt: HostRuntime) -> Result<(), Fail> {
    compare_texts(&rt, rt.alloc(), &NAMES)?;
    Ok(())
}

const PORT_LISTS: [TextsCase; 16] = [
    ("ports.instances", 3, 1, "ok"),
    ("ports.instances", 3, 255, "ok"),
    ("ports.instances", 3, 256, "OutOfRange ports.instances"),
    ("ports.instances", 3, 0, "OutOfRange ports.instances"),
    ("ports.instances", 2, 1, "OutOfRange ports.instances"),
    ("ports.instances", 4, 1, "OutOfRange ports.instances"),
    ("ports.instances", 0, 0, "OutOfRange ports.instances"),
    ("copies = 4\nports.instances", 4, 1, "ok"),
    (
        "copies = 4\nports.instances",
        3,
        1,
        "OutOfRange ports.instances",
    ),
    ("ports.callers", 0, 0, "ok"),
    ("ports.callers", 3, 1, "ok"),
    ("ports.callers", 3, 255, "ok"),
    ("ports.callers", 3, 256, "OutOfRange ports.callers"),
    ("ports.callers", 3, 0, "OutOfRange ports.callers"),
    ("ports.callers", 1, 1, "OutOfRange ports.callers"),
    ("ports.callers", 4, 1, "OutOfRange ports.callers"),
];

#[test]
fn a_list_of_ports_has_one_for_each_copy(rt: HostRuntime) -> Result<(), Fail> {
    compare_texts(&rt, rt.alloc(), &PORT_LISTS)?;
    Ok(())
}

/// A text of so many bytes under a key of the ports, and what is read of it.
const PORTS: [(&str, usize, &str); 16] = [
    ("listen", 1, "ok"),
    ("listen", 255, "ok"),
    ("listen", 0, "OutOfRange ports.listen"),
    ("listen", 256, "OutOfRange ports.listen"),
    ("backend", 1, "ok"),
    ("backend", 255, "ok"),
    ("backend", 0, "OutOfRange ports.backend"),
    ("backend", 256, "OutOfRange ports.backend"),
    ("operator", 1, "ok"),
    ("operator", 255, "ok"),
    ("operator", 0, "OutOfRange ports.operator"),
    ("operator", 256, "OutOfRange ports.operator"),
    ("records", 1, "ok"),
    ("records", 255, "ok"),
    ("records", 0, "OutOfRange ports.records"),
    ("records", 256, "OutOfRange ports.records"),
];

#[test]
fn single_ports_of_1_to_255_bytes(rt: HostRuntime) -> Result<(), Fail> {
    for (key, bytes, wanted) in &PORTS {
        let port = "x".repeat(rt.alloc(), *bytes)?;
        let text = format!(in rt.alloc(); "version = 1\n[ports]\n{key} = \"{port}\"\n")?;
        let found = told(rt.alloc(), text.as_bytes())?;
        assert_eq!(rt; found.as_str(), *wanted, "{key} {bytes}");
    }
    Ok(())
}

const BYTES_OF_NAMES: [(&str, &str); 9] = [
    ("version = 1\nhttp_pass = [\"az09-_\"]", "ok"),
    (
        "version = 1\nhttp_pass = [\"a\", \"A\"]",
        "OutOfRange http_pass",
    ),
    ("version = 1\nhttp_pass = [\"a b\"]", "OutOfRange http_pass"),
    ("version = 1\nhttp_pass = [\"a.b\"]", "OutOfRange http_pass"),
    ("version = 1\nhttp_pass = [\"`\"]", "OutOfRange http_pass"),
    ("version = 1\nhttp_pass = [\"{\"]", "OutOfRange http_pass"),
    ("version = 1\nhttp_pass = [\"/\"]", "OutOfRange http_pass"),
    ("version = 1\nhttp_pass = [\":\"]", "OutOfRange http_pass"),
    (
        "version = 1\nhttp_pass = [\"\u{e9}\"]",
        "OutOfRange http_pass",
    ),
];

#[test]
fn bytes_of_names(rt: HostRuntime) -> Result<(), Fail> {
    compare(&rt, rt.alloc(), &BYTES_OF_NAMES)?;
    Ok(())
}

const FIRM_AND_FREE: [(&str, &str); 5] = [
    (
        "version = 2\nfirm_names = [\"a\"]\nfree_names = [\"b\"]",
        "ok",
    ),
    (
        "version = 2\nfirm_names = [\"a\", \"b\"]\nfree_names = [\"c\", \"b\"]",
        "OutOfRange free_names",
    ),
    (
        "version = 2\nfirm_names = [\"a\"]\nfree_names = [\"aa\"]",
        "ok",
    ),
    (
        "version = 2\nfirm_names = [\"a\", \"a\"]\nfree_names = [\"b\", \"b\"]",
        "ok",
    ),
    ("version = 2\nfirm_names = []\nfree_names = [\"a\"]", "ok"),
];

#[test]
fn a_name_is_firm_or_free(rt: HostRuntime) -> Result<(), Fail> {
    compare(&rt, rt.alloc(), &FIRM_AND_FREE)?;
    Ok(())
}

#[test]
fn a_text_of_65536_bytes(rt: HostRuntime) -> Result<(), Fail> {
    let mut text = "version = 1\n#".to_string(rt.alloc())?;
    let padding = "x".repeat(rt.alloc(), 65_523)?;
    text.push_str(padding.as_str())?;
    assert_eq!(rt; text.len(), 65_536);
    let found = told(rt.alloc(), text.as_bytes())?;
    assert_eq!(rt; found.as_str(), "ok");
    Ok(())
}

const DEPTHS: [(usize, &str); 3] = [
    (2, "WrongKind http_pass"),
    (80, "WrongKind http_pass"),
    (81, "NotToml"),
];

#[test]
fn arrays_in_arrays(rt: HostRuntime) -> Result<(), Fail> {
    for (depth, wanted) in &DEPTHS {
        let open = "[".repeat(rt.alloc(), *depth)?;
        let close = "]".repeat(rt.alloc(), *depth)?;
        let text = format!(in rt.alloc(); "version = 1\nhttp_pass = {open}{close}\n")?;
        let found = told(rt.alloc(), text.as_bytes())?;
        assert_eq!(rt; found.as_str(), *wanted, "{depth}");
    }
    Ok(())
}
