//! Hashes, and the texts that are written behind others.
use crate::told::assert_told;
use std::alloc::Global;
use std::test::Fail;
use text_parts::{Bytes, append_json_string, append_number, append_spaced, fnv_hash};

/// Texts and their hashes, of the list that comes with the reference code of FNV.
const HASHES: [(&str, u64); 3] = [
    ("", 0xcbf2_9ce4_8422_2325),
    ("a", 0xaf63_dc4c_8601_ec8c),
    ("foobar", 0x8594_4171_f739_67e8),
];

#[test]
fn hashes_are_those_of_fnv_1a(rt: HostRuntime) {
    for (text, want) in &HASHES {
        assert!(rt; fnv_hash(text.as_bytes()) == *want, "{text}");
    }
}

/// A number, a text, and how both are written.
const WRITTEN: [(u64, &str, &str); 3] = [
    (0, "", "0\"\""),
    (
        18_446_744_073_709_551_615,
        "web",
        "18446744073709551615 web\"web\"",
    ),
    (9_001, "/a\\x2fb", "9001 /a\\x2fb\"/a\\\\x2fb\""),
];

/// The number, the text behind a space, and the text as a JSON string.
fn written(alloc: Global, number: u64, text: &str) -> Result<Bytes, Fail> {
    let mut out = Vec::new(alloc);
    append_number(number, &mut out)?;
    append_spaced(text.as_bytes(), &mut out)?;
    append_json_string(text.as_bytes(), &mut out)?;
    Ok(out)
}

#[test]
fn writes_numbers_and_texts(rt: HostRuntime) -> Result<(), Fail> {
    for (number, text, want) in &WRITTEN {
        assert_told(&rt, written(rt.alloc(), *number, text), want.as_bytes())?;
    }
    Ok(())
}
