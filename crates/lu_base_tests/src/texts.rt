//! One use of each public function, and texts at the edges.

use lu_text::{
    Fault, Name, are_allowed, before_comment, cut_line, exactly_five, exactly_four, exactly_one,
    exactly_three, exactly_two, has_name_form, is_long, is_number, lines_of, number_up_to,
    parts_of, position_of, value_in, words_of,
};
use std::alloc::{AllocError, Global};
use std::process::Abort;
use std::test::Fail;

/// Each text has as many lines as stands beside it.
fn assert_line_counts(
    rt: &(impl AllocGlobal + Abort),
    counts: &[(&str, usize)],
) -> Result<(), AllocError> {
    for (text, count) in counts {
        let lines = lines_of(rt.alloc(), text.as_bytes())?;
        assert!(rt; lines.len() == *count, "{text:?}");
    }
    Ok(())
}

/// Parts are cut at `;`, and the last is whole.
fn assert_parts(rt: &(impl AllocGlobal + Abort)) -> Result<(), AllocError> {
    let parts = parts_of(rt.alloc(), b';', b"a;;b\n")?;
    assert!(rt; parts.len() == 3);
    assert!(rt; parts.last().copied() == Some(b"b\n".as_slice()));
    Ok(())
}

/// Each text is cut into the first line and the rest that stand beside it.
fn assert_cuts(rt: &impl Abort, cuts: &[(&str, &str, &str)]) {
    for (text, first, rest) in cuts {
        let (line, after) = cut_line(text.as_bytes());
        assert!(rt; line == first.as_bytes(), "{text:?}");
        assert!(rt; after == rest.as_bytes(), "{text:?}");
    }
}

#[test]
fn lines(rt: HostRuntime) -> Result<(), Fail> {
    assert_line_counts(
        &rt,
        &[
            ("", 0),
            ("\n", 1),
            ("a", 1),
            ("a\n", 1),
            ("a\n\n", 2),
            ("\na", 2),
        ],
    )?;
    assert_parts(&rt)?;
    assert_cuts(
        &rt,
        &[
            ("", "", ""),
            ("\n\na", "\n", "\na"),
            ("a\nb", "a\n", "b"),
            ("b", "b", ""),
        ],
    );
    assert!(rt; are_allowed(b"\t ~\r"));
    assert!(rt; !are_allowed(b"\x7f"));
    Ok(())
}

/// The three words are these.
fn assert_three(rt: &impl Abort, words: &[&[u8]], expected: (&[u8], &[u8], &[u8])) {
    assert!(rt; exactly_three(words) == Some(expected));
    assert!(rt; exactly_two(words).is_none());
    assert!(rt; exactly_four(words).is_none());
}

#[test]
fn words(rt: HostRuntime) -> Result<(), Fail> {
    assert!(rt; before_comment(b"return 0#x") == b"return 0".as_slice());
    assert!(rt; position_of(b'x', b"a xx") == Some(2));
    let words = words_of(rt.alloc(), b"\tjz r2\r L0 # back")?;
    assert_three(&rt, &words, (b"jz", b"r2", b"L0"));
    Ok(())
}

const WORD: &[u8] = b"w";

/// Four words are four.
fn assert_four(rt: &impl Abort) {
    assert!(rt; exactly_four(&[WORD, WORD, WORD, WORD]) == Some((WORD, WORD, WORD, WORD)));
}

/// Five words are five.
fn assert_five(rt: &impl Abort) {
    assert!(rt;
        exactly_five(&[WORD, WORD, WORD, WORD, WORD]) == Some((WORD, WORD, WORD, WORD, WORD))
    );
}

#[test]
fn words_are_counted(rt: HostRuntime) {
    assert!(rt; exactly_one(&[WORD]) == Some(WORD));
    assert!(rt; exactly_two(&[WORD, WORD]) == Some((WORD, WORD)));
    assert_four(&rt);
    assert_five(&rt);
    assert!(rt; exactly_one(&[WORD, WORD]).is_none());
}

/// The name is `cinc`.
fn assert_cinc(rt: &impl Abort, name: &Name) {
    assert!(rt; name.as_str() == "cinc");
    assert!(rt; name.as_bytes() == b"cinc".as_slice());
    assert!(rt; name.is(b"cinc"));
    assert!(rt; !name.is(b"inc"));
}

/// Whether each word has the form of a name.
fn assert_forms(rt: &impl Abort, forms: &[(&str, bool)]) {
    for (word, has_form) in forms {
        assert!(rt; has_name_form(word.as_bytes()) == *has_form, "{word}");
    }
}

#[test]
fn names(rt: HostRuntime) -> Result<(), Fail> {
    assert_forms(
        &rt,
        &[
            ("x", true),
            ("_9", true),
            ("cinc", true),
            ("A_longer_name_of_more_than_32_bytes", true),
            ("", false),
            ("9x", false),
            ("x-", false),
            ("x y", false),
            ("é", false),
        ],
    );
    assert!(rt; !is_long(b"abcdefghijklmnopqrstuvwxyz_01234"));
    assert!(rt; is_long(b"abcdefghijklmnopqrstuvwxyz_012345"));
    let name = Name::new(rt.alloc(), b"cinc")?;
    assert_cinc(&rt, &name);
    Ok(())
}

/// The values of these words of 32 bits.
fn assert_values(rt: &impl Abort, values: &[(&str, Option<u32>)]) {
    for (word, value) in values {
        assert!(rt; value_in(word.as_bytes()) == *value, "{word}");
    }
}

/// The numbers up to a most that these words are.
fn assert_numbers(rt: &impl Abort, numbers: &[(&str, u64, Option<u64>)]) {
    for (word, most, number) in numbers {
        assert!(rt; number_up_to(word.as_bytes(), *most) == *number, "{word}");
    }
}

#[test]
fn numbers(rt: HostRuntime) {
    assert_values(
        &rt,
        &[
            ("0", Some(0)),
            ("70", Some(70)),
            ("4294967295", Some(u32::MAX)),
            ("4294967296", None),
            ("18446744073709551616", None),
            ("", None),
            ("00", None),
            ("07", None),
            ("+7", None),
            ("7a", None),
        ],
    );
    assert_numbers(
        &rt,
        &[
            ("7", 7, Some(7)),
            ("8", 7, None),
            ("18446744073709551615", u64::MAX, Some(u64::MAX)),
            ("18446744073709551616", u64::MAX, None),
        ],
    );
    assert!(rt; is_number(b"18446744073709551616"));
    assert!(rt; !is_number(b"7:"));
}

/// The fault, as it is shown.
fn shown(alloc: Global, fault: Fault<&str>) -> Result<String, AllocError> {
    format!(in alloc; "{fault}")
}

#[test]
fn faults(rt: HostRuntime) -> Result<(), Fail> {
    for (fault, text) in [(Fault::At("L2", 3), "L2 line 3"), (Fault::Memory, "memory")] {
        assert!(rt; shown(rt.alloc(), fault)?.as_str() == text, "{text}");
    }
    Ok(())
}
