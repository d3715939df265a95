use super::*;
use sig_base::NoMemory;

const GREATEST: i64 = 9_007_199_254_740_991;

#[test]
fn texts_spell_numbers(rt: HostRuntime) {
    let rows = [
        ("0", Ok(Number::Whole(0))),
        ("-0", Ok(Number::Whole(0))),
        ("2.0", Ok(Number::Whole(2))),
        (" \t\r\n-12.\n", Ok(Number::Whole(-12))),
        (".0", Ok(Number::Whole(0))),
        ("007", Ok(Number::Whole(7))),
        ("9007199254740991", Ok(Number::Whole(GREATEST))),
        ("-9007199254740991.00", Ok(Number::Whole(-GREATEST))),
        ("9007199254740992", Err(NumberFault::NumberRange)),
        ("-99999999999999999999999", Err(NumberFault::NumberRange)),
        ("1.5", Err(NumberFault::Fraction)),
        ("2.50", Err(NumberFault::Fraction)),
        ("99999999999999999999.5", Err(NumberFault::Fraction)),
        ("", Ok(Number::Nan)),
        (".", Ok(Number::Nan)),
        ("-", Ok(Number::Nan)),
        ("+1", Ok(Number::Nan)),
        ("- 1", Ok(Number::Nan)),
        ("--1", Ok(Number::Nan)),
        ("1 2", Ok(Number::Nan)),
        ("1e3", Ok(Number::Nan)),
        ("1.2.3", Ok(Number::Nan)),
        ("\u{A0}1", Ok(Number::Nan)),
        ("\u{661}", Ok(Number::Nan)),
        ("x", Ok(Number::Nan)),
    ];
    for (text, number) in rows {
        assert_eq!(rt; number_of_text(text), number, "{text}");
    }
}

#[test]
fn numbers_have_texts(rt: HostRuntime) -> Result<(), NoMemory> {
    let rows = [
        (Number::Nan, "NaN"),
        (Number::Whole(0), "0"),
        (Number::Whole(-1), "-1"),
        (Number::Whole(100), "100"),
        (Number::Whole(-GREATEST), "-9007199254740991"),
    ];
    for (number, text) in rows {
        assert_eq!(rt; text_of_number(rt.alloc(), number)?.as_str(), text);
    }
    Ok(())
}

#[test]
fn substrings_are_cut_at_places(rt: HostRuntime) -> Result<(), NoMemory> {
    let rows = [
        ("12345", Number::Whole(2), Some(Number::Whole(3)), "234"),
        ("12345", Number::Whole(2), None, "2345"),
        ("12345", Number::Whole(0), Some(Number::Whole(3)), "12"),
        ("12345", Number::Nan, Some(Number::Whole(3)), ""),
        ("12345", Number::Nan, None, ""),
        ("12345", Number::Whole(1), Some(Number::Nan), ""),
        ("12345", Number::Whole(-42), None, "12345"),
        ("12345", Number::Whole(-42), Some(Number::Whole(45)), "12"),
        (
            "12345",
            Number::Whole(5),
            Some(Number::Whole(GREATEST)),
            "5",
        ),
        (
            "12345",
            Number::Whole(GREATEST),
            Some(Number::Whole(GREATEST)),
            "",
        ),
        ("12345", Number::Whole(3), Some(Number::Whole(-1)), ""),
        (
            "\u{E9}\u{20AC}\u{1F600}z",
            Number::Whole(2),
            Some(Number::Whole(2)),
            "\u{20AC}\u{1F600}",
        ),
    ];
    for (text, from, count, part) in rows {
        assert_eq!(rt;
            substring(rt.alloc(), text, from, count)?.as_str(),
            part,
            "{text}"
        );
    }
    Ok(())
}

#[test]
fn texts_are_cut_at_a_mark(rt: HostRuntime) -> Result<(), NoMemory> {
    let rows = [
        ("1999/04/01", "/", "1999", "04/01"),
        ("1999/04/01", "19", "", "99/04/01"),
        ("1999/04/01", "-", "", ""),
        ("1999/04/01", "", "", "1999/04/01"),
        ("", "", "", ""),
        ("", "a", "", ""),
        ("aab", "ab", "a", ""),
        ("\u{E8}\u{E9}x\u{E9}", "\u{E9}", "\u{E8}", "x\u{E9}"),
    ];
    for (text, mark, before, after) in rows {
        assert_eq!(rt;
            substring_before(rt.alloc(), text, mark)?.as_str(),
            before,
            "{text} {mark}"
        );
        assert_eq!(rt;
            substring_after(rt.alloc(), text, mark)?.as_str(),
            after,
            "{text} {mark}"
        );
    }
    Ok(())
}

#[test]
fn white_space_is_normalized(rt: HostRuntime) -> Result<(), NoMemory> {
    let rows = [
        ("  a\tb", "a b"),
        ("\r\n a \t\n b c\r", "a b c"),
        (" \t ", ""),
        ("", ""),
        ("\u{A0}a\u{A0}", "\u{A0}a\u{A0}"),
    ];
    for (text, normal) in rows {
        assert_eq!(rt;
            normalize_space(rt.alloc(), text)?.as_str(),
            normal,
            "{text:?}"
        );
    }
    Ok(())
}

#[test]
fn characters_are_translated(rt: HostRuntime) -> Result<(), NoMemory> {
    let rows = [
        ("bar", "abc", "ABC", "BAr"),
        ("--aaa--", "abc-", "ABC", "AAA"),
        ("aba", "aa", "xy", "xbx"),
        ("aba", "", "xy", "aba"),
        ("aba", "ab", "xyz", "xyx"),
        ("\u{E9}e", "e\u{E9}", "\u{20AC}", "\u{20AC}"),
    ];
    for (text, characters, others, translated) in rows {
        assert_eq!(rt;
            translate(rt.alloc(), text, characters, others)?.as_str(),
            translated,
            "{text}"
        );
    }
    Ok(())
}

#[test]
fn texts_are_joined_and_counted(rt: HostRuntime) -> Result<(), NoMemory> {
    assert_eq!(rt; concat(rt.alloc(), "1", "2")?.as_str(), "12");
    assert_eq!(rt; concat(rt.alloc(), "", "\u{E9}")?.as_str(), "\u{E9}");
    assert_eq!(rt; string_length("\u{E9}\u{20AC}\u{1F600}z"), 4);
    assert_eq!(rt; string_length(""), 0);
    Ok(())
}
