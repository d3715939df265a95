//! Each row is from hand and RFC 3986 §5.4, where its rule is the same.
use super::join::join_into;
use super::{Bases, Joined, join_base};
use sig_base::{Put, VecSink};
use std::alloc::Global;

fn joins(alloc: Global, base: &str, own: &str, wanted: &str) -> bool {
    let mut sink = VecSink::new(alloc);
    match join_base(base, own, &mut sink) {
        Put::Done => sink.finish().bytes() == wanted.as_bytes(),
        Put::Refused => false,
    }
}

/// The same in a buffer.
fn joins_into(alloc: Global, base: &str, own: &str, wanted: &str) -> bool {
    let room = base.len().saturating_add(own.len()).saturating_add(4);
    let Ok(mut into) = Vec::with_capacity(alloc, room) else {
        return false;
    };
    if into.capacity() < room || room == usize::MAX {
        return false;
    }
    join_into(base.as_bytes(), own.as_bytes(), &mut into);
    into.as_slice() == wanted.as_bytes()
}

/// The same of two bases that are prepared.
#[tactic(auto, using(crate::proofs::LengthLemmas::join_length))]
fn joins_two(alloc: Global, base: &str, own: &str, wanted: &str) -> bool {
    let Ok(mut joined) = Joined::with_room(alloc, 100) else {
        return false;
    };
    let Ok(mut bases) = Bases::with_room(alloc, 2, 100) else {
        return false;
    };
    if base.len() > 40 || own.len() > 40 {
        return false;
    }
    bases.push(base.as_bytes());
    bases.push(own.as_bytes());
    joined.join_two(&bases, 1, 0);
    joined.settle();
    joined.value() == wanted.as_bytes()
}

#[test]
fn joins_values(rt: HostRuntime) {
    let rows = [
        ("http://h/a", "../b", "http://h/b"),
        ("a//b", "c", "a/c"),
        ("a", "#f", "a"),
        ("/x/", "../../y", "/y"),
        ("..", "../y", "../../y"),
        ("a/b/", "../c", "a/c"),
        ("a/b", "..", ""),
        ("a/b", "b/c/../d/./..", "a/b/"),
        ("http://h", "a", "http://h/a"),
        ("http://h/a?q", "?r", "http://h/a?r"),
        ("http://h/a?q", "", "http://h/a?q"),
        ("http://a/b/c/d;p?q", "g:h", "g:h"),
        ("http://a/b/c/d;p?q", "g;x?y#s", "http://a/b/c/g;x?y"),
        ("http://a/b/c/d;p?q", "../../g", "http://a/g"),
        ("http://a/b/c/d;p?q", "../../../g", "http://a/g"),
        ("http://a/b/c/d;p?q", "//g", "http://g"),
        ("http://a/b/c/d;p?q", "./g/.", "http://a/b/c/g/"),
    ];
    for (base, own, wanted) in rows.iter() {
        assert!(rt; joins(rt.alloc(), base, own, wanted), "{base} and {own}");
        assert!(rt;
            joins_into(rt.alloc(), base, own, wanted),
            "{base} and {own}"
        );
        assert!(rt;
            joins_two(rt.alloc(), base, own, wanted),
            "{base} and {own}"
        );
    }
}

/// The value that `own` gives below one base after another, the nearest first. It is settled after each where asked for.
#[tactic(auto, using(crate::proofs::LengthLemmas::join_length))]
fn joins_below(alloc: Global, own: &str, bases: &[&str], settling: bool, wanted: &str) -> bool {
    let Ok(mut joined) = Joined::with_room(alloc, 200) else {
        return false;
    };
    let Ok(mut prepared) = Bases::with_room(alloc, 1, 30) else {
        return false;
    };
    let Ok(mut spare) = Vec::with_capacity(alloc, 200) else {
        return false;
    };
    if own.len() > 20 || bases.len() > 5 || spare.capacity() < 200 {
        return false;
    }
    joined.set(own.as_bytes());
    for base in bases {
        if base.len() > 20 {
            return false;
        }
        prepared.truncate(0);
        prepared.push(base.as_bytes());
        joined.join_prepared(&prepared, 0, &mut spare);
        if settling {
            joined.settle();
        }
    }
    joined.settle();
    joined.value() == wanted.as_bytes()
}

/// The same, and no base is prepared.
fn joins_anew(alloc: Global, own: &str, bases: &[&str], wanted: &str) -> bool {
    let Ok(mut joined) = Joined::with_room(alloc, 100) else {
        return false;
    };
    let Ok(mut spare) = Vec::with_capacity(alloc, 100) else {
        return false;
    };
    if own.len() > 100 {
        return false;
    }
    joined.set(own.as_bytes());
    for base in bases {
        let room = base.len().saturating_add(joined.value().len());
        if room > 96 || spare.capacity() < 100 {
            return false;
        }
        joined.join_below(base.as_bytes(), &mut spare);
    }
    joined.value() == wanted.as_bytes()
}

#[test]
fn joins_below_bases(rt: HostRuntime) {
    let rows = [
        (
            "../../../g",
            ["a/b/", "c/d/", "http://h/e/f"],
            "http://h/e/c/g",
        ),
        ("../../g", ["a/b", "/c", "//h"], "//h/g"),
        ("../../..", ["a/b", "c", ""], "../../"),
        ("../..", ["../x/", "a", "b/c/d"], ""),
        ("..", ["a/b", "../../c?q", "d/e/f/g"], "d/c?q"),
        ("?r", ["../../c?q", "d/e", "x/y/z/"], "x/y/c?r"),
        ("./a:b", ["", "c/", "/d"], "a:b"),
        ("./a:b", ["c/", "d/", "/e"], "/d/c/a:b"),
        ("../a:b", ["c/", "../d", "e/f/g"], "a:b"),
        ("?q", ["../a/?r", "b/./c?s", "s:d/e"], "s:d/a/?q"),
        ("", ["#f", "?q", "a//.."], "?q"),
        ("//h/a/../b", ["c", "s:d", "t:e"], "s://h/b"),
        ("s:../a", ["b", "c", "d"], "s:../a"),
    ];
    for (own, bases, wanted) in rows.iter() {
        assert!(rt; joins_below(rt.alloc(), own, bases, false, wanted), "{own}");
        assert!(rt;
            joins_below(rt.alloc(), own, bases, true, wanted),
            "{own} settled"
        );
        assert!(rt; joins_anew(rt.alloc(), own, bases, wanted), "{own} anew");
    }
}
