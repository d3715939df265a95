//! Each row is from hand and RFC 3986 §5.4, where its rule is the same.
use super::Bases;
use std::alloc::Global;

/// What a base gives for a relative path that goes upwards so often, and then has this.
fn climbed(alloc: Global, base: &str, ups: usize, rest: &str, wanted: &str) -> bool {
    let Ok(mut bases) = Bases::with_room(alloc, 2, 200) else {
        return false;
    };
    let Ok(mut text) = Vec::with_capacity(alloc, 400) else {
        return false;
    };
    if base.len() > 90 || rest.len() > 50 || ups > 20 || text.capacity() < 400 {
        return false;
    }
    bases.push(b"x/y/../z?q");
    bases.push(b"gone");
    bases.truncate(1);
    bases.push(base.as_bytes());
    let climb = bases.climb(1, ups);
    let ok = text.extend_from_slice(bases.roots(1)).is_ok()
        && (!climb.absolute || text.extend_from_slice(b"/").is_ok());
    for _ in 0..climb.upwards {
        if text.extend_from_slice(b"../").is_err() {
            return false;
        }
    }
    ok && text.extend_from_slice(climb.names).is_ok()
        && text.extend_from_slice(rest.as_bytes()).is_ok()
        && text.as_slice() == wanted.as_bytes()
        && bases.whole(0) == b"x/z?q".as_slice()
}

#[test]
fn climbs(rt: HostRuntime) {
    let rows = [
        ("http://a/b/c/d;p?q", 0, "g", "http://a/b/c/g"),
        ("http://a/b/c/d;p?q", 1, "g", "http://a/b/g"),
        ("http://a/b/c/d;p?q", 3, "g", "http://a/g"),
        ("http://h", 1, "a", "http://h/a"),
        ("http://h?q", 0, "", "http://h/"),
        ("../../a/b/c", 1, "d", "../../a/d"),
        ("../../a/b/c", 3, "d", "../../../d"),
        ("a/b/../..", 1, "d", "../d"),
        ("a/b/..", 1, "d", "d"),
        ("a", 0, "d", "d"),
        ("/a/./b/..?q/r", 0, "d", "/a/d"),
        ("", 2, "d", "../../d"),
    ];
    for (base, ups, rest, wanted) in rows.iter() {
        assert!(rt;
            climbed(rt.alloc(), base, *ups, rest, wanted),
            "{base} and {ups}"
        );
    }
}
