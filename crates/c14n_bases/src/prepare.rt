//! Preparing a base, so that what is put before a value below it is found without a search.
ghost use Rattle.std.specs.Prelude.{◌≡◌, ℕ, ◌≤◌, ◌+◌, ◌-◌, ◌*◌, ◌++◌, ◌∷◌, ◌||◌, List, [], None, false, codes, drop, is_some, length, vec_capacity};
ghost use Rattle.c14n_bases.specs.Join.{authority_octets, begins, clean, cleaned_value, cut, is_absolute, is_empty, put_together, scheme_octets};
ghost use Rattle.c14n_bases.specs.Code.Below.{behind_slashes, directory_below, starts_below, upwards_below, IsShape};
ghost use Rattle.c14n_bases.specs.Code.Climbs.{climbs};
ghost use Rattle.c14n_bases.specs.Code.Slices.{parts_of, parts_weight};

use crate::clean::is_absolute;
use crate::cut::{Parts, cut};
use crate::fill::{push_authority, push_path, push_query, push_scheme};
use crate::join::has_no_path;
use crate::kind::{Kind, kind_of_parts};
use crate::place::count_upwards;

/// What is known of a base. Its places are counted from where its value begins.
#[derive(Clone, Copy)]
pub(crate) struct Shape {
    pub kind: Kind,
    pub has_scheme: bool,
    /// Where its scheme ends, and the colon behind it.
    pub scheme: usize,
    /// Where its authority ends.
    pub roots: usize,
    /// Where its path ends.
    pub path: usize,
    /// Whether a relative path below it stands below `/`.
    pub absolute: bool,
    /// With how many `../` the directory begins in which a relative path stands.
    pub upwards: usize,
}

/// Where the parts of a value end, counted from where it begins.
#[derive(Clone, Copy)]
struct Ends {
    scheme: usize,
    roots: usize,
    path: usize,
}

/// Appends the value of these parts, with its path cleaned.
fn push_value(parts: Parts<'_>, texts: &mut Vec<u8>) -> Ends
    requires { length texts.old.items + parts_weight (parts_of parts) + 4 ≤ vec_capacity texts.old }
    ensures items { texts.new.items ≡ texts.old.items ++ cleaned_value (parts_of parts.entry) }
    ensures scheme { result.scheme ≡ length (scheme_octets (parts_of parts.entry).scheme) }
    ensures roots { result.roots ≡ length (scheme_octets (parts_of parts.entry).scheme ++ authority_octets (parts_of parts.entry).authority) }
    ensures path { result.path ≡ length (put_together (parts_of parts.entry).scheme (parts_of parts.entry).authority
        (clean (parts_of parts.entry).path) None) }
    ensures capacity { vec_capacity texts.old ≤ vec_capacity texts.new }
{
    let begin = texts.len();
    push_scheme(texts, parts.scheme);
    let scheme = texts.len() - begin;
    push_authority(texts, parts.authority);
    let roots = texts.len() - begin;
    push_path(texts, is_absolute(parts.path), b"", parts.path);
    let path = texts.len() - begin;
    push_query(texts, parts.query);
    Ends {
        scheme,
        roots,
        path,
    }
}

/// Puts a place in the list, which has room for it.
fn push_place(starts: &mut Vec<usize>, place: usize)
    requires { length starts.old.items + 1 ≤ vec_capacity starts.old }
    ensures items { starts.new.items ≡ starts.old.items ++ place ∷ [] }
    ensures capacity { vec_capacity starts.old ≤ vec_capacity starts.new }
{
    starts.push(place).unwrap();
}

/// Puts a place of a text in the list, and those behind each `/` after it.
fn push_starts(text: &[u8], from: usize, starts: &mut Vec<usize>)
    requires within { from ≤ length text.now }
    requires room { length starts.old.items + (length text.now - from) + 1 ≤ vec_capacity starts.old }
    ensures items { starts.new.items ≡ starts.old.items ++ from ∷ behind_slashes from (drop from text.now) }
    ensures capacity { vec_capacity starts.old ≤ vec_capacity starts.new }
{
    push_place(starts, from);
    for i in from..text.len() {
        if text[i] == b'/' {
            push_place(starts, i + 1);
        }
    }
}

/// Finds the names of the directory in which a relative path stands below a base, in the value of the base without its
/// query. What is given is how many `../` are before them.
fn push_names(base: Parts<'_>, text: &[u8], roots: usize, starts: &mut Vec<usize>) -> usize
    requires text { text.now ≡ put_together (parts_of base).scheme (parts_of base).authority (clean (parts_of base).path) None }
    requires roots { roots ≡ length (scheme_octets (parts_of base).scheme ++ authority_octets (parts_of base).authority) }
    requires room { length starts.old.items + length base.path.now + 4 ≤ vec_capacity starts.old }
    ensures upwards { result ≡ upwards_below (parts_of base.entry) }
    ensures items { starts.new.items ≡ starts.old.items ++ starts_below (parts_of base.entry) }
    ensures capacity { vec_capacity starts.old ≤ vec_capacity starts.new }
{
    let first = roots + usize::from(is_absolute(base.path));
    let upwards = count_upwards(&text[first..]);
    push_starts(text, first + 3 * upwards, starts);
    upwards
}

/// Whether a relative path below a base stands below `/`.
fn is_below_root(base: Parts<'_>) -> bool
    ensures { result ≡ is_absolute (directory_below (parts_of base.entry)) }
{
    has_no_path(base) || is_absolute(base.path)
}

/// Appends the value of a base, and the places of the names in it below which relative paths stand.
pub(crate) fn prepare(base: &[u8], texts: &mut Vec<u8>, starts: &mut Vec<usize>) -> Shape
    requires texts { length texts.old.items + length base.now + 4 ≤ vec_capacity texts.old }
    requires starts { length starts.old.items + length base.now + 4 ≤ vec_capacity starts.old }
    ensures texts { texts.new.items ≡ texts.old.items ++ cleaned_value (cut base.now) }
    ensures starts { starts.new.items ≡ starts.old.items ++ starts_below (cut base.now) }
    ensures shape { IsShape (cut base.now) result }
    ensures texts_capacity { vec_capacity texts.old ≤ vec_capacity texts.new }
    ensures starts_capacity { vec_capacity starts.old ≤ vec_capacity starts.new }
{
    let parts = cut(base);
    let begin = texts.len();
    let ends = push_value(parts, texts);
    let text = &texts[begin..begin + ends.path];
    let upwards = push_names(parts, text, ends.roots, starts);
    Shape {
        kind: kind_of_parts(parts),
        has_scheme: parts.scheme.is_some(),
        scheme: ends.scheme,
        roots: ends.roots,
        path: ends.path,
        absolute: is_below_root(parts),
        upwards,
    }
}
