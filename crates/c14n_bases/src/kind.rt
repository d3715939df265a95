//! What a value begins with.
ghost use Rattle.std.specs.Prelude.{◌≡◌, ◌||◌, ◌&&◌, not, ℕ, List, codes, is_some};
ghost use Rattle.c14n_bases.specs.Join.{begins, below, cut, has_scheme, is_empty, join};
ghost use Rattle.c14n_bases.specs.Code.Clean.{Fits, kind_of};
ghost use Rattle.c14n_bases.specs.Code.Slices.{parts_of};

use crate::clean::is_absolute;
use crate::cut::{Parts, is_empty};

/// The first part of a value that is there.
#[derive(Clone, Copy)]
pub(crate) enum Kind {
    Scheme,
    Authority,
    Absolute,
    /// Its path is empty.
    Empty,
    Relative,
}

/// What parts begin with.
pub(crate) fn kind_of_parts(parts: Parts<'_>) -> Kind
    ensures { result ≡ kind_of (parts_of parts.entry) }
{
    if parts.scheme.is_some() {
        Kind::Scheme
    } else if parts.authority.is_some() {
        Kind::Authority
    } else if is_absolute(parts.path) {
        Kind::Absolute
    } else if is_empty(parts.path) {
        Kind::Empty
    } else {
        Kind::Relative
    }
}

/// Whether the path is empty of a value that has no scheme and no authority.
fn has_empty_path(value: &[u8]) -> bool
    ensures { result ≡ (is_empty value.now || (begins (codes "?") value.now || begins (codes "#") value.now)) }
{
    value.is_empty() || value.starts_with(b"?") || value.starts_with(b"#")
}

/// What a value begins with, where it is known whether that is a scheme.
fn kind_of(value: &[u8], is_scheme: bool) -> Kind
    requires { is_scheme ≡ has_scheme value.now }
    ensures { result ≡ kind_of (cut value.now) }
{
    if is_scheme {
        Kind::Scheme
    } else if value.starts_with(b"//") {
        Kind::Authority
    } else if value.starts_with(b"/") {
        Kind::Absolute
    } else if has_empty_path(value) {
        Kind::Empty
    } else {
        Kind::Relative
    }
}

/// Whether the first segment of a value looks like a scheme, where its parts have none.
fn is_misread(is_scheme: bool, with_scheme: bool) -> bool
    ensures { result ≡ (not with_scheme && is_scheme) }
{
    !with_scheme && is_scheme
}

/// What is known of a joined value, where it is known whether a scheme begins it, and whether its parts have one.
pub(crate) fn known_kind(value: &[u8], is_scheme: bool, with_scheme: bool) -> Option<Kind>
    requires { is_scheme ≡ has_scheme value.now }
    ensures { (base own : List ℕ) → value.now ≡ join base own → with_scheme ≡ is_some (below (cut base) (cut own)).scheme
        → Fits result value.now }
{
    if is_misread(is_scheme, with_scheme) {
        None
    } else {
        Some(kind_of(value, is_scheme))
    }
}
