//! What stands before a cleaned value where it is joined below a base.
ghost use Rattle.std.specs.Prelude.{◌≡◌, ◌<◌, ◌*◌, ◌^◌, ◌++◌, ◌&&◌, not, ℕ, List, None, false, cond, codes, drop, length};
ghost use Rattle.c14n_bases.specs.Join.{authority_octets, begins, clean, cut, is_empty, join, put_together, relative_path, scheme_octets};
ghost use Rattle.c14n_bases.specs.Joined.{base_at};
ghost use Rattle.c14n_bases.specs.Code.Clean.{kind_of};
ghost use Rattle.c14n_bases.specs.Code.Climbs.{Climbs, climbs};
ghost use Rattle.c14n_bases.specs.Code.Placed.{CleansTo, front_octets};
ghost use Rattle.c14n_bases.specs.declared.kind.Kind.TheVariants.{Relative};

use crate::Bases;
use crate::cut::is_empty;
use crate::kind::Kind;

/// What stands before a value below a base.
#[derive(Clone, Copy)]
pub(crate) struct Front<'b> {
    /// The scheme and the authority.
    pub roots: &'b [u8],
    /// Whether `/` stands behind them.
    pub absolute: bool,
    /// So many `../` come next.
    pub upwards: usize,
    /// What stands behind them.
    pub names: &'b [u8],
}

/// Whether nothing stands before the `../` of a front.
pub(crate) fn begins_upwards(front: Front<'_>) -> bool
    ensures { result ≡ (is_empty front.entry.roots.now && not front.entry.absolute) }
{
    front.roots.is_empty() && !front.absolute
}

/// A front that doesn't begin with `../`, or that goes before a value that stays as it is.
fn plain(octets: &[u8]) -> Front<'_>
    ensures octets { front_octets result ≡ octets.now }
    ensures upwards { result.upwards ≡ 0 }
{
    Front {
        roots: b"",
        absolute: false,
        upwards: 0,
        names: octets,
    }
}

/// Octets that begin with so many `../`, which are counted.
fn counted(octets: &[u8], upwards: usize) -> Front<'_>
    requires { octets.now ≡ climbs upwards ++ drop (3 * upwards) octets.now }
    ensures { front_octets result ≡ octets.now }
{
    let behind = 3 * upwards;
    Front {
        roots: b"",
        absolute: false,
        upwards,
        names: &octets[behind..],
    }
}

/// The value of a base, without its query where there is one of its own.
fn whole_octets(bases: &Bases, k: usize, has_query: bool) -> &[u8]
    requires { k < length bases.now.bases }
    ensures { result.now ≡ put_together (cut (base_at bases.now.bases k)).scheme (cut (base_at bases.now.bases k)).authority
        (clean (cut (base_at bases.now.bases k)).path) (cond has_query None (cut (base_at bases.now.bases k)).query) }
{
    if has_query {
        bases.without_query(k)
    } else {
        bases.whole(k)
    }
}

/// The same as a front, with its `../` counted.
pub(crate) fn whole_front(bases: &Bases, k: usize, has_query: bool) -> Front<'_>
    requires { k < length bases.now.bases }
    ensures octets { front_octets result ≡ put_together (cut (base_at bases.now.bases k)).scheme (cut (base_at bases.now.bases k)).authority
        (clean (cut (base_at bases.now.bases k)).path) (cond has_query None (cut (base_at bases.now.bases k)).query) }
    ensures only { (kind_of (cut (base_at bases.now.bases k)) ≡ Relative → ⊥) → result.upwards ≡ 0 }
{
    let octets = whole_octets(bases, k, has_query);
    if let Kind::Relative = bases.kind(k) {
        counted(octets, bases.upwards(k))
    } else {
        plain(octets)
    }
}

/// What stands before a relative value that goes upwards so often.
fn relative_front(bases: &Bases, k: usize, upwards: usize) -> Front<'_>
    requires base { k < length bases.now.bases }
    requires few { upwards < 2 ^ 63 }
    ensures { (path rest : List ℕ) → Climbs path upwards rest → front_octets result ++ rest
        ≡ (scheme_octets (cut (base_at bases.now.bases k)).scheme ++ authority_octets (cut (base_at bases.now.bases k)).authority)
        ++ clean (relative_path (cut (base_at bases.now.bases k)) path) }
{
    let climb = bases.climb(k, upwards);
    Front {
        roots: bases.roots(k),
        absolute: climb.absolute,
        upwards: climb.upwards,
        names: climb.names,
    }
}

/// What stands before a cleaned value below a base, which takes the place of its `../`.
pub(crate) fn front_of<'b>(
    kind: Kind,
    upwards: usize,
    tail: &[u8],
    bases: &'b Bases,
    k: usize,
) -> Front<'b>
    requires base { k < length bases.now.bases }
    requires few { upwards < 2 ^ 63 }
    ensures { (text : List ℕ) → CleansTo text kind upwards tail.now → (kind ≡ Relative → begins (codes "../") tail.now ≡ false)
        → front_octets result ++ tail.now ≡ join (base_at bases.now.bases k) text }
{
    match kind {
        Kind::Scheme => plain(b""),
        Kind::Authority => plain(bases.scheme(k)),
        Kind::Absolute => plain(bases.roots(k)),
        Kind::Empty => whole_front(bases, k, !is_empty(tail)),
        Kind::Relative => relative_front(bases, k, upwards),
    }
}
