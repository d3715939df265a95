//! Bases that are prepared: taken apart and cleaned once, so that joining below one doesn't go through it.
ghost use Rattle.std.specs.Prelude.{◌≡◌, ◌≤◌, ◌<◌, ◌+◌, ◌*◌, ◌^◌, ◌++◌, ℕ, List, [], ◌∷◌, None, cond, true, false, codes, drop, is_some, length, take, vec_capacity, IfOk};
ghost use Rattle.c14n_bases.specs.Join.{Parts, authority_octets, begins, clean, cleaned_value, cut, put_together, relative_path, scheme_octets};
ghost use Rattle.c14n_bases.specs.Joined.{base_at, weights};
ghost use Rattle.c14n_bases.specs.Code.Below.{starts_below, IsKnown, IsShape};
ghost use Rattle.c14n_bases.specs.Code.Clean.{kind_of};
ghost use Rattle.c14n_bases.specs.Code.Climbs.{Climbs, climbs};
ghost use Rattle.c14n_bases.specs.Code.Prepared.{between, EndAt};
ghost use Rattle.c14n_bases.specs.declared.kind.Kind.TheVariants.{Relative};

use crate::fill::push_all;
use crate::kind::Kind;
use crate::prepare::{Shape, prepare};
use sig_base::NoMemory;
use std::alloc::Global;
use std::marker::Model;

/// Where something ends in each of the buffers.
#[derive(Clone, Copy)]
pub(crate) struct Ends {
    pub raw: usize,
    pub texts: usize,
    pub starts: usize,
}

/// Where a base stands in the buffers, and what is known of it.
#[derive(Clone, Copy)]
pub(crate) struct Prepared {
    pub from: Ends,
    pub until: Ends,
    pub shape: Shape,
}

/// Bases that are taken apart and cleaned once, so that joining below one doesn't go through it.
#[derive(Drop)]
pub struct Bases {
    /// The bases as they were given.
    raw: Vec<u8>,
    /// The value of each, with its path cleaned.
    texts: Vec<u8>,
    /// For each, where the names begin in its value of the directory in which relative paths stand, and where the last
    /// one ends.
    starts: Vec<usize>,
    places: Vec<Prepared>,
    count: usize,
    room: usize,
}

impl Model for Bases {
    ghost use Rattle.c14n_bases.specs.Joined.{PreparedBases};

    ghost Value = { PreparedBases };

    ghost use Rattle.c14n_bases.specs.Code.Stand.{prepared_bases, Stand};

    ghost view = { prepared_bases };

    ghost invariant = { Stand };
}

/// Where the buffers end.
fn ends_of(raw: &[u8], texts: &[u8], starts: &[usize]) -> Ends
    ensures { EndAt raw.now texts.now starts.now result }
{
    Ends {
        raw: raw.len(),
        texts: texts.len(),
        starts: starts.len(),
    }
}

/// What stands between two places.
fn part(starts: &[usize], from: usize, until: usize) -> &[usize]
    requires up { from ≤ until }
    requires within { until ≤ length starts.now }
    ensures { result.now ≡ between from until starts.now }
{
    &starts[from..until]
}

/// Puts a base in the list, which has room for it.
fn push_prepared(places: &mut Vec<Prepared>, place: Prepared)
    requires { length places.old.items + 1 ≤ vec_capacity places.old }
    ensures items { places.new.items ≡ places.old.items ++ place ∷ [] }
    ensures capacity { vec_capacity places.old ≤ vec_capacity places.new }
{
    places.push(place).unwrap();
}

/// What stands before a relative path below a base.
#[derive(Clone, Copy)]
pub(crate) struct Climb<'b> {
    /// Whether `/` stands first.
    pub absolute: bool,
    /// So many `../` come next.
    pub upwards: usize,
    /// The names behind them, each with `/` behind it.
    pub names: &'b [u8],
}

/// The same for a base of which this is known, by its value and by where the names in it begin.
fn climb_from<'b>(shape: Shape, text: &'b [u8], starts: &[usize], ups: usize) -> Climb<'b>
    requires known { (base : Parts) × IsKnown base shape text.now starts.now }
    requires few { ups < 2 ^ 63 }
    ensures joins { (base : Parts) → IsKnown base shape text.entry.now starts.now → (path rest : List ℕ) → Climbs path ups rest
        → clean (relative_path base path) ≡ cond result.absolute (codes "/") [] ++ climbs result.upwards ++ result.names.now ++ rest }
    ensures all { (rest : List ℕ) → begins (codes "../") rest ≡ false → begins (codes "../") (result.names.now ++ rest) ≡ false }
    ensures root { result.absolute ≡ true → result.upwards ≡ 0 }
{
    let names = starts.len() - 1;
    let met = names.min(ups);
    Climb {
        absolute: shape.absolute,
        upwards: upwards_left(shape, ups - met),
        names: &text[starts[0]..starts[names - met]],
    }
}

/// How many `../` stand there where so many more of a value meet no name.
fn upwards_left(shape: Shape, more: usize) -> usize
    requires { shape.upwards + more < 2 ^ 64 }
    ensures { result ≡ cond shape.absolute 0 (shape.upwards + more) }
{
    if shape.absolute {
        0
    } else {
        shape.upwards + more
    }
}

impl Bases {
    /// No base, and room for so many of so many octets.
    pub fn with_room(alloc: Global, count: usize, room: usize) -> Result<Bases, NoMemory>
        ensures { IfOk result (λ b. (b.bases ≡ []) × (b.count ≡ count) × (b.room ≡ room)) }
    {
        let raw = Vec::with_capacity(alloc, room)?;
        let texts = Vec::with_capacity(alloc, room)?;
        let starts = Vec::with_capacity(alloc, room)?;
        let places = Vec::with_capacity(alloc, count)?;
        Ok(Bases {
            raw,
            texts,
            starts,
            places,
            count,
            room,
        })
    }

    /// Prepares one base more.
    pub fn push(&mut self, base: &[u8])
        requires count { length self.old.bases < self.old.count }
        requires room { weights (self.old.bases ++ base.now ∷ []) ≤ self.old.room }
        ensures bases { self.new.bases ≡ self.old.bases ++ base.now ∷ [] }
        ensures count { self.new.count ≡ self.old.count }
        ensures room { self.new.room ≡ self.old.room }
    {
        let from = ends_of(&self.raw, &self.texts, &self.starts);
        let shape = prepare(base, &mut self.texts, &mut self.starts);
        push_all(&mut self.raw, base);
        let until = ends_of(&self.raw, &self.texts, &self.starts);
        push_prepared(&mut self.places, Prepared { from, until, shape });
    }

    /// Keeps the first `count` bases.
    pub fn truncate(&mut self, count: usize)
        requires { count ≤ length self.old.bases }
        ensures bases { self.new.bases ≡ take count self.old.bases }
        ensures count { self.new.count ≡ self.old.count }
        ensures room { self.new.room ≡ self.old.room }
    {
        if count < self.places.len() {
            let ends = self.places[count].from;
            self.raw.truncate(ends.raw);
            self.texts.truncate(ends.texts);
            self.starts.truncate(ends.starts);
            self.places.truncate(count);
        }
    }

    /// How many bases there are.
    pub fn len(&self) -> usize
        ensures { result ≡ length self.now.bases }
    {
        self.places.len()
    }

    /// What is known of the base at a place.
    fn shape(&self, k: usize) -> Shape
        requires { k < length self.now.bases }
        ensures { IsShape (cut (base_at self.now.bases k)) result }
    {
        let place = self.places[k];
        place.shape
    }

    /// Where the names begin in its value of the directory in which relative paths stand, and where the last one ends.
    fn starts(&self, k: usize) -> &[usize]
        requires { k < length self.now.bases }
        ensures { result.now ≡ starts_below (cut (base_at self.now.bases k)) }
    {
        let place = self.places[k];
        part(&self.starts, place.from.starts, place.until.starts)
    }

    /// What the base at a place begins with.
    pub(crate) fn kind(&self, k: usize) -> Kind
        requires { k < length self.now.bases }
        ensures { result ≡ kind_of (cut (base_at self.now.bases k)) }
    {
        self.shape(k).kind
    }

    /// Whether it has a scheme.
    pub(crate) fn has_scheme(&self, k: usize) -> bool
        requires { k < length self.now.bases }
        ensures { result ≡ is_some (cut (base_at self.now.bases k)).scheme }
    {
        self.shape(k).has_scheme
    }

    /// Its scheme, and the colon behind it.
    pub(crate) fn scheme(&self, k: usize) -> &[u8]
        requires { k < length self.now.bases }
        ensures { result.now ≡ scheme_octets (cut (base_at self.now.bases k)).scheme }
    {
        &self.whole(k)[..self.shape(k).scheme]
    }

    /// Its scheme and its authority.
    pub(crate) fn roots(&self, k: usize) -> &[u8]
        requires { k < length self.now.bases }
        ensures { result.now ≡ scheme_octets (cut (base_at self.now.bases k)).scheme
            ++ authority_octets (cut (base_at self.now.bases k)).authority }
    {
        &self.whole(k)[..self.shape(k).roots]
    }

    /// Its value, with its path cleaned, without its query.
    pub(crate) fn without_query(&self, k: usize) -> &[u8]
        requires { k < length self.now.bases }
        ensures { result.now ≡ put_together (cut (base_at self.now.bases k)).scheme (cut (base_at self.now.bases k)).authority
            (clean (cut (base_at self.now.bases k)).path) None }
    {
        &self.whole(k)[..self.shape(k).path]
    }

    /// Its value, with its path cleaned.
    pub(crate) fn whole(&self, k: usize) -> &[u8]
        requires { k < length self.now.bases }
        ensures { result.now ≡ cleaned_value (cut (base_at self.now.bases k)) }
    {
        let place = self.places[k];
        &self.texts[place.from.texts..place.until.texts]
    }

    /// With how many `../` the value begins of a relative base.
    pub(crate) fn upwards(&self, k: usize) -> usize
        requires { k < length self.now.bases }
        ensures climbs { kind_of (cut (base_at self.now.bases k)) ≡ Relative → cleaned_value (cut (base_at self.now.bases k))
            ≡ climbs result ++ drop (3 * result) (cleaned_value (cut (base_at self.now.bases k))) }
        ensures all { kind_of (cut (base_at self.now.bases k)) ≡ Relative
            → begins (codes "../") (drop (3 * result) (cleaned_value (cut (base_at self.now.bases k)))) ≡ false }
        ensures within { 3 * result ≤ length (cleaned_value (cut (base_at self.now.bases k))) }
    {
        self.shape(k).upwards
    }

    /// What stands, behind the scheme and the authority, before a relative path that goes upwards so often.
    pub(crate) fn climb(&self, k: usize, ups: usize) -> Climb<'_>
        requires base { k < length self.now.bases }
        requires few { ups < 2 ^ 63 }
        ensures joins { (path rest : List ℕ) → Climbs path ups rest → clean (relative_path (cut (base_at self.now.bases k)) path)
            ≡ cond result.absolute (codes "/") [] ++ climbs result.upwards ++ result.names.now ++ rest }
        ensures all { (rest : List ℕ) → begins (codes "../") rest ≡ false → begins (codes "../") (result.names.now ++ rest) ≡ false }
        ensures root { result.absolute ≡ true → result.upwards ≡ 0 }
    {
        climb_from(self.shape(k), self.whole(k), self.starts(k), ups)
    }
}
