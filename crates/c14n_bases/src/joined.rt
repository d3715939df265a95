//! A value that is joined below one base after another, the nearest first.
//!
//! It stands at the end of its buffer and grows at its front. The `../` that it begins with are counted and not written,
//! so that what is put before it stays, and the work is linear in that.
ghost use Rattle.std.specs.Prelude.{◌≡◌, ◌==◌, ℕ, List, ◌≤◌, ◌<◌, ◌+◌, ◌*◌, ◌++◌, [], ◌||◌, cond, codes, true, drop, is_some, length, vec_capacity, IfOk};
ghost use Rattle.c14n_bases.specs.Join.{below, cleaned_value, cut, join};
ghost use Rattle.c14n_bases.specs.Joined.{base_at};
ghost use Rattle.c14n_bases.specs.Code.Clean.{Fits, kind_of};
ghost use Rattle.c14n_bases.specs.Code.Climbs.{climbs};
ghost use Rattle.c14n_bases.specs.Code.Placed.{CleansTo, HasRoom, Stands, Starts, front_octets, value_at};

use crate::Bases;
use crate::cut::{cut, has_scheme};
use crate::fill::fill_value;
use crate::front::{Front, begins_upwards, front_of, whole_front};
use crate::join::{join_into, whole};
use crate::kind::{Kind, kind_of_parts};
use crate::place::{Place, Start, counted, known_place, start_near, start_of};
use sig_base::NoMemory;
use std::alloc::Global;
use std::marker::Model;

/// Puts octets before those that begin at `from`. What is given is where they begin then.
fn put_before(buffer: &mut [u8], from: usize, front: &[u8]) -> usize
    requires within { from ≤ length buffer.old }
    requires room { length front.now ≤ from }
    ensures value { drop result buffer.new ≡ front.now ++ drop from buffer.old }
    ensures begin { result + length front.now ≡ from }
    ensures within { result ≤ length buffer.new }
{
    let begin = from - front.len();
    buffer[begin..from].copy_from_slice(front);
    begin
}

/// Puts so many `../` before what begins at `from`.
fn put_upwards(buffer: &mut [u8], from: usize, count: usize) -> usize
    requires within { from ≤ length buffer.old }
    requires room { 3 * count ≤ from }
    ensures value { drop result buffer.new ≡ climbs count ++ drop from buffer.old }
    ensures begin { result + 3 * count ≡ from }
    ensures within { result ≤ length buffer.new }
{
    let mut begin = from;
    for _ in 0..count {
        begin = put_before(buffer, begin, b"../");
    }
    begin
}

/// The `/` at the root.
fn slash_if(wanted: bool) -> &'static [u8]
    ensures { result.now ≡ cond wanted (codes "/") [] }
{
    if wanted { b"/" } else { b"" }
}

/// Puts what stands behind the `../` of a front, and these where something stands before them. What is given is where
/// that begins, and how many `../` are not written.
fn put_octets(buffer: &mut [u8], from: usize, front: Front<'_>) -> (usize, usize)
    requires within { from ≤ length buffer.old }
    requires room { length (front_octets front) ≤ from }
    ensures value { climbs result.1 ++ drop result.0 buffer.new ≡ front_octets front.entry ++ drop from buffer.old }
    ensures behind { drop from buffer.new ≡ drop from buffer.old }
    ensures counted { front.entry.upwards ≡ 0 → result.1 ≡ 0 }
    ensures room { 3 * result.1 ≤ result.0 }
    ensures within { result.0 ≤ length buffer.new }
{
    let behind = put_before(buffer, from, front.names);
    if begins_upwards(front) {
        return (behind, front.upwards);
    }
    let upwards = put_upwards(buffer, behind, front.upwards);
    let root = put_before(buffer, upwards, slash_if(front.absolute));
    (put_before(buffer, root, front.roots), 0)
}

/// Puts a front before a value.
fn put_front(buffer: &mut [u8], start: Start, front: Front<'_>) -> Start
    requires starts { Starts start buffer.old }
    requires room { length (front_octets front) ≤ start.from }
    ensures value { value_at result buffer.new ≡ front_octets front.entry ++ drop start.from buffer.old }
    ensures starts { Starts result buffer.new }
    ensures counted { front.entry.upwards ≡ 0 → result.upwards ≡ 0 }
{
    let (from, upwards) = put_octets(buffer, start.from, front);
    start_near(buffer, from, upwards, start)
}

/// Whether the parts of a value below a base have a scheme.
fn is_with_scheme(kind: Kind, bases: &Bases, k: usize) -> bool
    requires { k < length bases.now.bases }
    ensures { (text : List ℕ) → kind ≡ kind_of (cut text) → result ≡ is_some (below (cut (base_at bases.now.bases k)) (cut text)).scheme }
{
    if let Kind::Scheme = kind {
        true
    } else {
        bases.has_scheme(k)
    }
}

/// Joins a cleaned value.
fn join_cleaned(buffer: &mut [u8], start: Start, kind: Kind, bases: &Bases, k: usize) -> Place
    requires base { k < length bases.now.bases }
    requires starts { Starts start buffer.old }
    requires room { HasRoom (base_at bases.now.bases k) kind start buffer.old }
    ensures value { (text : List ℕ) → CleansTo text kind start.upwards (drop start.from buffer.old)
        → value_at result.start buffer.new ≡ join (base_at bases.now.bases k) text }
    ensures stands { Stands result buffer.new }
{
    let start = counted(buffer, start, kind);
    let front = front_of(kind, start.upwards, &buffer[start.from..], bases, k);
    let begin = put_front(buffer, start, front);
    let with_scheme = is_with_scheme(kind, bases, k);
    known_place(buffer, begin, with_scheme)
}

/// Puts the value in `spare`, cleaned by itself. What is given is what its parts begin with.
fn clean_own(value: &[u8], spare: &mut Vec<u8>) -> Kind
    requires { length value.now + 4 ≤ vec_capacity spare.old }
    ensures kind { result ≡ kind_of (cut value.now) }
    ensures items { spare.new.items ≡ cleaned_value (cut value.now) }
    ensures capacity { vec_capacity spare.old ≤ vec_capacity spare.new }
{
    let own = cut(value);
    let value = whole(own.scheme, own.authority, own.path, own.query);
    fill_value(value, spare);
    kind_of_parts(own)
}

/// Joins a value of which nothing is known.
fn join_raw(buffer: &mut [u8], from: usize, bases: &Bases, k: usize, spare: &mut Vec<u8>) -> Place
    requires base { k < length bases.now.bases }
    requires within { from ≤ length buffer.old }
    requires room { length (base_at bases.now.bases k) + length (drop from buffer.old) + 4 ≤ length buffer.old }
    requires spare { length (drop from buffer.old) + 4 ≤ vec_capacity spare.old }
    ensures value { value_at result.start buffer.new ≡ join (base_at bases.now.bases k) (drop from buffer.old) }
    ensures stands { Stands result buffer.new }
    ensures capacity { vec_capacity spare.old ≤ vec_capacity spare.new }
{
    let kind = clean_own(&buffer[from..], spare);
    let begin = put_before(buffer, buffer.len(), spare);
    let start = start_of(buffer, begin);
    join_cleaned(buffer, start, kind, bases, k)
}

/// Joins the value that stands at a place.
fn join_at(buffer: &mut [u8], place: Place, bases: &Bases, k: usize, spare: &mut Vec<u8>) -> Place
    requires base { k < length bases.now.bases }
    requires stands { Stands place buffer.old }
    requires room { length (base_at bases.now.bases k) + length (value_at place.start buffer.old) + 4 ≤ length buffer.old }
    requires spare { length (value_at place.start buffer.old) + 4 ≤ vec_capacity spare.old }
    ensures value { value_at result.start buffer.new ≡ join (base_at bases.now.bases k) (value_at place.start buffer.old) }
    ensures stands { Stands result buffer.new }
    ensures capacity { vec_capacity spare.old ≤ vec_capacity spare.new }
{
    match place.kind {
        Some(kind) => join_cleaned(buffer, place.start, kind, bases, k),
        None => join_raw(buffer, place.start.from, bases, k, spare),
    }
}

/// Puts the value of a base below another at the end.
fn join_bases(buffer: &mut [u8], bases: &Bases, inner: usize, outer: usize) -> Place
    requires inner { inner < length bases.now.bases }
    requires outer { outer < length bases.now.bases }
    requires room { length (base_at bases.now.bases inner) + length (base_at bases.now.bases outer) + 8 ≤ length buffer.old }
    ensures value { value_at result.start buffer.new ≡ join (base_at bases.now.bases outer) (base_at bases.now.bases inner) }
    ensures stands { Stands result buffer.new }
{
    let end = start_of(buffer, buffer.len());
    let front = whole_front(bases, inner, false);
    let start = put_front(buffer, end, front);
    join_cleaned(buffer, start, bases.kind(inner), bases, outer)
}

/// Whether the parts of a joined value have a scheme.
fn is_scheme_below(base: &[u8], value: &[u8]) -> bool
    ensures { result ≡ is_some (below (cut base.now) (cut value.now)).scheme }
{
    has_scheme(base) || has_scheme(value)
}

/// Joins a value below a base that isn't prepared.
fn join_anew(buffer: &mut [u8], from: usize, base: &[u8], spare: &mut Vec<u8>) -> Place
    requires within { from ≤ length buffer.old }
    requires room { length base.now + length (drop from buffer.old) + 4 ≤ length buffer.old }
    requires spare { length base.now + length (drop from buffer.old) + 4 ≤ vec_capacity spare.old }
    ensures value { value_at result.start buffer.new ≡ join base.now (drop from buffer.old) }
    ensures upwards { result.start.upwards ≡ 0 }
    ensures stands { Stands result buffer.new }
    ensures capacity { vec_capacity spare.old ≤ vec_capacity spare.new }
{
    let value = &buffer[from..];
    join_into(base, value, spare);
    let with_scheme = is_scheme_below(base, value);
    let begin = put_before(buffer, buffer.len(), spare);
    let start = start_of(buffer, begin);
    known_place(buffer, start, with_scheme)
}

/// Writes the `../` that are counted.
fn settled(buffer: &mut [u8], start: Start) -> Start
    requires { Starts start buffer.old }
    ensures value { value_at result buffer.new ≡ value_at start buffer.old }
    ensures upwards { result.upwards ≡ 0 }
    ensures starts { Starts result buffer.new }
{
    let begin = put_upwards(buffer, start.from, start.upwards);
    start_near(buffer, begin, 0, start)
}

/// A value of `xml:base` that is joined below one base after another, the nearest first.
#[derive(Drop)]
pub struct Joined {
    buffer: Vec<u8>,
    /// Where the value begins. It ends where the buffer does.
    place: Place,
}

impl Model for Joined {
    ghost use Rattle.std.specs.Prelude.{◌==◌, length};
    ghost use Rattle.c14n_bases.specs.Joined.{JoinedValue};
    ghost use Rattle.c14n_bases.specs.Code.Placed.{Stands, value_at};

    ghost Value = { JoinedValue };

    ghost view = { λ j. record { value = value_at j.place.start j.buffer.items; room = length j.buffer.items; settled = j.place.start.upwards == 0 } };

    ghost invariant = { λ j. Stands j.place j.buffer.items };
}

impl Joined {
    /// An empty value, and room for one of so many octets.
    pub fn with_room(alloc: Global, room: usize) -> Result<Joined, NoMemory>
        ensures { IfOk result (λ joined. (joined.value ≡ []) × (joined.room ≡ room)) }
    {
        let buffer = vec![in alloc; 0u8; room]?;
        let start = start_of(&buffer, room);
        Ok(Joined {
            buffer,
            place: Place { start, kind: None },
        })
    }

    /// Puts another value in its place.
    pub fn set(&mut self, value: &[u8])
        requires { length value.now ≤ self.old.room }
        ensures value { self.new.value ≡ value.now }
        ensures room { self.new.room ≡ self.old.room }
        ensures settled { self.new.settled ≡ true }
    {
        let end = self.buffer.len();
        let from = put_before(&mut self.buffer, end, value);
        let start = start_of(&self.buffer, from);
        self.place = Place { start, kind: None };
    }

    /// Joins the value below a base that isn't prepared. `spare` is memory for that. The work is linear in both.
    pub fn join_below(&mut self, base: &[u8], spare: &mut Vec<u8>)
        requires settled { self.old.settled ≡ true }
        requires room { length base.now + length self.old.value + 4 ≤ self.old.room }
        requires spare { length base.now + length self.old.value + 4 ≤ vec_capacity spare.old }
        ensures value { self.new.value ≡ join base.now self.old.value }
        ensures room { self.new.room ≡ self.old.room }
        ensures settled { self.new.settled ≡ true }
        ensures capacity { vec_capacity spare.old ≤ vec_capacity spare.new }
    {
        let from = self.place.start.from;
        self.place = join_anew(&mut self.buffer, from, base, spare);
    }

    /// Puts the value that one of the bases gives below another in its place.
    pub fn join_two(&mut self, bases: &Bases, inner: usize, outer: usize)
        requires inner { inner < length bases.now.bases }
        requires outer { outer < length bases.now.bases }
        requires room { length (base_at bases.now.bases inner) + length (base_at bases.now.bases outer) + 8 ≤ self.old.room }
        ensures value { self.new.value ≡ join (base_at bases.now.bases outer) (base_at bases.now.bases inner) }
        ensures room { self.new.room ≡ self.old.room }
    {
        self.place = join_bases(&mut self.buffer, bases, inner, outer);
    }

    /// Joins the value below one of the bases. `spare` is memory for that. The work is linear in what is put before the
    /// value, and for a value that wasn't joined yet in its length.
    pub fn join_prepared(&mut self, bases: &Bases, k: usize, spare: &mut Vec<u8>)
        requires base { k < length bases.now.bases }
        requires room { length (base_at bases.now.bases k) + length self.old.value + 4 ≤ self.old.room }
        requires spare { length self.old.value + 4 ≤ vec_capacity spare.old }
        ensures value { self.new.value ≡ join (base_at bases.now.bases k) self.old.value }
        ensures room { self.new.room ≡ self.old.room }
        ensures capacity { vec_capacity spare.old ≤ vec_capacity spare.new }
    {
        self.place = join_at(&mut self.buffer, self.place, bases, k, spare);
    }

    /// Puts the octets in one piece.
    pub fn settle(&mut self)
        ensures value { self.new.value ≡ self.old.value }
        ensures room { self.new.room ≡ self.old.room }
        ensures settled { self.new.settled ≡ true }
    {
        let start = settled(&mut self.buffer, self.place.start);
        self.place = Place {
            start,
            kind: self.place.kind,
        };
    }

    /// The value as it stands.
    pub fn value(&self) -> &[u8]
        requires { self.now.settled ≡ true }
        ensures { result.now ≡ self.now.value }
    {
        &self.buffer[self.place.start.from..]
    }
}
