//! Albums: recordings put in and taken out.
ghost use Rattle.std.specs.Prelude.{◌≡◌, ◌≤◌, ◌<◌, ◌+◌, ℕ, List, [], Contains, All, length, slice_index, IfOk, IfErr, IfSome, IfNone};
ghost use Rattle.lib_base.specs.declared.files.Measured.{Measured};
ghost use Rattle.lib_base.specs.declared.limits.TheConstants.{MOST_MEMBERS};
ghost use Rattle.album_merge.specs.Tallies.{StandsForMeasured};

use crate::TrackTally;
use crate::members::{Member, place_of};
use lib_base::Memory;
use std::alloc::Global;
use std::marker::Model;

/// Recordings by their ids, and what answers their levels together.
///
/// It has at most 256 of them, in ascending id. Only `new` and `reserve` take memory: `add` wants room
/// that `reserve` made.
#[derive(Debug, Drop)]
pub struct Album {
    members: Vec<Member>,
    spare: u32,
}

impl Model for Album {
    ghost use Rattle.std.specs.Prelude.{◌≤◌, ◌+◌, ◌*◌, length, vec_capacity};
    ghost use Rattle.lib_base.specs.declared.limits.TheConstants.{MOST_MEMBERS};
    ghost use Rattle.album_merge.specs.Members.{Kept, AscendBy, member_id};

    ghost Value = { Kept };

    ghost view = { λ a. record { members = a.members.items; spare = a.spare } };

    ghost invariant = { λ a. AscendBy member_id a.members.items
        × (length a.members.items ≤ MOST_MEMBERS)
        × (length a.members.items + a.spare ≤ vec_capacity a.members)
        × (length a.members.items + a.spare ≤ 2 * MOST_MEMBERS) };
}

impl Album {
    ghost use Rattle.album_merge.specs.declared.members.Member.{Member as Kept_member};
    ghost use Rattle.album_merge.specs.Members.{IsAlbumOf, ids_of, member_id, placed, without, with_recording, without_recording, AscendBy};

    /// An album of no recording, with room for none.
    pub fn new(alloc: Global) -> Result<Album, Memory>
        ensures album { IfOk result (λ album. IsAlbumOf album []) }
        ensures ids { IfOk result (λ album. ids_of album ≡ []) }
        ensures spare { IfOk result (λ album. album.spare ≡ 0) }
    {
        Ok(Album {
            members: Vec::new(alloc),
            spare: 0,
        })
    }

    /// Makes room for so many recordings more. Refused, it changes nothing.
    pub fn reserve(&mut self, more: u32) -> Result<(), Memory>
        requires { more ≤ MOST_MEMBERS }
        ensures album { (recordings : List (ℕ × Measured)) → IsAlbumOf self.old recordings → IsAlbumOf self.new recordings }
        ensures ids { ids_of self.new ≡ ids_of self.old }
        ensures room { IfOk result (λ _. more ≤ self.new.spare) }
        ensures spare { self.old.spare ≤ self.new.spare }
        ensures refused { IfErr result (λ _. self.new.spare ≡ self.old.spare) }
    {
        self.members.reserve(more as usize)?;
        self.spare = self.spare.max(more);
        Ok(())
    }

    /// Puts a recording in, by an id that none of the album has. It takes no memory.
    pub fn add(&mut self, id: u32, tally: TrackTally)
        requires spare { 0 < self.old.spare }
        requires fresh { ¬ Contains (ids_of self.old) id }
        requires few { length (ids_of self.old) < MOST_MEMBERS }
        ensures album { (recordings : List (ℕ × Measured)) (measured : Measured) → IsAlbumOf self.old recordings
            → StandsForMeasured tally measured → IsAlbumOf self.new (with_recording id measured recordings) }
        ensures ids { ids_of self.new ≡ placed (λ (n : ℕ). n) id (ids_of self.old) }
        ensures there { Contains (ids_of self.new) id }
        ensures spare { self.new.spare + 1 ≡ self.old.spare }
    {
        self.put_in(id, tally)
    }

    /// Takes a recording out and gives its tally back, if the album has one of this id. It takes no
    /// memory.
    pub fn remove(&mut self, id: u32) -> Option<TrackTally>
        ensures none { IfNone result (¬ Contains (ids_of self.old) id) }
        ensures unchanged { IfNone result (self.new ≡ self.old) }
        ensures some { IfSome result (λ _. Contains (ids_of self.old) id) }
        ensures tally { IfSome result (λ tally. (recordings : List (ℕ × Measured)) (measured : Measured) → IsAlbumOf self.old recordings
            → Contains recordings (id, measured) → StandsForMeasured tally measured) }
        ensures album { (recordings : List (ℕ × Measured)) → IsAlbumOf self.old recordings
            → IsAlbumOf self.new (without_recording id recordings) }
        ensures ids { ids_of self.new ≡ without (λ (n : ℕ). n) id (ids_of self.old) }
        ensures gone { ¬ Contains (ids_of self.new) id }
        ensures spare { IfSome result (λ _. self.new.spare ≡ self.old.spare + 1) }
        ensures few { IfSome result (λ _. length (ids_of self.new) < MOST_MEMBERS) }
    {
        self.take_out(id)
    }

    /// How many recordings it has.
    pub fn len(&self) -> usize
        ensures value { result ≡ length (ids_of self.now) }
        ensures few { result ≤ MOST_MEMBERS }
    {
        self.members.len()
    }

    /// The id of the recording at a place, counted from 0 in ascending order of ids.
    pub fn id_at(&self, place: usize) -> u32
        requires { place < length (ids_of self.now) }
        ensures { result ≡ slice_index (ids_of self.now) place }
    {
        self.members[place].id
    }

    /// Its recordings, in ascending order of ids.
    pub(crate) fn members(&self) -> &[Member]
        ensures value { result.now ≡ self.now.members }
        ensures few { length result.now ≤ MOST_MEMBERS }
    {
        self.members.as_slice()
    }

    /// Puts a recording in its place, into room that is there.
    pub(crate) fn put_in(&mut self, id: u32, tally: TrackTally)
        requires spare { 0 < self.old.spare }
        requires fresh { ¬ Contains (ids_of self.old) id }
        requires few { length (ids_of self.old) < MOST_MEMBERS }
        ensures ascend { AscendBy member_id self.old.members }
        ensures members { self.new.members ≡ placed member_id (record { id = id; tally = tally }) self.old.members }
        ensures spare { self.new.spare + 1 ≡ self.old.spare }
    {
        let place = place_of(&self.members, id);
        if self.members.insert(place, Member { id, tally }).is_err() {
            unreachable!()
        }
        self.spare -= 1;
    }

    /// Takes the recording of this id out, if it is there.
    pub(crate) fn take_out(&mut self, id: u32) -> Option<TrackTally>
        ensures none { IfNone result (¬ Contains (ids_of self.old) id) }
        ensures unchanged { IfNone result (self.new ≡ self.old) }
        ensures some { IfSome result (λ _. Contains (ids_of self.old) id) }
        ensures its { IfSome result (λ tally. (member : Kept_member) → Contains self.old.members member → member.id ≡ id → member.tally ≡ tally) }
        ensures back { IfSome result (λ tally. self.old.members ≡ placed member_id (record { id = id; tally = tally }) self.new.members) }
        ensures members { self.new.members ≡ without member_id id self.old.members }
        ensures spare { IfSome result (λ _. self.new.spare ≡ self.old.spare + 1) }
        ensures few { IfSome result (λ _. length (ids_of self.new) < MOST_MEMBERS) }
    {
        let place = place_of(&self.members, id);
        if place == self.members.len() || self.members[place].id != id {
            return None;
        }
        self.spare += 1;
        Some(self.members.remove(place).tally)
    }
}
