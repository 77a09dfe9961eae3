//! Leads from a place of a text back to the text before its changes, and to the next change.

ghost use Rattle.std.specs.Prelude.{◌≡◌, IsSome};
ghost use Rattle.change_defs.specs.Changes.{before, distance};

use crate::lengths::{checked_sum, rest_of};
use crate::places::{count_ended, joint_behind, place_at, starts_before};
use crate::spans::Spans;
use std::marker::Model;
use text_pos::Length;

/// Leads back from a text to the one before its changes. Places are told by their lengths from the text's start. Clauses
/// see the list of changes.
#[derive(Drop)]
pub struct Mapper<'a> {
    spans: &'a Spans,
}

impl<'a> Model for Mapper<'a> {
    ghost use Rattle.std.specs.Prelude.{List};
    ghost use Rattle.change_defs.specs.declared.Change.{Change};

    ghost Value = { List Change };

    ghost view = { λ m. m.spans.now };
}

impl<'a> Mapper<'a> {
    pub fn new(spans: &'a Spans) -> Mapper<'a>
        ensures { result ≡ spans.now }
    {
        Mapper { spans }
    }

    /// The place of the old text that a place of the new one is. At a change's new end it is the old end, else at a
    /// change's start the start. There is none strictly inside what a change put there, and none of more than 32 bits.
    pub fn before(&self, offset: Length) -> Option<Length>
        ensures { result ≡ before self.now offset }
    {
        let places = self.spans.places();
        let ended = count_ended(places, offset);
        if starts_before(places, ended, offset) {
            return None;
        }
        let joint = joint_behind(places, ended);
        checked_sum(joint.old, rest_of(offset, joint.new))
    }

    /// How far behind a place of the new text the first change starts there whose new end lies behind the place, if
    /// there is one.
    pub fn distance(&self, offset: Length) -> Option<Length>
        requires { IsSome (before self.now offset) }
        ensures { result ≡ distance self.now offset }
    {
        let places = self.spans.places();
        let next = place_at(places, count_ended(places, offset))?;
        Some(rest_of(next.from.new, offset))
    }
}
