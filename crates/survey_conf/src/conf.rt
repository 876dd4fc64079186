//! The description of a survey.
ghost use Rattle.std.specs.Prelude.{◌≡◌, ℕ, List, IfOk, IfErr, OnOk, None, slice_get};
ghost use Rattle.std.specs.Option.{option_copied, option_map};

use crate::depth::depth_of;
use crate::describe::describe;
use crate::entries::read_lines;
use crate::fault::ConfRefusal;
use crate::key::Key;
use decimal_scale::Decimal;
use decimal_scale::laws::read_is_normal;
use indexmap::IndexMap;
use pyramid_model::Shape;
use std::alloc::Global;
use std::marker::Model;

/// The description of a survey.
#[derive(Debug, Drop)]
pub struct Conf {
    pub(crate) creator_did: Vec<u8>,
    pub(crate) obs_title: Vec<u8>,
    pub(crate) hips_release_date: Vec<u8>,
    pub(crate) hips_status: Vec<u8>,
    pub(crate) shape: Shape,
    pub(crate) bscale: Decimal,
    pub(crate) bzero: Decimal,
    pub(crate) version: u8,
    pub(crate) extras: IndexMap<Vec<u8>, Vec<u8>>,
}

impl Model for Conf {
    ghost use Rattle.survey_conf.specs.Description.{Description, IsDescription};
    ghost use Rattle.survey_conf.specs.ConfView.{conf_view};

    ghost Value = { Description };

    ghost view = { conf_view };

    ghost invariant = { λ c. IsDescription (conf_view c) };
}

impl Conf {
    ghost use Rattle.survey_conf.specs.Description.{Description, IsDescription, description_of, value_at};
    ghost use Rattle.survey_conf.specs.Faults.{fault_of, IsRefusedBy};

    /// The description that a text in lines `key = value` gives.
    ///
    /// # Errors
    ///
    /// `Fault` with the first fault of the text: the least line that has one of its own, with the first kind of fault in
    /// that line; where no line has one, line 0 for a required key that is missing, then the line of a blank number
    /// outside the depth, then that of a rule in version 1. `OutOfMemory` where a growth was refused.
    pub fn read(alloc: Global, text: &[u8]) -> Result<Conf, ConfRefusal>
        ensures described { IfOk result (λ conf. conf ≡ description_of text.now) }
        ensures accepted { OnOk result (fault_of text.now ≡ None) }
        ensures refused { IfErr result (λ e. IsRefusedBy (fault_of text.now) e) }
    {
        let entries = match read_lines(alloc, text) {
            Ok(entries) => entries,
            Err(refusal) => return Err(refusal),
        };
        let depth = match depth_of(&entries) {
            Ok(depth) => depth,
            Err(fault) => return Err(ConfRefusal::Fault(fault)),
        };
        // A description keeps its two reals in normal form.
        read_is_normal();
        match describe(alloc, &entries, depth) {
            Ok(conf) => Ok(conf),
            Err(_) => Err(ConfRefusal::OutOfMemory),
        }
    }

    /// The leaf order, the lowest order, `n` of the `2^n` columns and lines of a tile, and the depth.
    pub fn shape(&self) -> Shape
        ensures shape { result ≡ self.now.shape }
        ensures kept { IsDescription self.now }
    {
        self.shape
    }

    /// What a stored number is multiplied by (FITS 4.0, BSCALE).
    pub fn bscale(&self) -> &Decimal
        ensures { result.now ≡ self.now.bscale }
    {
        &self.bscale
    }

    /// What is added to a stored number (FITS 4.0, BZERO).
    pub fn bzero(&self) -> &Decimal
        ensures { result.now ≡ self.now.bzero }
    {
        &self.bzero
    }

    /// The value of creator_did, obs_title, hips_release_date, hips_status or an extra key; `None` if and only if the key
    /// is none of these.
    pub fn value(&self, key: &[u8]) -> Option<&[u8]>
        ensures { option_copied result ≡ value_at self.now key.now }
    {
        match Key::of(key) {
            Some(Key::CreatorDid) => Some(self.creator_did.as_slice()),
            Some(Key::ObsTitle) => Some(self.obs_title.as_slice()),
            Some(Key::HipsReleaseDate) => Some(self.hips_release_date.as_slice()),
            Some(Key::HipsStatus) => Some(self.hips_status.as_slice()),
            Some(_) => None,
            None => match self.extras.get(key) {
                Some(value) => Some(value.as_slice()),
                None => None,
            },
        }
    }

    /// The extra key at place `i` in the order of the lines, from 0, with its value; `None` exactly past the last.
    pub fn extra(&self, i: usize) -> Option<(&[u8], &[u8])>
        ensures { option_map {U = List ℕ × List ℕ} (λ e. (e.0.now, e.1.now)) result ≡ slice_get self.now.extras i }
    {
        match self.extras.get_index(i) {
            Some((key, value)) => Some((key.as_slice(), value.as_slice())),
            None => None,
        }
    }
}
