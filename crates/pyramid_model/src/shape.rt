//! The shape of a survey's pyramid.
use parent_rule::Depth;
use std::marker::Model;

/// What a survey's pyramid is built over. `top` is the order of the leaf tiles, from 3 to 11; `low` is the lowest order of
/// a tile, from 0 to 3; a tile has `2^n` columns and lines, `n` from 1 to 9; `depth` says what the stored numbers are.
#[derive(Clone, Copy, Debug, PartialEq, Eq)]
pub struct Shape {
    pub top: u8,
    pub low: u8,
    pub n: u8,
    pub depth: Depth,
}

impl Model for Shape {
    ghost use Rattle.pyramid_model.specs.Shape.{PyramidShape, IsShape};

    ghost Value = { PyramidShape };

    ghost view = { λ s. record { top = s.top; low = s.low; n = s.n; depth = s.depth } };

    ghost invariant = { λ s. IsShape s.top s.low s.n };

    ghost inverse = { λ v. record { top = v.top; low = v.low; n = v.n; depth = v.depth } };
}
