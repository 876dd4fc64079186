//! Tests of what makes pixels: `healpix_nested` (`cells`), `parent_rule` (`rule`), `pyramid_model` (`pyramids`), `tile_pixels`
//! (`tiles`, `merges`, `quadrants`, `kernels`), `rebuild_worker` (`levels`), `allsky_mosaic` (`mosaics`) and `leaf_probe` (`probes`,
//! `merged_leaves`).
//!
//! They test the finished crates from a crate of their own: in each it would be proved a second time.
#![tactic(auto)]

#[cfg(test)]
mod cells;
#[cfg(test)]
mod kernels;
#[cfg(test)]
mod levels;
#[cfg(test)]
mod merged_leaves;
#[cfg(test)]
mod merges;
#[cfg(test)]
mod mosaics;
#[cfg(test)]
mod probes;
#[cfg(test)]
mod pyramids;
#[cfg(test)]
mod quadrants;
#[cfg(test)]
mod rule;
#[cfg(test)]
mod squares;
#[cfg(test)]
mod tiles;
