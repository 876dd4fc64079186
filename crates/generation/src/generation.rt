//! The files of one state of a survey.
ghost use Rattle.std.specs.Prelude.{◌≡◌, ℕ, ◌+◌, ◌^◌, ◌<◌, ◌≤◌, List, length, take, slice_get, option_map, Some, IsSome, IfOk, IfSome, OnOk, All, if◌then◌else◌};
ghost use Rattle.std.specs.Arc.{arc_value};
ghost use Rattle.std.specs.Map.{keys_of};
ghost use Rattle.coverage_moc.specs.Cover.{cover};
ghost use Rattle.std.specs.FinMap.{get, len};
ghost use Rattle.std.specs.List.Sorted.{IsStrictlyIncreasing};
ghost use Rattle.fits_header.specs.Cards.{whole_blocks};
ghost use Rattle.fits_tile.specs.TileFile.{data_len};
ghost use Rattle.healpix_nested.specs.Cells.{cell_count};
ghost use Rattle.pyramid_model.specs.Shape.{FitsShape};
ghost use Rattle.survey_conf.specs.Description.{IsDescription};
ghost use Rattle.tile_path.specs.Spelling.{IsPath, spelling};
ghost use Rattle.dirty_plan.specs.Dirty.{work, steps_after};
ghost use Rattle.edit_journal.specs.Journal.{journal_edits};
ghost use Rattle.edit_journal.specs.Leaves.{leaves_of, FitsLeaves};
ghost use Rattle.generation.specs.Changes.{AreTiles};
ghost use Rattle.generation.specs.Files.{leaf_map, mosaic_paths, paths, paths_in, files_in};
ghost use Rattle.generation.specs.Kept.{SameBut, SameOrder3, KeepsMosaic, WasMosaicFile, tiles_of};
ghost use Rattle.generation.specs.Steps.{tiles_above, touched};

use crate::changes::{Changes, cells_over};
use crate::coverage::{Coverage, coverage_after};
use crate::mosaic::{mosaic_file, patched_file};
use crate::pyramid::Pyramid;
use dirty_plan::laws::more_touched_is_more_work;
use edit_journal::Journal;
use edit_journal::laws::{edits_go_on, edits_keep_the_shape, edits_touch_their_leaves};
use fits_tile::file_len;
use leaf_store::Store;
use parent_rule::Steps;
use std::alloc::{AllocError, Global};
use std::marker::Model;
use std::sync::Arc;
use std::thread::Threads;
use survey_conf::Conf;
use survey_link::Gate;
use tile_path::Path;
use tile_path::laws::spellings_differ;
use tile_pixels::Tile;

/// Every file of one state of a survey: its description, how many of its edits are in it, the leaves after them, and the
/// files that HiPS 1.0 (section 4) lays out for these.
///
/// A generation never changes: `next` answers a new one, which shares each tile that no edit between them touched.
#[derive(Drop)]
pub struct Generation {
    alloc: Global,
    pub(crate) conf: Arc<Conf>,
    prefix: u32,
    pub(crate) pyramid: Pyramid,
    pub(crate) coverage: Arc<Coverage>,
    pub(crate) mosaic: Option<Vec<u8>>,
    pub(crate) properties: Vec<u8>,
}

impl Model for Generation {
    ghost use Rattle.std.specs.Prelude.{option_map};
    ghost use Rattle.std.specs.Arc.{arc_value};
    ghost use Rattle.generation.specs.Generation.{GenerationContent};
    ghost use Rattle.generation.specs.Kept.{IsKeptGeneration};

    ghost Value = { GenerationContent };

    ghost view = { λ g. record { conf = arc_value g.conf; prefix = g.prefix; leaves = g.pyramid.leaves } };

    ghost invariant = { λ g. IsKeptGeneration (arc_value g.conf) g.pyramid (arc_value g.coverage) (option_map (λ file. file.items) g.mosaic) g.properties.items };
}

impl Generation {
    /// The files of the survey of that description with these leaves; no edit is in it. The steps rise by the number of tiles
    /// that exist above the leaves, since each of them is merged once, and at a refusal by at most that number.
    ///
    /// # Errors
    ///
    /// `AllocError` where there is no memory for the files.
    pub fn start<R: Threads + Sync, G: Gate + Sync>(
        rt: &R,
        alloc: Global,
        conf: Arc<Conf>,
        leaves: Store<Tile>,
        gate: &G,
        steps: &mut Steps,
    ) -> Result<Generation, AllocError>
        requires fits { FitsLeaves (arc_value conf).shape leaves }
        ensures made { IfOk result (λ made. made ≡ record { conf = arc_value conf; prefix = 0; leaves = leaves }) }
        ensures counted { OnOk result (steps.new ≡ steps_after steps.old (tiles_above (arc_value conf).shape (leaf_map leaves))) }
        ensures steps { steps.new ≤ steps_after steps.old (tiles_above (arc_value conf).shape (leaf_map leaves)) }
        ensures never_falls { steps.old ≤ steps.new }
    {
        let pyramid = Pyramid::of(rt, alloc, gate, conf.shape(), leaves, steps)?;
        let coverage = Coverage::of(alloc, conf.shape().top, pyramid.leaves())?;
        let coverage = Arc::new(alloc, coverage)?;
        let mosaic = mosaic_of(rt, alloc, &conf, &pyramid)?;
        Generation::of_parts(alloc, conf, 0, pyramid, coverage, mosaic)
    }

    /// The generation of the same survey after the first `k` edits of the journal, made from this one by the edits between.
    /// The steps rise by the number of cells above the leaves under which an edit between touched a leaf, since each of them is
    /// merged once, and at a refusal by at most that number. This generation stays as it is.
    ///
    /// # Errors
    ///
    /// `AllocError` where there is no memory for the files.
    pub fn next<R: Threads + Sync, G: Gate + Sync>(
        &self,
        rt: &R,
        journal: &Journal,
        k: u32,
        gate: &G,
        steps: &mut Steps,
    ) -> Result<Generation, AllocError>
        requires shape { journal.now.shape ≡ self.now.conf.shape }
        requires forward { self.now.prefix ≤ k }
        requires known { k ≤ length (journal_edits journal.now) }
        requires holds { leaves_of journal.now.opening (take self.now.prefix (journal_edits journal.now)) ≡ self.now.leaves }
        ensures made { IfOk result (λ next. next ≡ record {
          conf = self.now.conf;
          prefix = k;
          leaves = leaves_of journal.now.opening (take k (journal_edits journal.now));
        }) }
        ensures counted { OnOk result (steps.new ≡ steps_after steps.old (
            work self.now.conf.shape.top self.now.conf.shape.low (touched (journal_edits journal.now) self.now.prefix k))) }
        ensures steps { steps.new ≤ steps_after steps.old (
            work self.now.conf.shape.top self.now.conf.shape.low (touched (journal_edits journal.now) self.now.prefix k)) }
        ensures never_falls { steps.old ≤ steps.new }
    {
        // For the prover: a count fits 64 bits.
        let _count = steps.count();
        let changes = self.changes_to(journal, k)?;
        let coverage = self.coverage_of(&changes)?;
        let cells = cells_over(self.alloc, self.conf.shape().top, &changes.touched)?;
        let pyramid = self.pyramid.after(rt, self.alloc, gate, changes, steps)?;
        let mosaic = self.mosaic_after(rt, &pyramid, &cells)?;
        Generation::of_parts(self.alloc, self.conf.clone()?, k, pyramid, coverage, mosaic)
    }

    // What the edits of the journal from this generation's on to edit k change.
    fn changes_to(&self, journal: &Journal, k: u32) -> Result<Changes, AllocError>
        requires shape { journal.now.shape ≡ self.now.conf.shape }
        requires forward { self.now.prefix ≤ k }
        requires known { k ≤ length (journal_edits journal.now) }
        requires holds { leaves_of journal.now.opening (take self.now.prefix (journal_edits journal.now)) ≡ self.now.leaves }
        ensures leaves { IfOk result (λ changes. changes.leaves ≡ leaves_of journal.now.opening (take k (journal_edits journal.now))) }
        ensures fits { IfOk result (λ changes. FitsLeaves self.now.conf.shape changes.leaves) }
        ensures tiles { IfOk result (λ changes. AreTiles changes.leaves) }
        ensures ascending { IfOk result (λ changes. IsStrictlyIncreasing changes.touched.items) }
        ensures cells { IfOk result (λ changes. All (λ leaf. leaf < cell_count self.now.conf.shape.top) changes.touched.items) }
        ensures same { IfOk result (λ changes. SameBut changes.touched.items self.now.leaves changes.leaves) }
        ensures work { IfOk result (λ changes. work self.now.conf.shape.top self.now.conf.shape.low changes.touched.items
            ≡ work self.now.conf.shape.top self.now.conf.shape.low (touched (journal_edits journal.now) self.now.prefix k)) }
    {
        // What is known of edits, and that those of a journal fit its shape.
        edits_go_on();
        edits_keep_the_shape();
        edits_touch_their_leaves();
        more_touched_is_more_work();
        // For the prover: what a journal is.
        let _count = journal.len();
        let changes = Changes::of(self.alloc, self.pyramid.leaves(), journal, self.prefix, k)?;
        Ok(changes)
    }

    // The file of the mosaic of a pyramid that differs from this generation's in the tiles of these cells of order 3 alone.
    fn mosaic_after<R: Threads + Sync>(
        &self,
        rt: &R,
        pyramid: &Pyramid,
        cells: &[u64],
    ) -> Result<Option<Vec<u8>>, AllocError>
        requires shape { pyramid.now.shape ≡ self.now.conf.shape }
        requires cells { All (λ cell. cell < 768) cells.now }
        requires same { SameOrder3 self.now.conf.shape cells.now (leaf_map self.now.leaves) (leaf_map pyramid.now.leaves) }
        ensures { IfOk result (λ found. KeepsMosaic self.now.conf (leaf_map pyramid.now.leaves) (option_map (λ file. file.items) found)) }
    {
        match &self.mosaic {
            Some(old) => mosaic_from(self.alloc, &self.conf, old, cells, pyramid),
            None => mosaic_of(rt, self.alloc, &self.conf, pyramid),
        }
    }

    // The coverage after some changes of this generation's leaves.
    fn coverage_of(&self, changes: &Changes) -> Result<Arc<Coverage>, AllocError>
        requires fits { FitsLeaves self.now.conf.shape changes.now.leaves }
        requires cells { All (λ leaf. leaf < cell_count self.now.conf.shape.top) changes.now.touched.items }
        requires same { SameBut changes.now.touched.items self.now.leaves changes.now.leaves }
        ensures { IfOk result (λ made. arc_value made ≡ record { top = self.now.conf.shape.top; rows = cover self.now.conf.shape.top (keys_of changes.now.leaves) }) }
    {
        coverage_after(
            self.alloc,
            self.conf.shape().top,
            &self.coverage,
            self.pyramid.leaves(),
            &changes.leaves,
            &changes.touched,
        )
    }

    // The generation of these tiles, with their coverage and the file of their mosaic.
    fn of_parts(
        alloc: Global,
        conf: Arc<Conf>,
        prefix: u32,
        pyramid: Pyramid,
        coverage: Arc<Coverage>,
        mosaic: Option<Vec<u8>>,
    ) -> Result<Generation, AllocError>
        requires shape { pyramid.shape ≡ (arc_value conf).shape }
        requires coverage { arc_value coverage ≡ record { top = (arc_value conf).shape.top; rows = cover (arc_value conf).shape.top (keys_of pyramid.leaves) } }
        requires mosaic { KeepsMosaic (arc_value conf) (leaf_map pyramid.leaves) (option_map (λ file. file.items) mosaic) }
        ensures { IfOk result (λ made. made ≡ record { conf = arc_value conf; prefix = prefix; leaves = pyramid.leaves }) }
    {
        // For the prover: what a description is.
        let _shape = conf.shape();
        let properties = conf.properties(alloc, pyramid.leaves().len() as u64)?;
        Ok(Generation {
            alloc,
            conf,
            prefix,
            pyramid,
            coverage,
            mosaic,
            properties,
        })
    }

    /// How many bytes `file` needs room for: the length of a tile file.
    pub fn room(&self) -> usize
        ensures { result ≡ 2880 + whole_blocks (data_len self.now.conf.shape) }
    {
        file_len(&self.conf)
    }

    /// How many edits of the survey it has.
    pub fn prefix(&self) -> u32
        ensures { result ≡ self.now.prefix }
    {
        self.prefix
    }

    /// The description of the survey.
    pub fn conf(&self) -> &Arc<Conf>
        ensures conf { arc_value result.now ≡ self.now.conf }
        ensures kept { IsDescription self.now.conf }
    {
        &self.conf
    }

    /// The leaves.
    pub fn leaves(&self) -> &Store<Tile>
        ensures leaves { result.now ≡ self.now.leaves }
        ensures fits { FitsLeaves self.now.conf.shape result.now }
        ensures numbers { FitsShape self.now.conf.shape (leaf_map result.now) }
    {
        self.pyramid.leaves()
    }

    /// How many files there are.
    pub fn file_count(&self) -> u64
        ensures paths { result ≡ length (paths_in self.now) }
        ensures files { result ≡ len (files_in self.now) }
        ensures each { (text : List ℕ) → IsSome (get (files_in self.now) text)
            → (i : ℕ) × (i < result) × (option_map spelling (slice_get (paths_in self.now) i) ≡ Some text) }
    {
        spellings_differ();
        2 + u64::from(self.mosaic.is_some()) + self.pyramid.count()
    }

    /// Path `i` of the files, from 0: the properties, the coverage, the mosaic where it is, and then the tiles by order and
    /// number; `None` if and only if `i` is past the last.
    pub fn path(&self, i: u64) -> Option<Path>
        ensures path { result ≡ slice_get (paths_in self.now) i }
        ensures known { IfSome result IsPath }
        ensures there { IfSome result (λ path. IsSome (get (files_in self.now) (spelling path))) }
    {
        spellings_differ();
        path_of(&self.pyramid, self.mosaic.is_some(), i)
    }
}

// Path `i` of the files of a pyramid, which may have a mosaic.
fn path_of(pyramid: &Pyramid, has_mosaic: bool, i: u64) -> Option<Path>
    requires { (if has_mosaic then 1 else 0) ≡ length (mosaic_paths (leaf_map pyramid.now.leaves)) }
    ensures { result ≡ slice_get (paths pyramid.now.shape (leaf_map pyramid.now.leaves)) i }
{
    let first = 2 + u64::from(has_mosaic);
    if i >= first {
        return match pyramid.cell(i - first) {
            Some(cell) => Some(Path::Tile(cell)),
            None => None,
        };
    }
    match i {
        0 => Some(Path::Properties),
        1 => Some(Path::Moc),
        _ => Some(Path::Allsky),
    }
}

// The file of the mosaic of a pyramid's tiles of order 3, where it has one.
fn mosaic_of<R: Threads + Sync>(
    rt: &R,
    alloc: Global,
    conf: &Conf,
    pyramid: &Pyramid,
) -> Result<Option<Vec<u8>>, AllocError>
    requires { pyramid.now.shape ≡ conf.now.shape }
    ensures { IfOk result (λ found. KeepsMosaic conf.now (leaf_map pyramid.now.leaves) (option_map (λ file. file.items) found)) }
{
    match pyramid.tiles(3) {
        Some(tiles) => {
            let file = mosaic_file(rt, alloc, conf, tiles)?;
            Ok(file)
        }
        None => Ok(None),
    }
}

// The same, made from the file of the mosaic of other tiles, which differ in those of these cells alone.
fn mosaic_from(
    alloc: Global,
    conf: &Conf,
    old: &[u8],
    cells: &[u64],
    pyramid: &Pyramid,
) -> Result<Option<Vec<u8>>, AllocError>
    requires shape { pyramid.now.shape ≡ conf.now.shape }
    requires cells { All (λ cell. cell < 768) cells.now }
    requires old { WasMosaicFile conf.now cells.now (tiles_of conf.now.shape (leaf_map pyramid.now.leaves) 3) old.now }
    ensures { IfOk result (λ found. KeepsMosaic conf.now (leaf_map pyramid.now.leaves) (option_map (λ file. file.items) found)) }
{
    match pyramid.tiles(3) {
        Some(tiles) => {
            let file = patched_file(alloc, conf, old, cells, tiles)?;
            Ok(file)
        }
        None => Ok(None),
    }
}
