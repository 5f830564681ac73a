//! Open files, one by one.
ghost use Rattle.std.specs.Prelude.{◌≡◌, ◌<◌, ◌≤◌, ◌∷◌, [], length, map, OnOk, OnErr, IfOk, IsErrOf, None};
ghost use Rattle.io_edge.specs.Cause.{HasOpenCause};
ghost use Rattle.io_edge.specs.View.{Creates, OnlyWrites, raised_by, updated};
ghost use Rattle.nd_shape.specs.Region.{IsPart};
ghost use Rattle.npy_codec.specs.Npy.{header};
ghost use Rattle.saved_files.specs.Rows.{ArePlaced};
ghost use Rattle.saved_files.specs.Kept.{IsKept, begun_with, saving_of};
ghost use Rattle.saved_files.specs.Saving.{FillsAll, FillsMore, FillsPart, FillsSome, GivesBack, IsFresh, LeavesOne, TakesAll, WereCreated};

use crate::rows::write_regions;
use io_edge::{OpenFault, OutFile, Site, write_full};
use nd_shape::{Block, Region, Shape};
use npy_codec::{Head, write_head};
use npy_region::write_region;
use std::alloc::Global;
use std::sync::Arc;

/// A created file, and the head that was written into it.
#[derive(Drop)]
pub struct OpenFile<F> {
    pub file: F,
    pub head: Head,
}

// Creates a file with this header and room for the elements, or gives back what was created of it.
fn create_with<S: Site>(
    alloc: Global,
    site: &mut S,
    name: &str,
    shape: &Shape,
    front: &[u8],
) -> Result<S::Out, OpenFault>
    requires front { front.now ≡ header shape.now }
    requires short { length front.now ≤ 512 }
    ensures creates { Creates name.now (S.view site.old).files (S.view site.new).files }
    ensures created { OnOk result ((S.view site.new).files.created ≡ raised_by (name.now ∷ []) (S.view site.old).files.created) }
    ensures counted { OnOk result (0 < (S.view site.new).files.created name.now) }
    ensures held { OnOk result ((S.view site.new).files.held ≡ updated name.now None (S.view site.old).files.held) }
    ensures content { IfOk result (λ f. S.Out.content f ≡ begun_with (S.view site.old).files.tells shape.now front.now) }
    ensures named { IfOk result (λ f. S.Out.named f ≡ name.now) }
    ensures faults { IfOk result (λ f. S.Out.count f ≡ 0) }
    ensures left { OnErr result (LeavesOne name.now shape.now (S.view site.old).files (S.view site.new).files) }
    ensures tried { IsErrOf result OpenFault.Failed → (S.view site.new).files.created ≡ raised_by (name.now ∷ []) (S.view site.old).files.created }
    ensures memory { IsErrOf result OpenFault.OutOfMemory → S.view site.new ≡ S.view site.old }
    ensures no_faults { OnOk result ((S.view site.new).write_faults ≡ (S.view site.old).write_faults) }
    ensures only { OnlyWrites (S.view site.old) (S.view site.new) }
    ensures cause { HasOpenCause (S.view site.old).write_faults (S.view site.new).write_faults result }
{
    let _ = shape.dims();
    let len = front.len() as u64 + 8 * shape.elements();
    let mut file = site.create(alloc, name, len)?;
    match write_full(&mut file, 0, front) {
        Ok(()) => Ok(file),
        Err(fault) => {
            site.give_file(file);
            Err(OpenFault::from(fault))
        }
    }
}

/// Creates a file with the header of an array with these lengths, or gives back what was created of it.
pub fn open_file<S: Site>(
    alloc: Global,
    site: &mut S,
    name: &str,
    shape: &Shape,
) -> Result<OpenFile<S::Out>, OpenFault>
    ensures creates { Creates name.now (S.view site.old).files (S.view site.new).files }
    ensures created { OnOk result ((S.view site.new).files.created ≡ raised_by (name.now ∷ []) (S.view site.old).files.created) }
    ensures counted { OnOk result (0 < (S.view site.new).files.created name.now) }
    ensures held { OnOk result ((S.view site.new).files.held ≡ updated name.now None (S.view site.old).files.held) }
    ensures kept { IfOk result (λ f. IsKept S.Out.content f) }
    ensures fresh { IfOk result (λ f. IsFresh (S.view site.old).files.tells name.now shape.now (saving_of S.Out.named S.Out.content S.Out.count f)) }
    ensures left { OnErr result (LeavesOne name.now shape.now (S.view site.old).files (S.view site.new).files) }
    ensures tried { IsErrOf result OpenFault.Failed → (S.view site.new).files.created ≡ raised_by (name.now ∷ []) (S.view site.old).files.created }
    ensures memory { IsErrOf result OpenFault.OutOfMemory → S.view site.new ≡ S.view site.old }
    ensures no_faults { OnOk result ((S.view site.new).write_faults ≡ (S.view site.old).write_faults) }
    ensures only { OnlyWrites (S.view site.old) (S.view site.new) }
    ensures cause { HasOpenCause (S.view site.old).write_faults (S.view site.new).write_faults result }
{
    let front = write_head(alloc, shape)?;
    let head = Head {
        shape: shape.copy(alloc)?,
        fortran: false,
        data_at: front.len() as u64,
        width: 8,
        big: false,
    };
    let file = create_with(alloc, site, name, shape, &front)?;
    Ok(OpenFile { file, head })
}

/// Writes a block into a box of the file's array.
pub fn write_block<F: OutFile>(
    alloc: Global,
    out: &mut OpenFile<F>,
    region: &Region,
    block: &Block,
) -> Result<(), OpenFault>
    requires kept { IsKept F.content out.old }
    requires inside { IsPart region.now out.old.head.shape }
    requires shape { block.now.shape ≡ region.now.lengths }
    ensures still { IsKept F.content out.new }
    ensures head { out.new.head ≡ out.old.head }
    ensures named { F.named out.new.file ≡ F.named out.old.file }
    ensures filled { OnOk result (FillsMore region.now block.now (saving_of F.named F.content F.count out.old) (saving_of F.named F.content F.count out.new)) }
    ensures part { OnErr result (FillsPart region.now block.now (saving_of F.named F.content F.count out.old) (saving_of F.named F.content F.count out.new)) }
    ensures faults { OnOk result (F.count out.new.file ≡ F.count out.old.file) }
    ensures cause { HasOpenCause (F.count out.old.file) (F.count out.new.file) result }
{
    write_region(alloc, &mut out.file, &out.head, region, block)
}

/// Writes blocks into boxes of the file's array.
pub fn write_blocks<F: OutFile>(
    alloc: Global,
    out: &mut OpenFile<F>,
    regions: &[Region],
    blocks: &[Arc<Block>],
) -> Result<(), OpenFault>
    requires kept { IsKept F.content out.old }
    requires placed { ArePlaced out.old.head.shape regions.now blocks.now }
    ensures still { IsKept F.content out.new }
    ensures head { out.new.head ≡ out.old.head }
    ensures named { F.named out.new.file ≡ F.named out.old.file }
    ensures filled { OnOk result (FillsAll regions.now blocks.now (saving_of F.named F.content F.count out.old) (saving_of F.named F.content F.count out.new)) }
    ensures part { OnErr result (FillsSome regions.now blocks.now (saving_of F.named F.content F.count out.old) (saving_of F.named F.content F.count out.new)) }
    ensures faults { OnOk result (F.count out.new.file ≡ F.count out.old.file) }
    ensures cause { HasOpenCause (F.count out.old.file) (F.count out.new.file) result }
{
    write_regions(alloc, &mut out.file, &out.head, regions, blocks)
}

/// Gives files back, one after another.
pub fn give_all<S: Site>(files: Vec<OpenFile<S::Out>>, site: &mut S)
    requires { WereCreated (map (saving_of S.Out.named S.Out.content S.Out.count) files.items) (S.view site.old).files }
    ensures gives { GivesBack (map (saving_of S.Out.named S.Out.content S.Out.count) files.items) (S.view site.old).files (S.view site.new).files }
    ensures only { OnlyWrites (S.view site.old) (S.view site.new) }
    ensures later { (S.view site.old).write_faults ≤ (S.view site.new).write_faults }
    ensures cause { TakesAll (map (saving_of S.Out.named S.Out.content S.Out.count) files.items) (S.view site.old).write_faults (S.view site.new).write_faults }
{
    for opened in files {
        site.give_file(opened.file);
    }
}
