// The sites of a table.
ghost use Rattle.std.specs.Prelude.{◌≡◌, ◌++◌, ◌+◌, ◌<◌, ◌^◌, OnOk, flat_map};
ghost use Rattle.elf_image.specs.Clean as images;
ghost use Rattle.place_verdicts.specs.Image.{IsRead};
ghost use Rattle.image_doubts.specs.Doubts.{home_of, site_doubts};

use crate::line::{put_cut, put_empty, put_inside, put_outside};
use eh_bytes::Region64;
use lsda_read::Lsda;
use place_verdicts::fde_at;
use std::alloc::{AllocError, Global};
use table_check::CleanImage;
use table_forms::Site;

// The region of the function that has a place.
fn home_of(image: &CleanImage, place: u64) -> Option<Region64>
    requires { (c : images.CleanImage) × IsRead image.now c }
    ensures { (c : images.CleanImage) → IsRead image.now c → result ≡ home_of c.functions place }
{
    match fde_at(image, place) {
        None => None,
        Some(fde) => Some(fde.region),
    }
}

// What is doubted of a site.
fn put_site(
    alloc: Global,
    out: &mut Vec<u8>,
    image: &CleanImage,
    region: Region64,
    marks: &[bool],
    site: Site,
) -> Result<(), AllocError>
    requires read { (c : images.CleanImage) × IsRead image.now c }
    requires ends { region.start + region.length < 2 ^ 64 }
    ensures { OnOk result ((c : images.CleanImage) → IsRead image.now c → out.new.items ≡ out.old.items ++ site_doubts c.functions region marks.now site) }
{
    let home = home_of(image, site.pad);
    put_empty(alloc, out, region, site)?;
    put_cut(alloc, out, region, marks, site)?;
    put_inside(alloc, out, region, marks, site)?;
    put_outside(alloc, out, region, site, home)?;
    Ok(())
}

/// What is doubted of the sites of a table.
pub fn put_sites(
    alloc: Global,
    out: &mut Vec<u8>,
    image: &CleanImage,
    region: Region64,
    marks: &[bool],
    table: &Lsda<'_>,
) -> Result<(), AllocError>
    requires read { (c : images.CleanImage) × IsRead image.now c }
    requires ends { region.start + region.length < 2 ^ 64 }
    ensures { OnOk result ((c : images.CleanImage) → IsRead image.now c → out.new.items ≡ out.old.items ++ flat_map (site_doubts c.functions region marks.now) table.now.sites) }
{
    let mut sites = table.sites();
    'sites: while let Some(site) = sites.next() {
        put_site(alloc, out, image, region, marks, site)?;
    }
    Ok(())
}
