// Surfaces and indices.
ghost use Rattle.std.specs.Prelude.{◌≡◌};
ghost use Rattle.text.specs.Reader.{Reads, giving};
ghost use Rattle.joblines.specs.Lens.{surface_from, surfaces_from, index_stored, row_from, rows_from, indices_from};

use crate::entries;
use crate::entries::Entry;
use optics::OpticalSurface;
use text::reader::{Reader, Wrong};

// radius conic thickness semi
impl Entry for OpticalSurface {
    ghost from = { surface_from };

    #[tactic(auto, unfolding(crate::specs::Lens::surface_from))]
    fn read(reader: &mut Reader) -> Result<OpticalSurface, Wrong> {
        let radius_mm = reader.float()?;
        let conic_constant = reader.float()?;
        let thickness_mm = reader.float()?;
        let semi_diameter_mm = reader.float()?;
        Ok(OpticalSurface {
            radius_mm,
            conic_constant,
            thickness_mm,
            semi_diameter_mm,
        })
    }
}

// So many surfaces, of which the first 16 are kept.
#[tactic(auto, using(floats::specs::Constants::no_number), unfolding(crate::specs::Lens::surfaces_from))]
pub(crate) fn read_surfaces(
    reader: &mut Reader,
    count: usize,
) -> Result<[OpticalSurface; 16], Wrong>
    ensures { Reads (surfaces_from count) reader.old result reader.new }
{
    let unread = OpticalSurface {
        radius_mm: 0.0 / 0.0,
        conic_constant: 0.0 / 0.0,
        thickness_mm: 0.0 / 0.0,
        semi_diameter_mm: 0.0 / 0.0,
    };
    let mut surfaces = [unread; 16];
    entries::read_entries(reader, count, &mut surfaces)?;
    Ok(surfaces)
}

// Keeps the index of surface i in slot w, where there is room for it.
fn keep_index(indices: &mut [f64; 64], i: usize, w: usize, x: f64)
    ensures { indices.new ≡ index_stored i w x indices.old }
{
    if i < 16 && w < 4 {
        indices[i * 4 + w] = x;
    }
}

// The indices of surface i: one for each slot, of which the first four are kept. A loop of its own: they go to the surface's
// part of one table, and not to the places of a list, as what `read_entries` reads.
fn read_row(
    reader: &mut Reader,
    indices: &mut [f64; 64],
    i: usize,
    slots: usize,
) -> Result<(), Wrong>
    ensures { Reads (row_from slots i indices.old) reader.old (giving indices.new result) reader.new }
{
    for w in 0..slots {
        let x = reader.float()?;
        keep_index(indices, i, w, x);
    }
    Ok(())
}

// The indices of so many surfaces.
fn read_rows(
    reader: &mut Reader,
    indices: &mut [f64; 64],
    count: usize,
    slots: usize,
) -> Result<(), Wrong>
    ensures { Reads (rows_from count slots indices.old) reader.old (giving indices.new result) reader.new }
{
    for i in 0..count {
        read_row(reader, indices, i, slots)?;
    }
    Ok(())
}

// The same, where nothing was read before.
#[tactic(auto, using(floats::specs::Constants::no_number), unfolding(crate::specs::Lens::indices_from))]
pub(crate) fn read_indices(
    reader: &mut Reader,
    count: usize,
    slots: usize,
) -> Result<[f64; 64], Wrong>
    ensures { Reads (indices_from count slots) reader.old result reader.new }
{
    let mut indices = [0.0 / 0.0; 64];
    read_rows(reader, &mut indices, count, slots)?;
    Ok(indices)
}
