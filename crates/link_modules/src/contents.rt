//! The code and the data of modules, added to the segments of a merge.

ghost use Rattle.std.specs.Prelude.{◌≡◌, OnOk, IfOk};
ghost use Rattle.object_modules.specs.declared.segment.Segment.TheVariants.{Code, Data};
ghost use Rattle.link_laws.specs.internal.Growing.{all_grown, grown_by, nothing_grown};

use crate::growing::GrowingSegment;
use crate::linkable::Named;
use crate::placed::Placed;
use crate::publics::Publics;
use crate::resolved::Resolved;
use std::alloc::{AllocError, Global};

// Adds the code and the data of a module.
fn add_module<'a, L: Named<'a>>(
    alloc: Global,
    code: &mut GrowingSegment,
    data_bytes: &mut GrowingSegment,
    publics: &Publics<'_, 'a>,
    placed: &Placed<'_, L>,
) -> Result<(), AllocError>
    ensures code { OnOk result (code.new ≡ grown_by publics.now Code code.old placed.now) }
    ensures data_bytes { OnOk result (data_bytes.new ≡ grown_by publics.now Data data_bytes.old placed.now) }
{
    let resolved = Resolved::new(alloc, publics, placed)?;
    let item = placed.item();
    item.add_contents(alloc, code, data_bytes, &resolved)?;
    Ok(())
}

// Adds those of modules, module by module.
fn add_modules<'a, L: Named<'a>>(
    alloc: Global,
    code: &mut GrowingSegment,
    data_bytes: &mut GrowingSegment,
    publics: &Publics<'_, 'a>,
    placed: &[Placed<'_, L>],
) -> Result<(), AllocError>
    ensures code { OnOk result (code.new ≡ all_grown publics.now Code code.old placed.now) }
    ensures data_bytes { OnOk result
        (data_bytes.new ≡ all_grown publics.now Data data_bytes.old placed.now) }
{
    for one in placed {
        add_module(alloc, code, data_bytes, publics, one)?;
    }
    Ok(())
}

/// The code and the data of a merge of modules.
pub(crate) fn segments_of<'a, L: Named<'a>>(
    alloc: Global,
    publics: &Publics<'_, 'a>,
    placed: &[Placed<'_, L>],
) -> Result<(GrowingSegment, GrowingSegment), AllocError>
    ensures code { IfOk result (λ made. made.0 ≡ all_grown publics.now Code nothing_grown placed.now) }
    ensures data_bytes { IfOk result (λ made. made.1
        ≡ all_grown publics.now Data nothing_grown placed.now) }
{
    let mut code = GrowingSegment::new(alloc);
    let mut data_bytes = GrowingSegment::new(alloc);
    add_modules(alloc, &mut code, &mut data_bytes, publics, placed)?;
    Ok((code, data_bytes))
}
